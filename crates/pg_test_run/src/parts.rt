//! Tests of the parts that runs are made of: programs by number, memory, synchronisation objects, threads and traces.

mod tests;
