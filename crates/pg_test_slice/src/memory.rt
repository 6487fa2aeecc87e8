//! Tests of what is known of memory: worked rows, and how long forgotten megabytes take.

mod rows;
mod speed;
