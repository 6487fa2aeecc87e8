//! Types by the numbers of their parts.

/// A type whose parts are types of a table, by their numbers.
#[derive(Clone, Copy, Debug, PartialEq, Eq, Hash)]
pub enum Shape {
    I1,
    I8,
    I16,
    I32,
    I64,
    Pointer,
    Void,
    /// So many elements of a type.
    Array(u64, usize),
    /// The structure without fields.
    NoFields,
    /// The fields of a structure, and one more.
    MoreFields(usize, usize),
}
