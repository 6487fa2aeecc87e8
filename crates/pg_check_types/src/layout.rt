//! How a type lies in memory.

ghost use Rattle.std.specs.Prelude.{◌≤◌};
ghost use Rattle.pg_check_types.specs.declared.cap.TheConstants.{LAYOUT_CAP};

/// How a type lies in memory, in bytes. A size or an end over `LAYOUT_CAP` is kept as that number.
#[derive(Clone, Copy, Debug, PartialEq, Eq)]
pub struct Layout {
    pub size: u32,
    /// Where the last field of a structure ends, before its end is rounded up; 0 of other types.
    pub fields_end: u32,
    pub alignment: u32,
    /// How many fields a structure has; 0 of other types.
    pub fields: usize,
    /// The number of a structure of some of the first fields; none of a type without fields.
    pub shorter: Option<usize>,
    ghost size_fits: { size ≤ LAYOUT_CAP },
    ghost end_fits: { fields_end ≤ LAYOUT_CAP },
    ghost aligned: { 1 ≤ alignment },
    ghost alignment_fits: { alignment ≤ 8 },
}
