//! The number of bytes up to which sizes are exact.

/// The number of bytes up to which sizes are kept exactly: more than all globals may take together. A larger size is
/// kept as this one.
pub const LAYOUT_CAP: u32 = 0x200_0000;
