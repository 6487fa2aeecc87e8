//! The widths of integer types.

ghost use Rattle.std.specs.Prelude.{◌≡◌, ◌+◌, ◌%◌, ◌^◌, ◌≤◌, ◌<◌, ◌≤ℤ◌, ◌<ℤ◌, pos, negsuc};
ghost use Rattle.pg_num.specs.Numbers.{width_bits, modulus, half, signed, residue};

/// The width in bits of an integer type: `i1`, `i8`, `i16`, `i32` or `i64` (LLVM Language Reference).
///
/// A value of a width is a `u64` below two to the width.
#[derive(Clone, Copy, Debug, PartialEq, Eq)]
pub enum Width {
    W1,
    W8,
    W16,
    W32,
    W64,
}

impl Width {
    /// How many bits the width has: 1, 8, 16, 32 or 64.
    pub fn bits(self) -> u32
        ensures { result ≡ width_bits self }
    {
        match self {
            Width::W1 => 1,
            Width::W8 => 8,
            Width::W16 => 16,
            Width::W32 => 32,
            Width::W64 => 64,
        }
    }

    /// The number of values of the width.
    pub(crate) fn modulus(self) -> u128
        ensures value { result ≡ modulus self }
        ensures low { 2 ≤ result }
        ensures high { result ≤ 2 ^ 64 }
    {
        match self {
            Width::W1 => 2,
            Width::W8 => 0x100,
            Width::W16 => 0x1_0000,
            Width::W32 => 0x1_0000_0000,
            Width::W64 => 0x1_0000_0000_0000_0000,
        }
    }

    /// The first value that is read as negative.
    pub(crate) fn half(self) -> u64
        ensures value { result ≡ half self }
        ensures twice { result + result ≡ modulus self }
    {
        match self {
            Width::W1 => 1,
            Width::W8 => 0x80,
            Width::W16 => 0x8000,
            Width::W32 => 0x8000_0000,
            Width::W64 => 0x8000_0000_0000_0000,
        }
    }

    /// The signed reading of a value.
    pub(crate) fn signed(self, value: u64) -> i128
        requires { value < modulus self }
        ensures reading { result ≡ signed self value }
        ensures low { negsuc (2 ^ 63) ≤ℤ result }
        ensures high { result <ℤ pos (2 ^ 63) }
    {
        if value < self.half() {
            value as i128
        } else {
            value as i128 - self.modulus() as i128
        }
    }

    /// The number modulo two to the width. Each divisor is a constant, so no division is made.
    pub(crate) fn reduce(self, number: u128) -> u64
        ensures value { result ≡ number % modulus self }
        ensures in_range { result < modulus self }
    {
        match self {
            Width::W1 => (number % 2) as u64,
            Width::W8 => (number % 0x100) as u64,
            Width::W16 => (number % 0x1_0000) as u64,
            Width::W32 => (number % 0x1_0000_0000) as u64,
            Width::W64 => (number % 0x1_0000_0000_0000_0000) as u64,
        }
    }

    /// The value that an integer is, modulo two to the width. Each divisor is a constant, so no
    /// division is made.
    pub(crate) fn wrap(self, integer: i128) -> u64
        ensures value { result ≡ residue self integer }
        ensures in_range { result < modulus self }
    {
        match self {
            Width::W1 => integer.rem_euclid(2) as u64,
            Width::W8 => integer.rem_euclid(0x100) as u64,
            Width::W16 => integer.rem_euclid(0x1_0000) as u64,
            Width::W32 => integer.rem_euclid(0x1_0000_0000) as u64,
            Width::W64 => integer.rem_euclid(0x1_0000_0000_0000_0000) as u64,
        }
    }
}
