//! Bytes of numbers, and bytes without the zeros at their end.

ghost use Rattle.std.specs.Prelude.{◌≡◌, ◌++◌, ◌==◌, ◌+◌, OnOk, replicate, take, if◌then◌else◌, ◌^◌, ◌<◌};
ghost use Rattle.pg_check_rules.specs.Constants.{little_endian, trimmed};

use std::alloc::AllocError;

/// Adds so many bytes of a number, the lowest first.
pub(crate) fn add_little_endian(
    bytes: &mut Vec<u8>,
    count: u32,
    number: u64,
) -> Result<(), AllocError>
    ensures { OnOk result (bytes.new.items ≡ bytes.old.items ++ little_endian count number) }
{
    let mut rest = number;
    for place in 0..count {
        bytes.push((rest % 256) as u8)?;
        rest = rest / 256;
    }
    Ok(())
}

/// Adds so many zeros.
pub(crate) fn add_zeros(bytes: &mut Vec<u8>, count: u32) -> Result<(), AllocError>
    ensures { OnOk result (bytes.new.items ≡ bytes.old.items ++ replicate count 0) }
{
    for place in 0..count {
        bytes.push(0)?;
    }
    Ok(())
}

/// How many bytes are kept once one more is looked at: all up to it, unless it is 0.
fn kept(byte: u8, place: usize, before: usize) -> usize
    requires { place < 2 ^ 63 }
    ensures { result ≡ (if byte == 0 then before else place + 1) }
{
    if byte == 0 { before } else { place + 1 }
}

/// How many bytes are kept where the zeros at the end aren't.
pub(crate) fn trimmed_length(bytes: &[u8]) -> usize
    ensures { take result bytes.now ≡ trimmed bytes.now }
{
    let mut length = 0;
    for place in 0..bytes.len() {
        length = kept(bytes[place], place, length);
    }
    length
}
