//! Worked rows: pointers, whose expected values come from how their parts lie in a word, and decimal text. The program
//! `pg_test_vectors` has those of the operations on numbers.

use pg_num::{Pointer, digits_in_64_bits, digits_in_i64, digits_in_u64, move_by, pack, unpack};

#[test]
fn pointer_rows(rt: HostRuntime) {
    let top = Pointer {
        start: 0x3f_ffff,
        length: 0x1f_ffff,
        offset: 0x1f_ffff,
    };
    assert_eq!(rt; unpack(u64::MAX), top);
    assert_eq!(rt; pack(top), u64::MAX);
    assert_eq!(rt; move_by(u64::MAX, 1), u64::MAX - 0x1f_ffff);
    assert_eq!(rt; move_by(0, i64::MIN), 0);
}

#[test]
fn decimal_rows(rt: HostRuntime) {
    for (text, want) in [
        ("0", Some(0)),
        ("-0", Some(0)),
        ("-007", Some(-7)),
        ("9223372036854775807", Some(i64::MAX)),
        ("9223372036854775808", None),
        ("-9223372036854775808", Some(i64::MIN)),
        ("-9223372036854775809", None),
        ("", None),
        ("-", None),
        ("+1", None),
        ("1-", None),
        ("99999999999999999999999999999999999999999999999999", None),
    ] {
        assert_eq!(rt; digits_in_i64(text.as_bytes()), want, "{text}");
    }
    assert_eq!(rt;
        digits_in_64_bits(b"18446744073709551615"),
        Some(u64::MAX as i128)
    );
    assert_eq!(rt; digits_in_64_bits(b"18446744073709551616"), None);
    assert_eq!(rt; digits_in_u64(b"-1"), None);
    assert_eq!(rt; digits_in_u64(b"18446744073709551615"), Some(u64::MAX));
}
