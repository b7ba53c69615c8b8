//! Numbers, and names that are numbered.

use eco_text::{fresh_prefix, number_of, number_up_to, numbered};
use std::test::Fail;

/// Words, each with the number that it is.
const NUMBERS: [(&[u8], Option<u64>); 20] = [
    (b"0", Some(0)),
    (b"7", Some(7)),
    (b"10", Some(10)),
    (b"9007199254740993", Some(9_007_199_254_740_993)),
    (b"18446744073709551615", Some(18_446_744_073_709_551_615)),
    (b"18446744073709551616", None),
    (b"340282366920938463463374607431768211456", None),
    (b"", None),
    (b"00", None),
    (b"007", None),
    (b"+1", None),
    (b"-1", None),
    (b"-0", None),
    (b"1 ", None),
    (b" 1", None),
    (b"1_000", None),
    (b"1e3", None),
    (b"0x1", None),
    (b"\xe0\xa5\xa6", None),
    (b"1\xff", None),
];

#[test]
fn words_that_are_numbers(rt: HostRuntime) {
    for (word, number) in &NUMBERS {
        assert_eq!(rt; number_of(word), *number, "at {word:?}");
    }
}

/// Words, each with the most that it may be, and the number that it is then.
const BOUNDED: [(&[u8], u64, Option<u64>); 5] = [
    (b"0", 0, Some(0)),
    (b"1", 0, None),
    (
        b"9223372036854775807",
        9_223_372_036_854_775_807,
        Some(9_223_372_036_854_775_807),
    ),
    (b"9223372036854775808", 9_223_372_036_854_775_807, None),
    (b"01", 1, None),
];

#[test]
fn words_that_are_bounded_numbers(rt: HostRuntime) {
    for (word, most, number) in &BOUNDED {
        assert_eq!(rt; number_up_to(word, *most), *number, "at {word:?}");
    }
}

/// Names, each list with the shortest of `asg_`, `asg__`, .. with which none of them begins.
const PREFIXES: [(&[&[u8]], &[u8]); 4] = [
    (&[], b"asg_"),
    (&[b"asg", b"as_", b"basg__"], b"asg_"),
    (&[b"asg_1", b"asg___x", b"asg__"], b"asg____"),
    (&[b"asg_", b"\\asg__"], b"asg__"),
];

#[test]
fn shortest_prefix_that_begins_no_name(rt: HostRuntime) -> Result<(), Fail> {
    for (names, expected) in &PREFIXES {
        let prefix = fresh_prefix(rt.alloc(), b"asg", names)?;
        assert_eq!(rt; prefix.as_slice(), *expected);
    }
    Ok(())
}

#[test]
fn a_numbered_name(rt: HostRuntime) -> Result<(), Fail> {
    let name = numbered(rt.alloc(), b"asg_", 10)?;
    assert_eq!(rt; name.bytes(), b"asg_10".as_slice());
    Ok(())
}
