// Numerals alone.
use records::Numeral;
use std::process::Abort;

fn reads(rt: &impl Abort, case: usize, text: &[u8], negative: bool, magnitude: u64) {
    let numeral = Numeral {
        negative,
        magnitude,
    };
    assert_eq!(rt; Numeral::read(text), Some(numeral), "case {case}");
}

#[test]
fn sign_and_magnitude(rt: HostRuntime) {
    let cases: [(&[u8], bool, u64); 15] = [
        (b"0", false, 0),
        (b"+0", false, 0),
        (b"-0", true, 0),
        (b"7", false, 7),
        (b"+7", false, 7),
        (b"-7", true, 7),
        (b"1234567890", false, 1_234_567_890),
        (b"007", false, 7),
        (
            b"-000000000000000000000000000000000000001000000000",
            true,
            1_000_000_000,
        ),
        // The largest magnitude that is held as it is: 2^64 - 1.
        (b"18446744073709551614", false, u64::MAX - 1),
        (b"18446744073709551615", false, u64::MAX),
        (b"18446744073709551616", false, u64::MAX),
        (b"-18446744073709551616", true, u64::MAX),
        // 2^64 + 5, which is 5 to whoever drops a carry.
        (b"18446744073709551621", false, u64::MAX),
        (b"123456789012345678901234567890", false, u64::MAX),
    ];
    for (i, (text, negative, magnitude)) in cases.iter().enumerate() {
        reads(&rt, i, text, *negative, *magnitude);
    }
}

#[test]
fn no_numeral(rt: HostRuntime) {
    let cases: [&[u8]; 18] = [
        b"", b"+", b"-", b"+-1", b"-+1", b"--1", b"++1", b"1-", b"1+2", b" 1", b"1 ", b"1.0",
        // The bytes on both sides of the digits.
        b"/", b":", b"1a", b"0x1", b"1,0", b"\xB2",
    ];
    for (i, text) in cases.iter().enumerate() {
        assert!(rt; Numeral::read(text).is_none(), "case {i}");
    }
}

#[test]
fn within_a_limit(rt: HostRuntime) {
    let largest = u32::MAX;
    let cases: [(bool, u64, u32, Option<i64>); 12] = [
        (false, 0, 0, Some(0)),
        (true, 0, 0, Some(0)),
        (false, 1, 0, None),
        (true, 1, 0, None),
        (false, 5, 5, Some(5)),
        (true, 5, 5, Some(-5)),
        (false, 6, 5, None),
        (true, 6, 5, None),
        (false, 4_294_967_295, largest, Some(4_294_967_295)),
        (true, 4_294_967_295, largest, Some(-4_294_967_295)),
        (false, 4_294_967_296, largest, None),
        (true, u64::MAX, largest, None),
    ];
    for (i, (negative, magnitude, limit, value)) in cases.iter().enumerate() {
        let numeral = Numeral {
            negative: *negative,
            magnitude: *magnitude,
        };
        assert_eq!(rt; numeral.within(*limit), *value, "case {i}");
    }
}
