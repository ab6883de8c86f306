use super::expect;
use sk_lines::{ESTIMATE_LINE_LEN, push_fraction, put_estimate_line, put_fraction, read_number};
use sk_read::{are_short_numbers, read_number_at};
use std::alloc::Global;
use std::process::Abort;
use std::test::Fail;

// 2^48.
const LOW_END: u64 = 281_474_976_710_656;

// The numbers that are read as items are below it.
const END: u64 = 9_223_372_036_854_775_807;

fn expect_number(rt: &impl Abort, bytes: &[u8], below: u64, want: Option<u64>) {
    assert!(rt; below >= 1);
    expect(rt, read_number(bytes, below), want);
}

#[test]
fn numbers_at_their_limits(rt: HostRuntime) {
    let rows: [(&[u8], u64, Option<u64>); 14] = [
        (b"281474976710655", LOW_END, Some(281_474_976_710_655)),
        (b"281474976710656", LOW_END, None),
        (b"000000000000007", LOW_END, Some(7)),
        (b"0000000000000007", LOW_END, None),
        (b"", LOW_END, None),
        (b"+5", LOW_END, None),
        (b"5\r", LOW_END, None),
        (b"0", LOW_END, Some(0)),
        (b"0", 1, Some(0)),
        (b"1", 1, None),
        (b"9223372036854775806", END, Some(END - 1)),
        (b"9223372036854775807", END, None),
        (b"18446744073709551614", u64::MAX, Some(u64::MAX - 1)),
        (b"99999999999999999999", u64::MAX, None),
    ];
    for (bytes, below, want) in rows {
        expect_number(&rt, bytes, below, want);
    }
}

// Digits, and the numbers that the first of them spell.
const DIGITS: &[u8; 19] = b"9223372036854775806";

const SPELLED: [u64; 19] = [
    9,
    92,
    922,
    9_223,
    92_233,
    922_337,
    9_223_372,
    92_233_720,
    922_337_203,
    9_223_372_036,
    92_233_720_368,
    922_337_203_685,
    9_223_372_036_854,
    92_233_720_368_547,
    922_337_203_685_477,
    9_223_372_036_854_775,
    92_233_720_368_547_758,
    922_337_203_685_477_580,
    9_223_372_036_854_775_806,
];

#[test]
fn numbers_at_places_of_a_text(rt: HostRuntime) {
    for place in 0..37usize {
        for len in 1..20usize {
            let mut text = [b'7'; 60];
            text[place..place + len].copy_from_slice(&DIGITS[..len]);
            let number = read_number_at(&text, place, place + len, END);
            expect(&rt, number, Some(SPELLED[len - 1]));
        }
        for other in 0..19usize {
            let mut text = [b'7'; 60];
            text[place..place + 19].copy_from_slice(DIGITS);
            for byte in *b"/:\n\xb7" {
                text[place + other] = byte;
                expect(&rt, read_number_at(&text, place, place + 19, END), None);
            }
        }
    }
}

// Expects this number in a part of a text.
fn expect_part(
    rt: &impl Abort,
    text: &[u8],
    (from, to): (usize, usize),
    below: u64,
    want: Option<u64>,
) {
    assert!(rt; from <= to && to <= text.len() && below >= 1);
    expect(rt, read_number_at(text, from, to, below), want);
}

#[test]
fn numbers_of_a_text_at_their_limits(rt: HostRuntime) {
    let text = b"--------------------------------0009223372036854775807 18446744073709551615";
    let rows: [(usize, usize, u64, Option<u64>); 12] = [
        (35, 54, END, None),
        (35, 54, END + 1, Some(END)),
        (34, 53, END, Some(922_337_203_685_477_580)),
        (33, 53, END, None),
        (33, 53, u64::MAX, Some(922_337_203_685_477_580)),
        (33, 52, END, Some(92_233_720_368_547_758)),
        (37, 54, END, Some(23_372_036_854_775_807)),
        (39, 54, LOW_END, None),
        (40, 54, LOW_END, Some(72_036_854_775_807)),
        (54, 54, END, None),
        (55, 74, u64::MAX, Some(1_844_674_407_370_955_161)),
        (55, 75, u64::MAX, None),
    ];
    for (from, to, below, want) in rows {
        expect_part(&rt, text, (from, to), below, want);
    }
}

// Whether these bytes, with an LF after them, are lines of short numbers.
fn are_short(alloc: Global, bytes: &[u8]) -> Result<bool, Fail> {
    let mut text = bytes.to_vec(alloc)?;
    text.push(b'\n')?;
    Ok(are_short_numbers(&text))
}

#[test]
fn lines_that_are_short_numbers_or_not(rt: HostRuntime) -> Result<(), Fail> {
    let rows: [(&[u8], bool); 12] = [
        (b"", true),
        (b"0", true),
        (b"1\n\n2", true),
        (b"12345678901234", true),
        (b"123456789012345", false),
        (b"12345\r", false),
        (b"12a45", false),
        (b"-1", false),
        (b"/", false),
        (b":", false),
        (b"\x8a", false),
        (b"\xb5", false),
    ];
    for (bytes, want) in rows {
        expect(&rt, are_short(rt.alloc(), bytes)?, want);
    }
    expect(&rt, are_short_numbers(b""), true);
    Ok(())
}

// Texts of less than a block, of one, of one that ends in another, and of more.
const LENGTHS: [usize; 8] = [1, 63, 64, 65, 111, 112, 113, 170];

#[test]
fn short_numbers_but_for_one_byte(rt: HostRuntime) -> Result<(), Fail> {
    for len in LENGTHS {
        let mut text = [b'7'; 170];
        for place in 0..text.len() {
            if place % 11 == 10 {
                text[place] = b'\n';
            }
        }
        expect(&rt, are_short(rt.alloc(), &text[..len - 1])?, true);
        for place in 0..len - 1 {
            let byte = text[place];
            text[place] = b'x';
            expect(&rt, are_short(rt.alloc(), &text[..len - 1])?, false);
            text[place] = byte;
        }
        for place in 0..len {
            let mut text = [b'\n'; 190];
            text[place..place + 14].fill(b'9');
            expect(&rt, are_short(rt.alloc(), &text[..len + 14])?, true);
            text[place + 14] = b'9';
            expect(&rt, are_short(rt.alloc(), &text[..len + 14])?, false);
        }
    }
    Ok(())
}

#[test]
fn fractions_and_estimates_as_text(rt: HostRuntime) -> Result<(), Fail> {
    let rows: [(u128, u64, &[u8]); 4] = [
        (0, 1, b"0/1"),
        (
            9_223_372_036_854_775_808,
            7_344_337_286_506_401_153,
            b"9223372036854775808/7344337286506401153",
        ),
        (
            37_769_708_490_920_306_933_760,
            4_097,
            b"37769708490920306933760/4097",
        ),
        (
            u128::MAX,
            u64::MAX,
            b"340282366920938463463374607431768211455/18446744073709551615",
        ),
    ];
    for (n, d, want) in rows {
        let mut text = b"estimate ".to_vec(rt.alloc())?;
        push_fraction(&mut text, n, d)?;
        expect(&rt, &text[9..], want);
        let mut into = [b' '; 64];
        let len = put_fraction(&mut into, n, d);
        expect(&rt, &into[..len], want);
        text.push(b'\n')?;
        let mut line = [0; ESTIMATE_LINE_LEN];
        let len = put_estimate_line(&mut line, n, d);
        expect(&rt, &line[..len], text.as_slice());
    }
    Ok(())
}
