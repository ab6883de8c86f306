// Fractions in words, and decimal numbers in their place.
ghost use Rattle.std.specs.Prelude.{◌≡◌, ◌+◌, ◌*◌, ◌^◌, ◌<◌, ◌≤◌, ◌==◌, [], ◌++◌, IfSome, codes, length, take, drop, true};
ghost use Rattle.std.specs.List.{list_all, position_or_len};
ghost use Rattle.std.specs.Char.{is_ascii_digit};
ghost use Rattle.sk_model.specs.Numbers.{value_of};
ghost use Rattle.sk_decimal.specs.Decimal.{most_digits, nearest, last_digits, pointed, decimal_of};
ghost use Rattle.sk_decimal.specs.Line.{line_room};
ghost use Rattle.sk_decimal.specs.Rounded.{longest_line, short_number, fraction_of, last_word, with_last};

use crate::buffer::Line;
use crate::places::MOST_DIGITS;
use sk_lines::{are_digits, put_text};

// A numerator and a denominator have at most this many digits.
const NUMERATOR_LEN: usize = 30;

const DENOMINATOR_LEN: usize = 20;

// The most bytes of a number of 128 bits, a point and the digits after it.
const DECIMAL_LEN: usize = 46;

/// Replaces the last word of a line by its decimal number, if it is a fraction.
pub fn round_last(line: &mut Line, digits: u32)
    requires digits { digits ≤ most_digits }
    requires short { length line.old < longest_line }
    ensures line { line.new ≡ with_last digits line.old (fraction_of (last_word line.old)) }
    ensures most { length line.new < line_room }
{
    let start = word_start(line.bytes());
    if let Some((n, d)) = read_fraction(&line.bytes()[start..]) {
        let mut text = [0u8; DECIMAL_LEN];
        let len = put_units(&mut text, digits, units_of(digits, n, d));
        line.cut(start);
        line.push(&text[..len]);
    }
}

// Where the last word of a line begins.
fn word_start(line: &[u8]) -> usize
    ensures within { result ≤ length line.now }
    ensures word { drop result line.now ≡ last_word line.now }
{
    let mut start = 0;
    'byte: for i in 0..line.len() {
        if line[i] == b' ' {
            start = i + 1;
        }
    }
    start
}

// The fraction that a word is.
fn read_fraction(word: &[u8]) -> Option<(u128, u128)>
    ensures fraction { result ≡ fraction_of word.now }
    ensures numerator { IfSome result (λ f. f.0 < 10 ^ 30) }
    ensures some { IfSome result (λ f. 0 < f.1) }
    ensures denominator { IfSome result (λ f. f.1 < 10 ^ 20) }
{
    let slash = slash_place(word);
    if slash == word.len() {
        return None;
    }
    let n = short_number(&word[..slash], NUMERATOR_LEN)?;
    let d = short_number(&word[slash + 1..], DENOMINATOR_LEN)?;
    if d == 0 { None } else { Some((n, d)) }
}

// Where the first slash of a word stands, or its length.
fn slash_place(word: &[u8]) -> usize
    ensures place { result ≡ position_or_len (λ byte. byte == 47) word.now }
    ensures within { result ≤ length word.now }
{
    'byte: for i in 0..word.len() {
        if word[i] == b'/' {
            return i;
        }
    }
    word.len()
}

// The number that a word spells.
fn short_number(word: &[u8], most: usize) -> Option<u128>
    requires { most ≤ 38 }
    ensures number { result ≡ short_number most word.now }
    ensures small { IfSome result (λ n. n < 10 ^ most) }
{
    if word.is_empty() || word.len() > most {
        return None;
    }
    if !are_digits(word) {
        return None;
    }
    Some(value(word))
}

// The number that digits spell.
fn value(word: &[u8]) -> u128
    requires few { length word.now ≤ 38 }
    requires digits { list_all is_ascii_digit word.now ≡ true }
    ensures value { result ≡ value_of word.now }
    ensures small { result < 10 ^ length word.now }
{
    let mut value = 0u128;
    'digit: for i in 0..word.len() {
        value = value * 10 + u128::from(word[i] - b'0');
    }
    value
}

// The nearest whole number of units, of which a power of ten make one.
fn units_of(digits: u32, n: u128, d: u128) -> u128
    requires digits { digits ≤ most_digits }
    requires numerator { n < 10 ^ 30 }
    requires some { 0 < d }
    requires denominator { d < 10 ^ 20 }
    ensures { result ≡ nearest (10 ^ digits) n d }
{
    (2 * n * scale_of(digits) + d) / (2 * d)
}

// How many units make one.
fn scale_of(digits: u32) -> u128
    requires { digits ≤ most_digits }
    ensures { result ≡ 10 ^ digits }
{
    10u128.pow(digits)
}

// Writes a whole number of units as a decimal number to the start of `into`, and returns its length.
fn put_units(into: &mut [u8; DECIMAL_LEN], digits: u32, units: u128) -> usize
    requires { digits ≤ most_digits }
    ensures text { take result into.new ≡ pointed digits units }
    ensures most { result ≤ DECIMAL_LEN }
{
    let scale = scale_of(digits);
    let whole = put_text(into, itoa::Buffer::new().format(units / scale).as_bytes());
    if digits == 0 {
        return whole;
    }
    into[whole] = b'.';
    whole + 1 + put_last_digits(&mut into[whole + 1..], digits, units)
}

// Writes the last digits of a number to the start of `into`, and returns how many they are.
fn put_last_digits(into: &mut [u8], width: u32, n: u128) -> usize
    requires { width ≤ length into.old }
    ensures text { take result into.new ≡ last_digits width n }
    ensures length { result ≡ width }
{
    if width == 0 {
        return 0;
    }
    let at = put_last_digits(into, width - 1, n / 10);
    into[at] = b'0' + (n % 10) as u8;
    at + 1
}
