// Numbers, fractions and estimates as decimal text.
ghost use Rattle.std.specs.Prelude.{◌≡◌, ◌+◌, ◌<◌, ◌≤◌, ◌++◌, OnOk, OnErr, decimal, codes, length, take, true};
ghost use Rattle.std.specs.List.{list_all};
ghost use Rattle.std.specs.Char.{is_ascii_digit};
ghost use Rattle.sk_model.specs.Numbers.{number_of, value_of};
ghost use Rattle.sk_lines.specs.Fractions.{fraction_text, estimate_text, estimate_line};

use sk_model::OutOfMemory;

const ZERO: u64 = 48;

/// The most bytes that the line of an estimate has: a numerator of 39 digits and a denominator of 20.
pub const ESTIMATE_LINE_LEN: usize = 70;

// How many digits are read together.
const WIDE: usize = 8;

/// The number below `below` that the bytes spell: digits only, at least one and at most as many as
/// `below - 1` has. Leading zeros are allowed within that length.
#[inline(always)]
pub fn read_number(bytes: &[u8], below: u64) -> Option<u64>
    requires { 1 ≤ below }
    ensures { result ≡ number_of below bytes.now }
{
    if bytes.is_empty() || bytes.len() > decimal_len(below - 1) {
        return None;
    }
    if !are_digits(bytes) {
        return None;
    }
    // only with the last digit it may be too large
    let last = bytes.len() - 1;
    let tens = value_before(bytes, last).checked_mul(10)?;
    let value = tens.checked_add(u64::from(bytes[last]) - ZERO)?;
    if value < below { Some(value) } else { None }
}

// The number that the digits before a place spell: eight together, as a loop of eight is unrolled.
#[inline(always)]
fn value_before(bytes: &[u8], place: usize) -> u64
    requires within { place ≤ length bytes.now }
    requires few { place ≤ 19 }
    requires digits { list_all is_ascii_digit bytes.now ≡ true }
    ensures { result ≡ value_of (take place bytes.now) }
{
    if place < WIDE {
        return value_on(bytes, 0, 0, place);
    }
    let front = value_on(bytes, 0, 0, WIDE);
    value_on(bytes, front, WIDE, place)
}

// The number that the digits before a place spell, from that of those before an earlier place.
#[inline(always)]
fn value_on(bytes: &[u8], front: u64, from: usize, place: usize) -> u64
    requires order { from ≤ place }
    requires within { place ≤ length bytes.now }
    requires few { place ≤ 19 }
    requires digits { list_all is_ascii_digit bytes.now ≡ true }
    requires front { front ≡ value_of (take from bytes.now) }
    ensures { result ≡ value_of (take place bytes.now) }
{
    let mut value = front;
    'digit: for i in from..place {
        value = value * 10 + (u64::from(bytes[i]) - ZERO);
    }
    value
}

/// Whether all bytes are digits.
#[inline(always)]
pub fn are_digits(bytes: &[u8]) -> bool
    ensures { result ≡ list_all is_ascii_digit bytes.now }
{
    match bytes.len() {
        17..=32 => ends_are_digits(bytes, 2 * WIDE),
        8..=16 => ends_are_digits(bytes, WIDE),
        4..=7 => ends_are_digits(bytes, WIDE / 2),
        _ => each_is_digit(bytes),
    }
}

// Whether all bytes are digits: the first n and the last n, which meet.
#[inline(always)]
fn ends_are_digits(bytes: &[u8], n: usize) -> bool
    requires within { n ≤ length bytes.now }
    requires meet { length bytes.now ≤ n + n }
    ensures { result ≡ list_all is_ascii_digit bytes.now }
{
    each_is_digit(&bytes[..n]) & each_is_digit(&bytes[bytes.len() - n..])
}

#[inline(always)]
fn each_is_digit(bytes: &[u8]) -> bool
    ensures { result ≡ list_all is_ascii_digit bytes.now }
{
    let mut digits = true;
    // no way out in the middle: such a loop is made of wide steps
    'byte: for byte in bytes {
        digits &= byte.is_ascii_digit();
    }
    digits
}

/// Appends `n/d`. When out of memory, the text stays.
pub fn push_fraction(text: &mut Vec<u8>, n: u128, d: u64) -> Result<(), OutOfMemory>
    ensures ok { OnOk result (text.new.items ≡ text.old.items ++ fraction_text n d) }
    ensures err { OnErr result (text.new.items ≡ text.old.items) }
{
    let mut fraction = [0u8; 64];
    let len = put_fraction(&mut fraction, n, d);
    text.extend_from_slice(&fraction[..len])?;
    Ok(())
}

/// Writes `n/d` to the start of `into`, and returns its length, at most 60.
pub fn put_fraction(into: &mut [u8; 64], n: u128, d: u64) -> usize
    ensures text { take result into.new ≡ fraction_text n d }
    ensures length { result ≡ length (fraction_text n d) }
{
    put_parts(into, n, d)
}

/// Writes `estimate n/d` to the start of `into`, and returns its length.
pub fn put_estimate(into: &mut [u8; ESTIMATE_LINE_LEN], n: u128, d: u64) -> usize
    ensures text { take result into.new ≡ estimate_text n d }
    ensures most { result < ESTIMATE_LINE_LEN }
{
    let at = put_text(into, b"estimate ");
    at + put_parts(&mut into[at..], n, d)
}

/// Writes `estimate n/d` and LF to the start of `into`, and returns their length.
pub fn put_estimate_line(into: &mut [u8; ESTIMATE_LINE_LEN], n: u128, d: u64) -> usize
    ensures text { take result into.new ≡ estimate_line (n, d) }
    ensures most { result ≤ ESTIMATE_LINE_LEN }
{
    let end = put_estimate(into, n, d);
    into[end] = b'\n';
    end + 1
}

/// Writes a text to the start of `into`, and returns its length.
pub fn put_text(into: &mut [u8], text: &[u8]) -> usize
    requires { length text.now ≤ length into.old }
    ensures text { take result into.new ≡ text.now }
    ensures length { result ≡ length text.now }
{
    into[..text.len()].copy_from_slice(text);
    text.len()
}

/// Writes the digits of a number to the start of `into`, and returns how many they are.
pub fn put_decimal(into: &mut [u8], n: u64) -> usize
    requires { length (decimal n) ≤ length into.old }
    ensures text { take result into.new ≡ decimal n }
    ensures length { result ≡ length (decimal n) }
    ensures most { result ≤ 20 }
{
    if n < 10 {
        into[0] = b'0' + n as u8;
        return 1;
    }
    let at = put_decimal(into, n / 10);
    into[at] = b'0' + (n % 10) as u8;
    at + 1
}

// The same for a number of up to 128 bits.
fn put_wide_decimal(into: &mut [u8], n: u128) -> usize
    requires { 39 ≤ length into.old }
    ensures text { take result into.new ≡ decimal n }
    ensures length { result ≡ length (decimal n) }
    ensures most { result ≤ 39 }
{
    put_text(into, itoa::Buffer::new().format(n).as_bytes())
}

// Writes `n/d` to the start of `into`, and returns its length.
fn put_parts(into: &mut [u8], n: u128, d: u64) -> usize
    requires { 60 ≤ length into.old }
    ensures text { take result into.new ≡ fraction_text n d }
    ensures length { result ≡ length (fraction_text n d) }
    ensures most { result ≤ 60 }
{
    let slash = put_wide_decimal(into, n);
    into[slash] = b'/';
    slash + 1 + put_decimal(&mut into[slash + 1..], d)
}

/// How many decimal digits a number has, 1 for 0.
#[inline(always)]
pub fn decimal_len(n: u64) -> usize
    ensures { result ≡ length (decimal n) }
{
    n.max(1).ilog10() as usize + 1
}
