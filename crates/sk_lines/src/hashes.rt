// Hashes as hexadecimal text.
ghost use Rattle.std.specs.Prelude.{◌≡◌, ◌↔◌, ◌^◌, ◌<◌, ◌≤◌, ℕ, Some, IfSome};
ghost use Rattle.sk_lines.specs.Hashes.{hex, hex_digit, hash_line};

use sk_model::limits::ITEM_DIGITS;

/// How many bytes the line of a hash has: its digits, and LF.
pub const HASH_LINE_LEN: usize = ITEM_DIGITS + 1;

/// The line of a hash: its 16 digits in base 16, lower case, and LF. For a hash below 2^48 the digits after the
/// first four are its 12 digits.
pub fn hash_line(hash: u64) -> [u8; HASH_LINE_LEN]
    ensures { result ≡ hash_line hash }
{
    let mut line = [b'\n'; HASH_LINE_LEN];
    let mut place = ITEM_DIGITS;
    let mut rest = hash;
    'digit: while place > 0 {
        place -= 1;
        line[place] = hex_digit((rest % 16) as u8);
        rest /= 16;
    }
    line
}

/// The number that the bytes spell in base 16: exactly `width` digits, lower case.
pub fn read_hash(digits: &[u8], width: usize) -> Option<u64>
    requires { width ≤ 16 }
    ensures limit { IfSome result (λ hash. hash < 16 ^ width) }
    ensures exact { (hash : ℕ) → hash < 16 ^ width → (result ≡ Some hash ↔ digits.now ≡ hex width hash) }
{
    if digits.len() != width {
        return None;
    }
    let mut hash = 0;
    'digit: for byte in digits {
        hash = hash * 16 + read_digit(*byte)?;
    }
    Some(hash)
}

fn hex_digit(digit: u8) -> u8
    requires { digit < 16 }
    ensures { result ≡ hex_digit digit }
{
    if digit < 10 {
        b'0' + digit
    } else {
        b'a' - 10 + digit
    }
}

// The value of a hexadecimal digit, lower case.
fn read_digit(byte: u8) -> Option<u64>
    ensures limit { IfSome result (λ digit. digit < 16) }
    ensures exact { (digit : ℕ) → digit < 16 → (result ≡ Some digit ↔ byte ≡ hex_digit digit) }
{
    match byte {
        b'0'..=b'9' => Some(u64::from(byte - b'0')),
        b'a'..=b'f' => Some(u64::from(byte - b'a') + 10),
        _ => None,
    }
}
