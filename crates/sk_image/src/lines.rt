// The lines of an image, each alone.
ghost use Rattle.std.specs.Prelude.{◌≡◌, ◌≢◌, ◌↔◌, ◌<◌, ◌≤◌, ◌+◌, ◌^◌, ◌++◌, ◌∷◌, ℕ, List, Some, None, All, IfSome, IsNone, MatchOption, IsTrue, decimal, codes};
ghost use Rattle.sk_image.specs.Images.{first_line, hash_text, last_line};
ghost use Rattle.sk_image.specs.Versions.{IsVersion, IsHash};
ghost use Rattle.sk_image.specs.Versions as versions;
ghost use Rattle.sk_image.specs.declared.lines.First.{First};
ghost use Rattle.sk_model.specs.Limits.{least_k, most_k, IsFrom};

use crate::version::{NEWEST_VERSION, digits_of, end_of, least_hash_of, most_k_of};
use sk_lines::{read_hash, read_number};
use sk_model::limits::{LEAST_K, MOST_K};

/// No line of an image has more bytes.
pub const MOST_LINE: usize = 64;

const VERSION_END: u64 = NEWEST_VERSION as u64 + 1;

const COUNT_END: u64 = MOST_K as u64 + 1;

const SEED_END: u64 = 1 << 32;

/// The numbers of a first line.
#[derive(Clone, Copy)]
pub struct First {
    pub version: u32,
    pub k: u32,
    pub seed: u32,
}

/// The numbers of a first line, each within the limits of its version.
pub fn read_first(line: &[u8]) -> Option<First>
    ensures version { IfSome result (λ first. IsVersion first.version) }
    ensures k { IfSome result (λ first. IsFrom least_k (versions.most_k_of first.version) first.k) }
    ensures exact { (version k seed : ℕ) → IsVersion version → IsFrom least_k (versions.most_k_of version) k → seed < 2 ^ 32
        → (result ≡ Some (record { version = version; k = k; seed = seed }) ↔ line.now ≡ first_line version k seed) }
{
    let (version, k, seed) = numbers_of(line)?;
    let version = read_plain(version, VERSION_END)? as u32;
    let k = read_plain(k, u64::from(most_k_of(version)) + 1)? as u32;
    let seed = read_plain(seed, SEED_END)? as u32;
    if version < 1 || k < LEAST_K {
        return None;
    }
    Some(First { version, k, seed })
}

/// The hash of a line, within the limits of its version.
pub fn read_hash_text(version: u32, line: &[u8]) -> Option<u64>
    ensures limits { IfSome result (λ hash. IsHash version hash) }
    ensures exact { (hash : ℕ) → IsHash version hash → (result ≡ Some hash ↔ line.now ≡ hash_text version hash) }
{
    let hash = read_hash(line, digits_of(version))?;
    if hash < least_hash_of(version) || hash >= end_of(version) {
        return None;
    }
    Some(hash)
}

/// Whether a line is the last one after `count` hashes.
pub fn is_last(line: &[u8], count: usize) -> bool
    requires { count ≤ most_k }
    ensures { IsTrue result ↔ line.now ≡ last_line count }
{
    match line.strip_prefix(b"end ") {
        Some(number) => read_plain(number, COUNT_END) == Some(count as u64),
        None => false,
    }
}

// The texts of the version, the k and the seed of a first line.
fn numbers_of(line: &[u8]) -> Option<(&[u8], &[u8], &[u8])>
    ensures { (version k seed : ℕ) → version < 2 ^ 64 → k < 2 ^ 64 → (line.now ≡ first_line version k seed
        ↔ MatchOption result ⊥ (λ texts. (texts.0.now ≡ decimal version) × (texts.1.now ≡ decimal k) × (texts.2.now ≡ decimal seed))) }
{
    let (version, rest) = word_after(line, b"theta")?;
    let (k, rest) = word_after(rest, b"k=")?;
    let seed = rest.strip_prefix(b"seed=")?;
    Some((version, k, seed))
}

// What stands between a name and the first blank after it, and what follows the blank.
fn word_after<'a>(bytes: &'a [u8], name: &[u8]) -> Option<(&'a [u8], &'a [u8])>
    ensures exact { (word rest : List ℕ) → All (λ byte. byte ≢ 32) word → (bytes.now ≡ name.now ++ (word ++ 32 ∷ rest)
        ↔ MatchOption result ⊥ (λ parts. (parts.0.now ≡ word) × (parts.1.now ≡ rest))) }
    ensures no_blank { IfSome result (λ parts. All (λ byte. byte ≢ 32) parts.0.now) }
{
    let rest = bytes.strip_prefix(name)?;
    split_at_blank(rest)
}

// What stands before the first blank, and what follows it.
fn split_at_blank(bytes: &[u8]) -> Option<(&[u8], &[u8])>
    ensures some { IfSome result (λ parts.
        (bytes.now ≡ parts.0.now ++ 32 ∷ parts.1.now) × All (λ byte. byte ≢ 32) parts.0.now) }
    ensures none { IsNone result → All (λ byte. byte ≢ 32) bytes.now }
{
    'find: for at in 0..bytes.len() {
        if bytes[at] == b' ' {
            return Some((&bytes[..at], &bytes[at + 1..]));
        }
    }
    None
}

// A number without leading zeros.
fn read_plain(bytes: &[u8], below: u64) -> Option<u64>
    requires { 1 ≤ below }
    ensures limit { IfSome result (λ n. n < below) }
    ensures exact { (n : ℕ) → n < below → (result ≡ Some n ↔ bytes.now ≡ decimal n) }
{
    if bytes.len() > 1 && bytes[0] == b'0' {
        return None;
    }
    read_number(bytes, below)
}
