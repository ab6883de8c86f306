//! MurmurHash3_x64_128, and the 63 bits of it that stand for an item.
#![tactic(auto)]

ghost use Rattle.std.specs.Prelude.{◌≡◌, ◌+◌, ◌<◌, ◌≤◌, ◌^◌, length, slice_range};
ghost use Rattle.sk_model.specs.Murmur.{word_at, scrambled_first, scrambled_second, after_block, with_tail, finished_word, finished, murmur128_of, hash_of, hash48_of};
ghost use Rattle.sk_model.specs.Width.{IsItem};
ghost use Rattle.sk_hash.specs.Factors.{AreFactors};

// The constants of the reference code.
const C1: u64 = 0x87c3_7b91_1142_53d5;

const C2: u64 = 0x4cf5_ad43_2745_937f;

const BLOCK_LEN: usize = 16;

// The factors C1 and C2, which LLVM does not know: of a product with a constant that is rotated it makes two products.
#[derive(Clone, Copy)]
struct Factors {
    c1: u64,
    c2: u64,
}

impl Factors {
    // No text has 2^63 bytes, which LLVM does not know either.
    #[inline(always)]
    fn hidden_by(text: &[u8]) -> Factors
        ensures { AreFactors result }
    {
        let none = (text.len() >> 63) as u64;
        Factors {
            c1: C1 ^ none,
            c2: C2 ^ none,
        }
    }
}

#[inline(always)]
#[tactic(auto, unfolding(sk_model::specs::Murmur::scrambled_first))]
fn scramble_first(k: u64, factors: Factors) -> u64
    requires { AreFactors factors }
    ensures { result ≡ scrambled_first k }
{
    k.wrapping_mul(factors.c1)
        .rotate_left(31)
        .wrapping_mul(factors.c2)
}

#[inline(always)]
#[tactic(auto, unfolding(sk_model::specs::Murmur::scrambled_second))]
fn scramble_second(k: u64, factors: Factors) -> u64
    requires { AreFactors factors }
    ensures { result ≡ scrambled_second k }
{
    k.wrapping_mul(factors.c2)
        .rotate_left(33)
        .wrapping_mul(factors.c1)
}

// The word at byte `i`, low byte first. LLVM makes one load of the eight.
#[inline(always)]
fn read_word(bytes: &[u8], i: usize) -> u64
    requires { i + 8 ≤ length bytes.now }
    ensures { result ≡ word_at bytes.now i }
{
    u64::from_le_bytes([
        bytes[i],
        bytes[i + 1],
        bytes[i + 2],
        bytes[i + 3],
        bytes[i + 4],
        bytes[i + 5],
        bytes[i + 6],
        bytes[i + 7],
    ])
}

#[inline(always)]
#[tactic(auto, unfolding(sk_model::specs::Murmur::after_block))]
fn mix_block(h: (u64, u64), k1: u64, k2: u64, factors: Factors) -> (u64, u64)
    requires { AreFactors factors }
    ensures { result ≡ after_block h k1 k2 }
{
    let h1 = (h.0 ^ scramble_first(k1, factors))
        .rotate_left(27)
        .wrapping_add(h.1)
        .wrapping_mul(5)
        .wrapping_add(0x52dc_e729);
    let h2 = (h.1 ^ scramble_second(k2, factors))
        .rotate_left(31)
        .wrapping_add(h1)
        .wrapping_mul(5)
        .wrapping_add(0x3849_5ab5);
    (h1, h2)
}

// The word of at most one byte.
#[inline(always)]
fn read_below_2(tail: &[u8]) -> u64
    requires { length tail.now < 2 }
    ensures { result ≡ word_at tail.now 0 }
{
    match tail.first() {
        Some(byte) => u64::from(*byte),
        None => 0,
    }
}

// The word of at most three bytes.
#[inline(always)]
#[tactic(auto, using(crate::proofs::Words::word_of_pair))]
fn read_below_4(tail: &[u8]) -> u64
    requires { length tail.now < 4 }
    ensures { result ≡ word_at tail.now 0 }
{
    match tail.split_first_chunk::<2>() {
        Some((front, back)) => u64::from(u16::from_le_bytes(*front)) | (read_below_2(back) << 16),
        None => read_below_2(tail),
    }
}

// The word of at most seven bytes: by parts, as a loop over the bytes costs most of a short hash.
#[inline(always)]
#[tactic(auto, using(crate::proofs::Words::word_of_four))]
fn read_below_8(tail: &[u8]) -> u64
    requires { length tail.now < 8 }
    ensures { result ≡ word_at tail.now 0 }
{
    match tail.split_first_chunk::<4>() {
        Some((front, back)) => u64::from(u32::from_le_bytes(*front)) | (read_below_4(back) << 32),
        None => read_below_4(tail),
    }
}

// An empty half changes nothing, and is left out.
#[inline(always)]
#[tactic(auto, using(crate::proofs::Words::without_second, crate::proofs::Words::without_tail), unfolding(sk_model::specs::Murmur::with_tail))]
fn mix_tail(h: (u64, u64), tail: &[u8], factors: Factors) -> (u64, u64)
    requires factors { AreFactors factors }
    requires short { length tail.now < 16 }
    ensures { result ≡ with_tail h tail.now }
{
    match tail.len() {
        0 => h,
        1..=7 => (h.0 ^ scramble_first(read_below_8(tail), factors), h.1),
        8 => (h.0 ^ scramble_first(read_word(tail, 0), factors), h.1),
        _ => (
            h.0 ^ scramble_first(read_word(tail, 0), factors),
            h.1 ^ scramble_second(read_below_8(&tail[8..]), factors),
        ),
    }
}

#[inline(always)]
#[tactic(auto, unfolding(sk_model::specs::Murmur::finished_word))]
fn finish_word(k: u64) -> u64
    ensures { result ≡ finished_word k }
{
    let k = (k ^ (k >> 33)).wrapping_mul(0xff51_afd7_ed55_8ccd);
    let k = (k ^ (k >> 33)).wrapping_mul(0xc4ce_b9fe_1a85_ec53);
    k ^ (k >> 33)
}

#[inline(always)]
#[tactic(auto, unfolding(sk_model::specs::Murmur::finished))]
fn finish(h: (u64, u64), len: u64) -> (u64, u64)
    ensures { result ≡ finished h len }
{
    let h1 = (h.0 ^ len).wrapping_add(h.1 ^ len);
    let h2 = (h.1 ^ len).wrapping_add(h1);
    let h1 = finish_word(h1);
    let h2 = finish_word(h2);
    let h1 = h1.wrapping_add(h2);
    (h1, h2.wrapping_add(h1))
}

/// The two halves of the MurmurHash3_x64_128 of `bytes` (reference: Appleby, SMHasher,
/// MurmurHash3.cpp).
#[inline(always)]
#[tactic(auto, unfolding(sk_model::specs::Murmur::murmur128_of, sk_model::specs::Murmur::after_blocks))]
pub fn murmur128(seed: u32, bytes: &[u8]) -> (u64, u64)
    ensures { result ≡ murmur128_of seed bytes.now }
{
    let blocks = bytes.len() / BLOCK_LEN;
    let factors = Factors::hidden_by(bytes);
    let mut h = (u64::from(seed), u64::from(seed));
    'mix: for i in 0..blocks {
        h = mix_block(
            h,
            read_word(bytes, BLOCK_LEN * i),
            read_word(bytes, BLOCK_LEN * i + 8),
            factors,
        );
    }
    let h = mix_tail(h, &bytes[BLOCK_LEN * blocks..], factors);
    finish(h, bytes.len() as u64)
}

/// An item's hash: the upper 63 bits of the first half, or 1 if they are 0.
#[inline(always)]
pub fn hash63(seed: u32, bytes: &[u8]) -> u64
    ensures value { result ≡ hash_of seed bytes.now }
    ensures item { IsItem result }
{
    hash63_at(seed, bytes, 0, bytes.len())
}

/// The hash of the bytes of a text from one place up to, not including, another: fewer than 16 of them are hashed
/// without a call if the text has as many after them.
#[inline(always)]
#[tactic(auto, unfolding(sk_model::specs::Murmur::hash_of))]
pub fn hash63_at(seed: u32, text: &[u8], from: usize, to: usize) -> u64
    requires order { from ≤ to }
    requires within { to ≤ length text.now }
    ensures value { result ≡ hash_of seed (slice_range text.now from to) }
    ensures item { IsItem result }
{
    let len = to - from;
    if len == BLOCK_LEN {
        return (hash_block(seed, text, from).0 >> 1).max(1);
    }
    if len < BLOCK_LEN && from + BLOCK_LEN <= text.len() {
        return (hash_short(seed, text, from, len).0 >> 1).max(1);
    }
    hash_other(seed, &text[from..to])
}

// The same at any other length. It is a call, so that the loop around one block keeps its registers.
#[inline(never)]
#[tactic(auto, unfolding(sk_model::specs::Murmur::hash_of))]
fn hash_other(seed: u32, bytes: &[u8]) -> u64
    ensures value { result ≡ hash_of seed bytes.now }
    ensures item { IsItem result }
{
    (murmur128(seed, bytes).0 >> 1).max(1)
}

/// The upper 48 bits of the first half: the hash by which images of version 1 were made.
#[tactic(auto, unfolding(sk_model::specs::Murmur::hash48_of))]
pub fn hash48(seed: u32, bytes: &[u8]) -> u64
    ensures value { result ≡ hash48_of seed bytes.now }
    ensures below { result < 2 ^ 48 }
{
    murmur128(seed, bytes).0 >> 16
}

// The two halves of the hash of one whole block of a text: without a loop and a tail it takes a tenth less.
#[inline(always)]
#[tactic(auto, using(crate::proofs::Words::hash_of_block_at))]
fn hash_block(seed: u32, text: &[u8], from: usize) -> (u64, u64)
    requires { from + 16 ≤ length text.now }
    ensures { result ≡ murmur128_of seed (slice_range text.now from (from + 16)) }
{
    let seeds = (u64::from(seed), u64::from(seed));
    let h = mix_block(
        seeds,
        read_word(text, from),
        read_word(text, from + 8),
        Factors::hidden_by(text),
    );
    finish(h, BLOCK_LEN as u64)
}

// The masks of a word's first bytes, from none to all eight: at place n + 8 those of its first n bytes, at place n
// those of the word after it.
const MASKS: [u64; 24] = [
    0,
    0,
    0,
    0,
    0,
    0,
    0,
    0,
    0,
    0xff,
    0xffff,
    0xff_ffff,
    0xffff_ffff,
    0xff_ffff_ffff,
    0xffff_ffff_ffff,
    0xff_ffff_ffff_ffff,
    u64::MAX,
    u64::MAX,
    u64::MAX,
    u64::MAX,
    u64::MAX,
    u64::MAX,
    u64::MAX,
    u64::MAX,
];

// The two halves of the hash of fewer bytes of a text than a block has, without a branch on how many they are: the
// bytes after them are read too, and cleared.
#[inline(always)]
fn hash_short(seed: u32, text: &[u8], from: usize, len: usize) -> (u64, u64)
    requires short { len < 16 }
    requires room { from + 16 ≤ length text.now }
    ensures { result ≡ murmur128_of seed (slice_range text.now from (from + len)) }
{
    let factors = Factors::hidden_by(text);
    let seed = u64::from(seed);
    let first = read_word(text, from) & MASKS[len + 8];
    let second = read_word(text, from + 8) & MASKS[len];
    let h = (
        seed ^ scramble_first(first, factors),
        seed ^ scramble_second(second, factors),
    );
    finish(h, len as u64)
}
