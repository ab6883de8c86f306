// What the version of an image decides. No other code has these numbers.
ghost use Rattle.std.specs.Prelude.{◌≡◌, ◌≤◌};
ghost use Rattle.sk_image.specs.Versions as versions;

use sk_model::limits::{ITEM_DIGITS, ITEM_END, MOST_K};

/// The version of the images that are made.
pub const NEWEST_VERSION: u32 = 2;

/// Hashes are below it; as theta it stands for 1.
#[tactic(auto, unfolding(crate::specs::Versions::end_of))]
pub fn end_of(version: u32) -> u64
    ensures { result ≡ versions.end_of version }
{
    if version == 1 { 1 << 48 } else { ITEM_END }
}

/// The least hash.
#[tactic(auto, unfolding(crate::specs::Versions::least_hash_of))]
pub fn least_hash_of(version: u32) -> u64
    ensures { result ≡ versions.least_hash_of version }
{
    if version == 1 { 0 } else { 1 }
}

/// How many digits base 16 the line of a hash has.
#[tactic(auto, unfolding(crate::specs::Versions::digits_of))]
pub fn digits_of(version: u32) -> usize
    ensures value { result ≡ versions.digits_of version }
    ensures most { result ≤ 16 }
{
    if version == 1 { 12 } else { ITEM_DIGITS }
}

/// The greatest k.
#[tactic(auto, unfolding(crate::specs::Versions::most_k_of))]
pub fn most_k_of(version: u32) -> u32
    ensures { result ≡ versions.most_k_of version }
{
    if version == 1 { 32_768 } else { MOST_K }
}
