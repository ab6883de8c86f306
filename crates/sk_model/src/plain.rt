//! The sketch in its plainest form, slow and short, to compare other forms with.
ghost use Rattle.std.specs.Prelude.{◌≡◌, ◌<◌, ◌≤◌, ℕ, OnOk, IfOk, length, take, slice_index, All};
ghost use Rattle.sk_model.specs.Sketch.{placed, k_smallest, estimate_of};

use crate::limits::ITEM_END;
use std::alloc::{AllocError, Global};

// How many of those that rise stand before a hash.
fn place_of(kept: &[u64], hash: u64) -> usize
    ensures within { result ≤ length kept.now }
    ensures below { All (λ y. y < hash) (take result kept.now) }
    ensures above { result < length kept.now → hash ≤ slice_index kept.now result }
{
    'find: for at in 0..kept.len() {
        if kept[at] >= hash {
            return at;
        }
    }
    kept.len()
}

// Puts a hash in its place among those that rise, unless it is there.
fn place(kept: &mut Vec<u64>, hash: u64) -> Result<(), AllocError>
    ensures { OnOk result (kept.new.items ≡ placed hash kept.old.items) }
{
    let at = place_of(kept.as_slice(), hash);
    if at < kept.len() && kept[at] == hash {
        return Ok(());
    }
    kept.insert(at, hash)?;
    Ok(())
}

/// The k smallest of the distinct hashes, rising.
pub fn k_smallest(alloc: Global, k: usize, hashes: &[u64]) -> Result<Vec<u64>, AllocError>
    ensures { IfOk result (λ v. v.items ≡ k_smallest k hashes.now) }
{
    let mut kept = Vec::new(alloc);
    'place: for hash in hashes {
        place(&mut kept, *hash)?;
    }
    kept.truncate(k);
    Ok(kept)
}

/// The estimate of how many distinct hashes there are, as a numerator and a denominator.
pub fn estimate(alloc: Global, k: usize, hashes: &[u64]) -> Result<(u128, u64), AllocError>
    ensures { IfOk result (λ v. v ≡ estimate_of k hashes.now) }
{
    let kept = k_smallest(alloc, k, hashes)?;
    if kept.len() < k {
        return Ok((kept.len() as u128, 1));
    }
    let most = k.saturating_sub(1);
    let theta = kept.get(most).copied().unwrap_or(0);
    Ok((most as u128 * u128::from(ITEM_END), theta))
}
