// Two images as one.
ghost use Rattle.std.specs.Prelude.{◌≡◌, ◌≢◌, ◌↔◌, ◌⊎◌, ◌++◌, ◌+◌, ◌≤◌, ℕ, Option, IfOk, IsErrOf};
ghost use Rattle.std.specs.List.Sorted.{IsStrictlyIncreasing};
ghost use Rattle.sk_model.specs.Sketch.{k_smallest};
ghost use Rattle.sk_image.specs.Union.{lesser, without_first};

use crate::image::Image;
use sk_model::OutOfMemory;
use std::alloc::Global;

/// Why two images are not joined.
#[derive(Clone, Copy, Debug, PartialEq, Eq)]
pub enum JoinStop {
    /// Their k or their seeds differ.
    Mixed,
    /// No memory was left.
    OutOfMemory,
}

impl From<OutOfMemory> for JoinStop {
    ghost use Rattle.sk_image.specs.declared.merge.JoinStop.TheVariants as stop;

    ghost from_gives = { λ _ e. e ≡ stop.OutOfMemory };

    fn from(_: OutOfMemory) -> Self {
        JoinStop::OutOfMemory
    }
}

/// The image of both lists of hashes. Its room is taken first, and each list is read once.
pub fn join(alloc: Global, a: &Image, b: &Image) -> Result<Image, JoinStop>
    ensures version { IfOk result (λ image. image.version ≡ a.now.version) }
    ensures k { IfOk result (λ image. image.k ≡ a.now.k) }
    ensures seed { IfOk result (λ image. image.seed ≡ a.now.seed) }
    ensures hashes { IfOk result (λ image.
        image.hashes.items ≡ k_smallest a.now.k (a.now.hashes.items ++ b.now.hashes.items)) }
    ensures mixed { IsErrOf result JoinStop.Mixed
        ↔ ((a.now.version ≢ b.now.version) ⊎ (a.now.k ≢ b.now.k) ⊎ (a.now.seed ≢ b.now.seed)) }
{
    if a.version != b.version || a.k != b.k || a.seed != b.seed {
        return Err(JoinStop::Mixed);
    }
    let hashes = least_of_both(alloc, a.k as usize, &a.hashes, &b.hashes)?;
    Ok(Image {
        version: a.version,
        k: a.k,
        seed: a.seed,
        hashes,
    })
}

// The k smallest members of two rising lists.
fn least_of_both(alloc: Global, k: usize, a: &[u64], b: &[u64]) -> Result<Vec<u64>, OutOfMemory>
    requires a_rises { IsStrictlyIncreasing a.now }
    requires b_rises { IsStrictlyIncreasing b.now }
    ensures { IfOk result (λ least. least.items ≡ k_smallest k (a.now ++ b.now)) }
{
    let mut least = Vec::with_capacity(alloc, k.min(a.len() + b.len()))?;
    let (mut a, mut b) = (a, b);
    'walk: while least.len() < k {
        let Some(next) = lesser(a.first().copied(), b.first().copied()) else {
            break;
        };
        least.push_reserved(next);
        a = without_first(a, next);
        b = without_first(b, next);
    }
    Ok(least)
}

fn lesser(a: Option<u64>, b: Option<u64>) -> Option<u64>
    ensures { result ≡ lesser a b }
{
    match (a, b) {
        (Some(a), Some(b)) => Some(a.min(b)),
        (a, None) => a,
        (None, b) => b,
    }
}

// A list without its first member, if that is this one.
fn without_first(list: &[u64], first: u64) -> &[u64]
    ensures { result.now ≡ without_first first list.now }
{
    match list.first() {
        Some(head) if *head == first => &list[1..],
        _ => list,
    }
}
