//! The sketch of a tenant, in the form that is faster for its k.
ghost use Rattle.std.specs.Prelude.{◌≡◌, ◌≤◌, [], ◌∷◌, IfOk};
ghost use Rattle.sk_model.specs.Width.{item_end};
ghost use Rattle.sk_model.specs.Limits.{least_k, most_k};
ghost use Rattle.sk_theta.specs.Kept.{StandsFor};
ghost use Rattle.sk_tenant.specs.Sketches.{sketch_of};

use sk_compose::{Buffer, Composable, ThetaKind, ThetaWord};
use sk_heap::HeapTheta;
use sk_model::OutOfMemory;
use sk_sorted::SortedTheta;
use sk_theta::ITEM_END;
use std::alloc::Global;
use std::sync::Wait;

// Up to this k a batch of 512 is merged into a sorted array faster than it is put into a heap: that array is walked over
// at each batch.
const MOST_SORTED: u32 = 32_768;

/// A sketch of the k smallest hashes.
#[derive(Drop)]
pub enum TenantTheta {
    Sorted(SortedTheta),
    Heap(HeapTheta),
}

impl TenantTheta {
    /// The sketch of the empty list. All its memory is taken here.
    pub(crate) fn new(alloc: Global, k: u32) -> Result<TenantTheta, OutOfMemory>
        requires least { least_k ≤ k }
        requires most { k ≤ most_k }
        ensures numbers { IfOk result (λ s. (sketch_of s).k ≡ k) }
        ensures stands { IfOk result (λ s. StandsFor (sketch_of s) []) }
    {
        if k <= MOST_SORTED {
            Ok(TenantTheta::Sorted(SortedTheta::new(alloc, k)?))
        } else {
            Ok(TenantTheta::Heap(HeapTheta::new(alloc, k)?))
        }
    }
}

impl Composable for TenantTheta {
    ghost use Rattle.std.specs.Prelude.{⊤, [], ◌∷◌, false, nat_lt, ◌==◌};
    ghost use Rattle.sk_model.specs.Entries.{items_of_entries};
    ghost use Rattle.sk_model.specs.Sketch as k_min;
    ghost use Rattle.sk_model.specs.Width.{item_end};
    ghost use Rattle.sk_theta.specs.Kept.{StandsFor};
    ghost use Rattle.sk_compose.specs.Numbers.{k_of};
    ghost use Rattle.sk_compose.specs.Idle as Idle;
    ghost use Rattle.sk_tenant.specs.Sketches.{sketch_of};

    type Told = ();

    const TAKES_MEMORY: bool = false;

    ghost TAKES_MEMORY = { false };

    ghost is_of = { λ sketch list. StandsFor (sketch_of sketch) (items_of_entries list) };

    ghost numbers = { λ sketch. (sketch_of sketch).k ∷ [] };

    ghost name = { λ _. [] };

    ghost hint_of = { λ numbers list. k_min.theta_of (k_of numbers) (items_of_entries list) };

    ghost packed_of = { λ numbers list. k_min.packed_of (k_of numbers) (items_of_entries list) };

    ghost keeps_of = { λ hint item. nat_lt item hint };

    ghost early_of = { λ hint. hint == item_end };

    ghost tells = { ⊥ };

    ghost told_name = { λ _. [] };

    ghost told_of = { λ _ _. ⊤ };

    fn merge<R: Wait>(&mut self, _rt: &R, _from: u32, batch: &Buffer) -> Result<(), OutOfMemory> {
        match self {
            TenantTheta::Sorted(sketch) => sketch.merge(batch.items()),
            TenantTheta::Heap(sketch) => HeapTheta::merge(sketch, batch.items()),
        }
        Ok(())
    }

    fn hint(&self) -> u64 {
        match self {
            TenantTheta::Sorted(sketch) => sketch.theta(),
            TenantTheta::Heap(sketch) => sketch.theta(),
        }
    }

    fn keeps(hint: u64, item: u64) -> bool {
        item < hint
    }

    fn early(hint: u64) -> bool {
        hint == ITEM_END
    }

    fn packed(&self) -> u64 {
        match self {
            TenantTheta::Sorted(sketch) => SortedTheta::packed(sketch),
            TenantTheta::Heap(sketch) => HeapTheta::packed(sketch),
        }
    }

    fn told(&mut self) {}

    ghost idle_replies = { Idle.replies };
}

impl ThetaWord for TenantTheta {
    ghost use Rattle.std.specs.Prelude.{refl};

    fn k(&self) -> u32 {
        match self {
            TenantTheta::Sorted(sketch) => SortedTheta::k(sketch),
            TenantTheta::Heap(sketch) => HeapTheta::k(sketch),
        }
    }

    ghost hint_is = { λ _ _. refl };

    ghost packed_is = { λ _ _. refl };

    ghost keeps_is = { λ _ _. refl };

    ghost early_is = { λ _. refl };
}

impl ThetaKind for TenantTheta {
    ghost use Rattle.std.specs.Prelude.{refl};

    ghost takes_none = { refl };
}
