//! The sketch of the k smallest by versions.
ghost use Rattle.std.specs.Prelude.{◌≡◌, ◌∷◌, []};
ghost use Rattle.sk_theta.specs.Kept.{StandsFor};

use crate::query::Query;
use crate::reader::VersionReader;
use crate::sequential::Sequential;
use crate::versioned::Versioned;
use sk_heap::HeapTheta;
use sk_model::OutOfMemory;
use sk_model::limits::ITEM_END;
use std::alloc::Global;

/// The sketch of the k smallest that readers see by versions.
pub type VersionedTheta<R> = Versioned<HeapTheta, R>;

/// The reader of its versions.
pub type ThetaReader = VersionReader<HeapTheta>;

/// The query that joins a version into a sketch of the same k. It hands that back, with the number of items.
#[derive(Drop)]
pub struct JoinInto {
    pub sketch: HeapTheta,
}

impl Sequential for HeapTheta {
    ghost use Rattle.std.specs.Prelude.{◌≤◌, ◌==◌, nat_lt, refl, ⊤};
    ghost use Rattle.sk_compose.specs.Numbers.{k_of};
    ghost use Rattle.sk_model.specs.Limits.{least_k, most_k};
    ghost use Rattle.sk_model.specs.Sketch as k_min;
    ghost use Rattle.sk_model.specs.Width.{item_end};
    ghost use Rattle.sk_snap.specs.Thetas as Thetas;

    // k.
    type Setup = u32;

    ghost fits = { λ k. (least_k ≤ k) × (k ≤ most_k) };

    ghost opened = { Thetas.new_theta };

    ghost numbers = { λ s. s.k ∷ [] };

    ghost is_of = { λ s items. StandsFor s items };

    ghost after = { Thetas.taken };

    ghost hint_of = { λ numbers items. k_min.theta_of (k_of numbers) items };

    ghost packed_of = { λ numbers items. k_min.packed_of (k_of numbers) items };

    ghost keeps_of = { λ hint item. nat_lt item hint };

    ghost early_of = { λ hint. hint == item_end };

    type Prepared = ();

    ghost is_prepared = { λ _ _. ⊤ };

    fn open(alloc: Global, setup: u32) -> Result<HeapTheta, OutOfMemory> {
        HeapTheta::new(alloc, setup)
    }

    fn prepare(&self, _alloc: Global, _items: &[u64]) -> Result<(), OutOfMemory> {
        Ok(())
    }

    fn take(&mut self, items: &[u64], _prepared: &()) {
        // It shows to the proof that the sketch is whole.
        let _k = self.k();
        self.merge(items);
    }

    fn hint(&self) -> u64 {
        self.theta()
    }

    fn packed(&self, _count: u64) -> u64 {
        HeapTheta::packed(self)
    }

    fn keeps(hint: u64, item: u64) -> bool {
        item < hint
    }

    fn early(hint: u64) -> bool {
        hint == ITEM_END
    }

    ghost begins = { λ k _. Thetas.new_stands k };

    ghost same_numbers = { λ _ _. refl };

    ghost goes_on = { λ s list items _ _ is. Thetas.taken_stands s list items is };

    ghost idle_replies = { Thetas.idle_theta };
}

impl Query<HeapTheta> for JoinInto {
    ghost use Rattle.sk_snap.specs.Thetas.{IsJoined};

    type Answer = (HeapTheta, u64);

    ghost fits = { λ q numbers. numbers ≡ q.sketch.k ∷ [] };

    ghost gives = { λ q _ items result. IsJoined q.sketch items result.0 result.1 };

    fn ask(self, sketch: &HeapTheta, count: u64) -> (HeapTheta, u64) {
        let JoinInto { sketch: mut joined } = self;
        joined.join(sketch);
        (joined, count)
    }
}
