//! The arrays as a sketch of their kind.
ghost use Rattle.std.specs.Prelude.{◌≡◌};
ghost use Rattle.sk_model.specs.Width.{item_end};

use crate::sorted_theta::SortedTheta;
use sk_compose::{Buffer, Composable, ThetaKind, ThetaWord};
use sk_model::OutOfMemory;
use sk_theta::ITEM_END;
use std::sync::Wait;

impl Composable for SortedTheta {
    ghost use Rattle.std.specs.Prelude.{⊤, [], ◌∷◌, false, nat_lt, ◌==◌};
    ghost use Rattle.sk_model.specs.Entries.{items_of_entries};
    ghost use Rattle.sk_model.specs.Sketch as k_min;
    ghost use Rattle.sk_model.specs.Width.{item_end};
    ghost use Rattle.sk_theta.specs.Kept.{StandsFor};
    ghost use Rattle.sk_compose.specs.Numbers.{k_of};
    ghost use Rattle.sk_compose.specs.Idle as Idle;

    type Told = ();

    const TAKES_MEMORY: bool = false;

    ghost TAKES_MEMORY = { false };

    ghost is_of = { λ sketch list. StandsFor sketch (items_of_entries list) };

    ghost numbers = { λ sketch. sketch.k ∷ [] };

    ghost name = { λ _. [] };

    ghost hint_of = { λ numbers list. k_min.theta_of (k_of numbers) (items_of_entries list) };

    ghost packed_of = { λ numbers list. k_min.packed_of (k_of numbers) (items_of_entries list) };

    ghost keeps_of = { λ hint item. nat_lt item hint };

    ghost early_of = { λ hint. hint == item_end };

    ghost tells = { ⊥ };

    ghost told_name = { λ _. [] };

    ghost told_of = { λ _ _. ⊤ };

    fn merge<R: Wait>(&mut self, _rt: &R, _from: u32, batch: &Buffer) -> Result<(), OutOfMemory> {
        SortedTheta::merge(self, batch.items());
        Ok(())
    }

    fn hint(&self) -> u64 {
        self.theta()
    }

    fn keeps(hint: u64, item: u64) -> bool {
        item < hint
    }

    fn early(hint: u64) -> bool {
        hint == ITEM_END
    }

    fn packed(&self) -> u64 {
        SortedTheta::packed(self)
    }

    fn told(&mut self) {}

    ghost idle_replies = { Idle.replies };
}

impl ThetaWord for SortedTheta {
    ghost use Rattle.std.specs.Prelude.{refl};

    fn k(&self) -> u32 {
        SortedTheta::k(self)
    }

    ghost hint_is = { λ _ _. refl };

    ghost packed_is = { λ _ _. refl };

    ghost keeps_is = { λ _ _. refl };

    ghost early_is = { λ _. refl };
}

impl ThetaKind for SortedTheta {
    ghost use Rattle.std.specs.Prelude.{refl};

    ghost takes_none = { refl };
}
