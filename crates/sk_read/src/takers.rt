// The two forms of the sketch as takers of items.
ghost use Rattle.std.specs.Prelude.{[], ◌∷◌};
ghost use Rattle.sk_theta.specs.Kept.{StandsFor};

use crate::items::Taker;
use sk_heap::HeapTheta;
use sk_theta::Theta;

impl Taker for Theta {
    ghost stands_for = { λ sketch hashes. StandsFor sketch hashes };

    ghost numbers = { λ sketch. sketch.k ∷ [] };

    #[inline(always)]
    fn take(&mut self, item: u64) {
        let _ = self.update(item);
    }
}

impl Taker for HeapTheta {
    ghost stands_for = { λ sketch hashes. StandsFor sketch hashes };

    ghost numbers = { λ sketch. sketch.k ∷ [] };

    #[inline(always)]
    fn take(&mut self, item: u64) {
        let _ = self.update(item);
    }
}
