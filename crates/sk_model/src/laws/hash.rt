//! Laws of hashes.

ghost use Rattle.std.specs.Prelude.{ℕ, List};
ghost use Rattle.sk_model.specs.Murmur.{hash_of};
ghost use Rattle.sk_model.specs.Width.{IsItem};

/// The hash of a text is an item.
pub fn hashes_are_items()
    ensures { (seed : ℕ) (bytes : List ℕ) → IsItem (hash_of seed bytes) }
{}
