//! Worked values of the definitions, computed by proof.

ghost use Rattle.std.specs.Prelude.{◌≡◌, [], codes};
ghost use Rattle.sk_model.specs.Murmur.{hash_of, hash48_of};

/// The hashes of four texts under seed 0.
pub fn hashes_of_texts()
    ensures empty { hash_of 0 [] ≡ 1 }
    ensures word { hash_of 0 (codes "hello") ≡ 7344337286506401153 }
    ensures words { hash_of 0 (codes "hello, world") ≡ 1880206875881856583 }
    ensures sentence { hash_of 0 (codes "The quick brown fox jumps over the lazy dog.") ≡ 7407475874929607012 }
{}

/// The upper 48 bits of two of them.
pub fn hashes48_of_texts()
    ensures empty { hash48_of 0 [] ≡ 0 }
    ensures word { hash48_of 0 (codes "hello") ≡ 224131386917309 }
{}
