//! Texts of images that a reader can check by hand.

ghost use Rattle.std.specs.Prelude.{◌≡◌, [], ◌∷◌, codes};
ghost use Rattle.sk_image.specs.Images.{text_of};

/// Texts of images with two hashes and with none, at small and at the greatest numbers of each version.
pub fn worked_texts()
    ensures two { text_of 2 2 0 (4 ∷ 6 ∷ []) ≡ codes "theta2 k=2 seed=0\n0000000000000004\n0000000000000006\nend 2\n" }
    ensures none { text_of 2 1048576 4294967295 [] ≡ codes "theta2 k=1048576 seed=4294967295\nend 0\n" }
    ensures greatest { text_of 2 2 7 (1 ∷ 9223372036854775807 ∷ [])
        ≡ codes "theta2 k=2 seed=7\n0000000000000001\n7fffffffffffffff\nend 2\n" }
    ensures two_of_1 { text_of 1 2 7 (187723572702975 ∷ 281474976710655 ∷ [])
        ≡ codes "theta1 k=2 seed=7\naabbccddeeff\nffffffffffff\nend 2\n" }
    ensures greatest_of_1 { text_of 1 32768 4294967295 (0 ∷ 281474976710655 ∷ [])
        ≡ codes "theta1 k=32768 seed=4294967295\n000000000000\nffffffffffff\nend 2\n" }
{}
