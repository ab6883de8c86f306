//! Numbers as decimal digits.

ghost use Rattle.std.specs.Prelude.{◌≡◌, ◌<◌, ℕ, List, IfSome, Some, None, codes};
ghost use Rattle.sk_model.specs.Numbers.{number_of};

/// A number that is read below an end is below it.
pub fn numbers_are_below()
    ensures { (end : ℕ) (bytes : List ℕ) → IfSome (number_of end bytes) (λ n. n < end) }
{}

/// Numbers worked by hand, at the ends of the items, of the numbers read as items, and of k.
pub fn numbers_worked()
    ensures greatest { number_of 9223372036854775808 (codes "9223372036854775807") ≡ Some 9223372036854775807 }
    ensures end { number_of 9223372036854775808 (codes "9223372036854775808") ≡ None }
    ensures greatest_raw { number_of 9223372036854775807 (codes "9223372036854775806") ≡ Some 9223372036854775806 }
    ensures end_raw { number_of 9223372036854775807 (codes "9223372036854775807") ≡ None }
    ensures zeros_raw { number_of 9223372036854775807 (codes "0000000000000000000") ≡ Some 0 }
    ensures too_many_raw { number_of 9223372036854775807 (codes "00000000000000000000") ≡ None }
    ensures zeros { number_of 1048577 (codes "0000004") ≡ Some 4 }
    ensures too_many { number_of 1048577 (codes "00000004") ≡ None }
    ensures empty { number_of 10 (codes "") ≡ None }
    ensures sign { number_of 10 (codes "+5") ≡ None }
{}
