//! Laws of rounding. Each function is empty: its contract is the law.

ghost use Rattle.std.specs.Prelude.{◌≡◌, ◌+◌, ◌*◌, ◌^◌, ◌<◌, ◌≤◌, ◌++◌, ℕ, List, codes, length};
ghost use Rattle.sk_lines.specs.Cutter.{HasNoLf, IsOfWholeLines};
ghost use Rattle.sk_lines.specs.Fractions.{estimate_line};
ghost use Rattle.sk_decimal.specs.Decimal.{nearest, decimal_of};
ghost use Rattle.sk_decimal.specs.Rounded.{longest_line, rounded, rounded_line};

/// The nearest whole number is the one of which n/d times the scale is less than a half below and at most a half
/// above: a half is rounded up.
pub fn halves_are_rounded_up()
    ensures below { (scale n d : ℕ) → 0 < d → 2 * n * scale < (2 * nearest scale n d + 1) * d }
    ensures above { (scale n d : ℕ) → 0 < d → 2 * nearest scale n d * d ≤ 2 * n * scale + d }
    ensures only { (scale n d q : ℕ) → 0 < d → 2 * n * scale < (2 * q + 1) * d → 2 * q * d ≤ 2 * n * scale + d
        → q ≡ nearest scale n d }
{}

/// A text is rounded line by line: what ends in LF is rounded for itself, and a last piece without LF stays.
pub fn lines_are_rounded()
    ensures apart { (digits : ℕ) (a b : List ℕ) → IsOfWholeLines a → rounded digits (a ++ b) ≡ rounded digits a ++ rounded digits b }
    ensures line { (digits : ℕ) (line : List ℕ) → HasNoLf line → rounded digits (line ++ codes "\n") ≡ rounded_line digits line ++ codes "\n" }
    ensures piece { (digits : ℕ) (piece : List ℕ) → HasNoLf piece → rounded digits piece ≡ piece }
{}

/// The line of an estimate, whatever stands before it, becomes that of its decimal number.
pub fn estimates_are_rounded()
    ensures { (digits n d : ℕ) (front : List ℕ) → n < 10 ^ 30 → 0 < d → d < 10 ^ 20 → HasNoLf front
        → length front + 100 ≤ longest_line
        → rounded digits (front ++ estimate_line (n, d)) ≡ front ++ (codes "estimate " ++ decimal_of digits n d ++ codes "\n") }
{}
