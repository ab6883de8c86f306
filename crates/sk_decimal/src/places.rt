ghost use Rattle.std.specs.Prelude.{◌≡◌, ◌<◌, ◌≤◌, MatchOption};
ghost use Rattle.sk_decimal.specs.Decimal.{most_digits};

/// The most digits after the point.
pub const MOST_DIGITS: u32 = 6;

/// How many digits stand after the point, at most `MOST_DIGITS`.
#[derive(Drop)]
pub struct Digits {
    pub(crate) count: u32,
    ghost few: { count ≤ most_digits },
}

impl Digits {
    /// This many, unless they are too many.
    pub fn new(count: u32) -> Option<Digits>
        ensures { MatchOption result (most_digits < count) (λ digits. digits.count ≡ count) }
    {
        if count <= MOST_DIGITS {
            Some(Digits { count })
        } else {
            None
        }
    }
}
