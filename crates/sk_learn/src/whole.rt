//! A query of a list of a known length.
use sk_snap::{Query, Sequential};

/// A query that is asked if the list has exactly this many items, and else comes back.
#[derive(Drop)]
pub struct Whole<Q: Drop> {
    pub total: u64,
    pub query: Q,
}

impl<S: Sequential, Q: Query<S>> Query<S> for Whole<Q> {
    ghost use Rattle.std.specs.Prelude.{◌≡◌, length, MatchResult};

    type Answer = Result<Q::Answer, Q>;

    ghost fits = { λ whole numbers. Q.fits whole.query numbers };

    ghost gives = { λ whole numbers items result. MatchResult result
        (λ answer. (length items ≡ whole.total) × Q.gives whole.query numbers items answer)
        (λ back. back ≡ whole.query) };

    fn ask(self, sketch: &S, count: u64) -> Result<Q::Answer, Q> {
        let Whole { total, query } = self;
        if count == total {
            Ok(query.ask(sketch, count))
        } else {
            Err(query)
        }
    }
}
