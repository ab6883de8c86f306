//! The history of a sketch, which exists in proofs alone, and the beginnings of it that were seen.
ghost use Rattle.std.specs.Prelude.{◌≡◌, ◌<◌, ◌^◌, ◌++◌, ◌∷◌, ◌⊎◌, [], length, IsTrue, IsFalse, IfSome, ◌-◌};
ghost use Rattle.sk_model.specs.Entries.{tagged};
ghost use Rattle.sk_model.specs.Missing.{Begins};
ghost use Rattle.sk_snap.specs.History.{entries_in, length_word, name_of};

use logbook::{Gain, Offer, Plain, Play, Rule, Seen, Start, Word};
use std::marker::Model;

/// A batch of entries. No value of it is made: a clause reads an array as a list of any length.
pub type Entries = [(u32, u64); 0];

/// The rule of a history.
pub struct Counted;

impl Rule<Entries, u64> for Counted {
    ghost use Rattle.std.specs.Prelude.{[]};
    ghost use base.Fml.{ftrue};
    ghost use Rattle.sk_snap.specs.History.{IsCounted};

    ghost holds = { λ cells batches. IsCounted cells batches };

    ghost first = { [] };

    ghost hinted = { λ _ _. Unit {0} };

    ghost shows = { λ _. [] };

    ghost keeps = { λ _ _. ftrue };

    ghost moves = { λ _ _ _ _. Unit {0} };
}

/// Nobody trades anything.
pub struct Nothing;

impl Gain<Entries, u64> for Nothing {
    ghost use base.Fml.{ftrue};

    ghost after = { λ _ _ _. ftrue };
}

/// The step that adds a batch.
pub struct Add;

impl Play<Entries, u64> for Add {
    ghost use Rattle.sk_snap.specs.History.{Adds};

    ghost then = { Adds };
}

/// Whose batch is added, and its items.
#[derive(Drop)]
pub struct Asked<'a> {
    pub from: u32,
    pub items: &'a [u64],
}

impl<'a> Plain<Asked<'a>, Entries, u64> for Add {
    ghost use Rattle.std.specs.Prelude.{None};
    ghost use Rattle.sk_model.specs.Entries.{tagged};

    ghost ask = { λ asked. tagged asked.from asked.items.now };

    ghost state = { λ _. None };
}

/// A beginning of a history that was seen. Contracts see it as its batches.
#[derive(Drop)]
pub struct Known {
    turns: u64,
    count: u64,
    seen: Seen<Entries, u64, Counted>,
}

impl Model for Known {
    ghost use Rattle.std.specs.Prelude.{◌≡◌, length};
    ghost use Rattle.sk_snap.specs.History.{Beginning, joined};

    ghost Value = { Beginning };

    ghost view = { λ known. record { book = known.seen.book; batches = known.seen.log } };

    ghost invariant = { λ known. (known.turns ≡ length known.seen.log)
        × (known.count ≡ length (joined known.seen.log)) };
}

/// The word that has the length of the history, and is the writer's alone.
#[derive(Drop)]
pub struct History {
    pub(crate) word: Word<Entries, u64, Counted>,
}

impl Known {
    /// How many batches it has.
    pub fn turns(&self) -> u64
        ensures { result ≡ length self.now.batches }
    {
        self.turns
    }

    /// How many entries its list has.
    pub fn count(&self) -> u64
        ensures { result ≡ length (entries_in self.now) }
    {
        self.count
    }

    /// A copy.
    pub fn again(&self) -> Known
        ensures { result ≡ self.now }
    {
        Known {
            turns: self.turns,
            count: self.count,
            seen: self.seen.again(),
        }
    }

    /// Knows the longer of two from then on, where both are of one history. The shorter begins it.
    pub fn learn(&mut self, other: &Known)
        requires history { other.now.book ≡ self.old.book }
        ensures one { (self.new ≡ self.old) ⊎ (self.new ≡ other.now) }
        ensures mine { Begins self.old.batches self.new.batches }
        ensures theirs { Begins other.now.batches self.new.batches }
    {
        let mut both = self.seen.again();
        both.learn(&other.seen);
        if self.turns < other.turns {
            *self = other.again();
        }
    }

    /// Takes the other in its place where it begins that, and returns whether it does. Both are of
    /// one history.
    pub fn advance(&mut self, to: &Known) -> bool
        requires history { to.now.book ≡ self.old.book }
        ensures taken { IsTrue result → self.new ≡ to.now }
        ensures begins { IsTrue result → Begins self.old.batches to.now.batches }
        ensures refused { IsFalse result → self.new ≡ self.old }
    {
        let mut both = self.seen.again();
        both.learn(&to.seen);
        if to.turns < self.turns {
            return false;
        }
        *self = to.again();
        true
    }
}

impl History {
    /// A history of no batch, and what is known of it.
    pub fn new() -> (History, Known)
        ensures word { result.0.word ≡ length_word result.1.book }
        ensures empty { result.1.batches ≡ [] }
    {
        let (seen, mut first, _second) = Seen::open(Start::alone(), 0, 0);
        let history = History {
            word: Word::tracked(0, &mut first),
        };
        (
            history,
            Known {
                turns: 0,
                count: 0,
                seen,
            },
        )
    }

    /// Adds a batch to all that is known, and returns that. It returns nothing if somebody else has added
    /// one, or if a count is at its end.
    pub fn add(&self, known: &Known, from: u32, items: &[u64]) -> Option<Known>
        requires word { self.now.word ≡ length_word known.now.book }
        ensures book { IfSome result (λ more. more.book ≡ known.now.book) }
        ensures batches { IfSome result (λ more.
            more.batches ≡ known.now.batches ++ tagged from items.now ∷ []) }
    {
        let turns = known.turns.checked_add(1)?;
        let count = known.count.checked_add(items.len() as u64)?;
        let mut seen = known.seen.again();
        if !self.adds(&mut seen, known.turns, &Asked { from, items }) {
            return None;
        }
        Some(Known { turns, count, seen })
    }

    // The step.
    fn adds(&self, seen: &mut Seen<Entries, u64, Counted>, turns: u64, asked: &Asked) -> bool
        requires word { self.now.word ≡ length_word seen.old.book }
        requires turns { turns ≡ length seen.old.log }
        requires room { turns < 2 ^ 64 - 1 }
        ensures book { seen.new.book ≡ seen.old.book }
        ensures added { IsTrue result → seen.new.log
            ≡ seen.old.log ++ tagged asked.now.from asked.now.items.now ∷ [] }
    {
        let mut offer: Offer<Entries, u64, Counted, Nothing> = seen.plain::<Nothing, Asked, Add>(
            asked,
        );
        let mut pen = seen.no_pen();
        let found = self
            .word
            .compare_exchange::<Add, Nothing>(turns, turns + 1, seen, &mut offer, &mut pen);
        found == turns
    }
}
