//! The reader of versions.
ghost use Rattle.std.specs.Prelude.{◌≡◌, ◌++◌, ℕ, List, drop, MatchResult};
ghost use Rattle.left_right.specs.Sides.{view};
ghost use Rattle.sk_model.specs.Missing.{Begins};
ghost use Rattle.sk_snap.specs.History.{name_of, entries_in};
ghost use Rattle.sk_snap.specs.Versions.{EntersOf, IsPut, items_in};

use crate::history::Known;
use crate::query::Query;
use crate::rule::{About, Enters, Versions};
use crate::sequential::Sequential;
use crate::version::Version;
use crossbeam_utils::Backoff;
use left_right::reader::Reader;
use std::marker::Model;
use std::sync::Wait;

/// Asks the versions that are published, each of a list that begins with all that it has learnt and
/// read. Once its sketch is gone, a read waits for ever.
pub struct VersionReader<S: Sequential> {
    // It is there except within an entry.
    reader: Option<Reader<Version<S>, About, Versions>>,
    known: Known,
}

impl<S: Sequential> Model for VersionReader<S> {
    ghost use Rattle.std.specs.Prelude.{◌≡◌, ◌++◌, drop, [], Some};
    ghost use Rattle.std.specs.Option.{option_map_or};
    ghost use Rattle.left_right.specs.Sides as Sides;
    ghost use Rattle.sk_snap.specs.History.{name_of};
    ghost use Rattle.sk_snap.specs.Versions.{Learnt};

    ghost Value = { Learnt };

    ghost view = { λ r. record {
      numbers = option_map_or (λ x. drop 3 (Sides.view x.place)) r.reader [];
      known = r.known;
    } };

    ghost invariant = { λ r. (x : _) × (r.reader ≡ Some x)
        × (Sides.view x.place ≡ name_of r.known.book ++ drop 3 (Sides.view x.place)) };
}

// By hand, so that a proof about who drops one need not look inside.
impl<S: Sequential> Drop for VersionReader<S> {
    fn drop(self) {
        let Self {
            reader: _reader,
            known: _known,
        } = self;
    }
}

impl<S: Sequential> VersionReader<S> {
    // A reader that knows what the versions are of, and has learnt this much.
    pub(crate) fn over(
        reader: Reader<Version<S>, About, Versions>,
        known: Known,
    ) -> VersionReader<S>
        requires about { (numbers : List ℕ) × (view reader.place ≡ name_of known.book ++ numbers) }
        ensures about { view reader.place ≡ name_of known.book ++ result.numbers }
        ensures known { result.known ≡ known }
    {
        VersionReader {
            reader: Some(reader),
            known,
        }
    }

    /// Each later read is over a list that begins with that of the told value too.
    pub fn learn(&mut self, told: Known)
        requires sketch { name_of told.book ≡ name_of self.old.known.book }
        ensures mine { Begins (entries_in self.old.known) (entries_in self.new.known) }
        ensures theirs { Begins (entries_in told) (entries_in self.new.known) }
        ensures numbers { self.new.numbers ≡ self.old.numbers }
        ensures name { self.new.known.book ≡ self.old.known.book }
    {
        self.known.learn(&told);
    }

    /// Asks a version of a list that begins with all that was learnt and read, and is known from then on.
    pub fn read<Q: Query<S>, R: Wait>(&mut self, rt: &R, query: Q) -> Q::Answer
        requires fits { Q.fits query self.old.numbers }
        ensures gives { Q.gives query self.old.numbers (items_in self.new.known) result }
        ensures begins { Begins (entries_in self.old.known) (entries_in self.new.known) }
        ensures numbers { self.new.numbers ≡ self.old.numbers }
        ensures name { self.new.known.book ≡ self.old.known.book }
    {
        let mut query = query;
        let backoff = Backoff::new();
        'again: for _ in rt.forever() {
            match self.look(query) {
                Ok(answer) => return answer,
                Err(back) => query = back,
            }
            backoff.snooze();
        }
        unreachable!()
    }

    // One entry. The query comes back if the version is older than what is known, or if there is none.
    fn look<Q: Query<S>>(&mut self, query: Q) -> Result<Q::Answer, Q>
        requires fits { Q.fits query self.old.numbers }
        ensures seen { MatchResult result
            (λ answer. Q.gives query self.old.numbers (items_in self.new.known) answer)
            (λ back. back ≡ query) }
        ensures begins { Begins self.old.known.batches self.new.known.batches }
        ensures numbers { self.new.numbers ≡ self.old.numbers }
        ensures name { self.new.known.book ≡ self.old.known.book }
    {
        let known = self.known.again();
        let reader = self.reader.take().unwrap();
        let (reader, (known, seen)) = entered(reader, query, known);
        self.reader = Some(reader);
        self.known = known;
        seen
    }
}

// Enters, and asks the version if it begins with what is known.
fn entered<S: Sequential, Q: Query<S>>(
    reader: Reader<Version<S>, About, Versions>,
    query: Q,
    known: Known,
) -> (
    Reader<Version<S>, About, Versions>,
    (Known, Result<Q::Answer, Q>),
)
    requires put { IsPut Q.fits query known (view reader.place) }
    ensures entry { EntersOf Q.gives query known (view reader.place) (view result.0.place)
        result.1.0 result.1.1 }
{
    match reader.enter_as::<Enters>() {
        Ok(reading) => {
            let asked = asked(reading.get(), query, known);
            (reading.leave(), asked)
        }
        Err(reader) => (reader, (known, Err(query))),
    }
}

// Asks a version, if it begins with what is known; then what it knows is known.
fn asked<S: Sequential, Q: Query<S>>(
    version: &Version<S>,
    query: Q,
    known: Known,
) -> (Known, Result<Q::Answer, Q>)
    requires whole { S.is_of version.now.sketch (items_in version.now.known) }
    requires book { version.now.known.book ≡ known.book }
    requires fits { Q.fits query (S.numbers version.now.sketch) }
    ensures book { result.0.book ≡ known.book }
    ensures begins { Begins known.batches result.0.batches }
    ensures seen { MatchResult result.1
        (λ answer. Q.gives query (S.numbers version.now.sketch) (items_in result.0) answer)
        (λ back. (back ≡ query) × (result.0 ≡ known)) }
{
    let mut known = known;
    if !known.advance(&version.known) {
        return (known, Err(query));
    }
    let answer = query.ask(&version.sketch, version.known.count());
    (known, Ok(answer))
}
