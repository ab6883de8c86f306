//! What is written of what a query returns.
ghost use Rattle.std.specs.Prelude.{ℕ, ◌≤◌, List, OnOk, OnErr};
ghost use Rattle.std.specs.Io.KnownBytes.{Appends};
ghost use Rattle.sk_model.specs.Causes.{AppendsPart, HasCause};

use sk_io::{Failed, Sink};
use sk_snap::{Query, Sequential};

/// A query of sketches with any numbers, and the line that is written of what it returns.
pub trait Line<S: Sequential>: Query<S, Answer: Drop> + Copy {
    /// The line of items, by a sketch with these numbers.
    ghost line: { Self → List ℕ → List ℕ → List ℕ };

    /// Two numbers of the items of a line: what the query returns says that the first is at most the other.
    ghost lower: { Self → List ℕ → List ℕ → ℕ };

    ghost upper: { Self → List ℕ → List ℕ → ℕ };

    /// Writes the line of what the query returned.
    fn write<O: Sink>(self, answer: Self::Answer, out: &mut O) -> Result<(), Failed>
        ensures ok { (numbers items : List ℕ) → Self.gives self numbers items answer
            → OnOk result (Appends (O.written out.old) (O.written out.new) (line self numbers items)) }
        ensures part { (numbers items : List ℕ) → Self.gives self numbers items answer
            → OnErr result (AppendsPart (O.written out.old) (O.written out.new) (line self numbers items)) }
        ensures cause { HasCause (O.faults out.old) (O.faults out.new) result };

    // It may be asked of each sketch.
    ghost fits_all: { (query : Self) (numbers : List ℕ) → Self.fits query numbers };

    // What it returns says so.
    ghost means: { (query : Self) (numbers items : List ℕ) (answer : Self.Answer)
        → Self.gives query numbers items answer → lower query numbers items ≤ upper query numbers items };
}
