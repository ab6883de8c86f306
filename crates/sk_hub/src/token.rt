//! Tokens, which ask, and the notes that they meet.
ghost use Rattle.std.specs.Prelude.{◌≡◌, ℕ, length, IfOk, IfErr};
ghost use Rattle.sk_model.specs.Missing.{Begins, longer};
ghost use Rattle.sk_gate.specs.Views.{known_of, size_of, after_split, copy_of, after_join};
ghost use Rattle.sk_hub.specs.Replies.{IsRelaxedReply, known_size};

use sk_compose::Composable;
use sk_gate::{NoteSeat, TokenSeat};
use sk_model::OutOfMemory;
use std::marker::Model;

/// Asks at any time, and knows what the notes knew that it met.
#[derive(Drop)]
pub struct Token<C: Composable> {
    pub(crate) seat: TokenSeat<C>,
}

impl<C: Composable> Model for Token<C> {
    ghost use Rattle.sk_gate.specs.Hands.{TokenState};
    ghost use Rattle.sk_hub.specs.Replies.{IsReading};

    ghost Value = { TokenState };

    ghost view = { λ t. t.seat };

    ghost invariant = { λ t. IsReading t.seat };
}

/// What an updater had seen and had handed over, or what a token had seen and known.
#[derive(Drop)]
pub struct Note<C: Composable> {
    pub(crate) seat: NoteSeat<C>,
}

impl<C: Composable> Model for Note<C> {
    ghost use Rattle.sk_gate.specs.Hands.{TokenState};
    ghost use Rattle.sk_hub.specs.Replies.{IsReading};

    ghost Value = { TokenState };

    ghost view = { λ n. n.seat };

    ghost invariant = { λ n. IsReading n.seat };
}

impl<C: Composable> Token<C> {
    /// One load of the published word.
    pub fn ask(&mut self) -> u64
        ensures reply { IsRelaxedReply C.packed_of self.old.view result self.new.view }
        ensures table { self.new.table ≡ self.old.table }
    {
        self.seat.ask()
    }

    /// Knows from now on what the note knows too, and sees the published list once more.
    pub fn meet(&mut self, note: Note<C>)
        requires table { note.table ≡ self.old.table }
        ensures reply { (word : ℕ) × IsRelaxedReply C.packed_of (after_join self.old.view note.view) word self.new.view }
        ensures known { (i : ℕ) → known_of self.new.view i ≡ longer (known_of self.old.view i) (known_of note.view i) }
        ensures sized { length self.new.view.sizes ≡ length self.old.view.sizes }
        ensures sizes { (i : ℕ) → size_of self.new.view i ≡ known_size (size_of self.old.view i) (size_of note.view i) }
        ensures seen { Begins self.old.view.seen self.new.view.seen }
        ensures heard { Begins note.view.seen self.new.view.seen }
        ensures table { self.new.table ≡ self.old.table }
    {
        let Note { seat } = note;
        self.seat.join(seat);
        self.seat.ask();
    }

    /// What this token has seen and knows.
    pub fn note(&mut self) -> Note<C>
        ensures stays { self.new ≡ record self.old { view = after_split self.old.view } }
        ensures note { result ≡ record { view = copy_of self.old.view; table = self.old.table } }
        ensures seen { result.view.seen ≡ self.old.view.seen }
    {
        Note {
            seat: self.seat.note(),
        }
    }

    /// A token that has seen and knows the same.
    pub fn split(&mut self) -> Result<Token<C>, OutOfMemory>
        ensures stays { IfOk result (λ _. self.new ≡ record self.old { view = after_split self.old.view }) }
        ensures seen { IfOk result (λ token. token.view.seen ≡ self.old.view.seen) }
        ensures known { IfOk result (λ token. token.view.known ≡ self.old.view.known) }
        ensures steps { IfOk result (λ token. token.view.steps ≡ self.new.view.steps) }
        ensures numbers { IfOk result (λ token. token.view.numbers ≡ self.old.view.numbers) }
        ensures sizes { IfOk result (λ token. token.view.sizes ≡ self.old.view.sizes) }
        ensures name { IfOk result (λ token. token.view.name ≡ self.old.view.name) }
        ensures table { IfOk result (λ token. token.table ≡ self.old.table) }
        ensures refused { IfErr result (λ _. self.new ≡ self.old) }
    {
        Ok(Token {
            seat: self.seat.split()?,
        })
    }
}
