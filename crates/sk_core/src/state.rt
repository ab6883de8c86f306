//! The state of the machine.
ghost use Rattle.std.specs.Prelude.{◌≡◌, ◌↔◌, IsTrue, OnOk, OnErr, IfOk};
ghost use Rattle.sk_core.specs.Stored.{machine_of};
ghost use Rattle.sk_core.specs.Events.{IsEnabled, after, answer_of, Plays};
ghost use Rattle.sk_core.specs.Runs.{MeetsAll, IsStep};
ghost use Rattle.sk_machine.specs.Fine.{IsAdmitted, IsLive};

mod make;
mod propagator;
mod tokens;
mod turns;
mod updaters;

use crate::event::{Answer, Event, NotEnabled};
use crate::token::Token;
use crate::updater::Updater;
use sk_machine::Progress;
use sk_theta::Theta;
use std::marker::Model;

/// The most offers that are kept, and the most tokens that are made.
const MOST_OFFERS: usize = 1_000_000;

const MOST_TOKENS: usize = 256;

/// The machine, with the memory for 1,000,000 kept offers and 256 tokens.
#[derive(Drop)]
pub struct State {
    offers: Vec<(u64, u64)>,
    published: Vec<(u64, u64)>,
    sketch: Theta,
    word: u64,
    updaters: Vec<Updater>,
    progress: Progress,
    in_hand: Vec<u64>,
    turn: u64,
    tokens: Vec<Token>,
}

impl Model for State {
    ghost use Rattle.sk_core.specs.Stored.{Stored};

    ghost Value = { Stored };

    ghost use Rattle.sk_core.specs.Inside.{stored_of, IsKept};

    ghost view = { stored_of };

    ghost invariant = { IsKept };
}

impl State {
    /// Plays an event. `NotEnabled` comes exactly where its condition does not hold, and then nothing has
    /// changed.
    pub fn step(&mut self, event: &Event) -> Result<Answer, NotEnabled>
        ensures enabled { OnOk result (IsEnabled event.now (machine_of self.old)) }
        ensures machine { OnOk result (machine_of self.new ≡ after self.old.k event.now (machine_of self.old)) }
        ensures answer { IfOk result (λ answer. answer ≡ answer_of self.old.k event.now (machine_of self.old)) }
        ensures step { IfOk result (λ answer. IsStep self.old.k (machine_of self.old) event.now answer) }
        ensures refused { OnErr result (¬ IsEnabled event.now (machine_of self.old)) }
        ensures unchanged { OnErr result (self.new ≡ self.old) }
        ensures sketch { self.new.k ≡ self.old.k }
        ensures invariant { MeetsAll self.new.k (machine_of self.new) }
    {
        // From here on the machine's invariant is known.
        let _ = &self.word;
        self.play(event)
    }

    // The call of each event.
    fn play(&mut self, event: &Event) -> Result<Answer, NotEnabled>
        ensures { Plays event.now self.old self.new result }
    {
        match *event {
            Event::Offer(i, item) => self.offer(i, item),
            Event::Look(i) => self.look(i),
            Event::Swap(i) => self.swap(i),
            Event::Hand(i) => self.hand(i),
            Event::Find(i) => self.find(i),
            Event::Take(i) => self.take(i),
            Event::Publish(i) => self.publish(i),
            Event::Put(i) => self.put(i),
            Event::GiveBack(i) => self.give_back(i),
            Event::Ask(t) => self.ask(t),
            Event::Split(t) => self.split(t),
            Event::Note(i) => self.note(i),
            Event::Join(t, other) => self.join(t, other),
            Event::Turn(seat) => self.turn(seat),
            Event::YieldTurn(seat) => self.yield_turn(seat),
            Event::Admit(i, size) => self.admit(i, size),
        }
    }

    // Whether the updater is there.
    fn is_admitted(&self, i: u64) -> bool
        ensures { IsTrue result ↔ IsAdmitted i (machine_of self.now) }
    {
        match self.updaters.get(i as usize) {
            Some(updater) => updater.size() > 0,
            None => false,
        }
    }

    // Whether the token is there, and was not joined into another.
    fn is_live(&self, t: u64) -> bool
        ensures { IsTrue result ↔ IsLive t (machine_of self.now) }
    {
        match self.tokens.get(t as usize) {
            Some(token) => token.live,
            None => false,
        }
    }
}
