//! Who propagates.
ghost use Rattle.std.specs.Prelude.{◌≡◌, ◌↔◌, IsTrue};
ghost use Rattle.sk_core.specs.Stored.{machine_of};
ghost use Rattle.sk_core.specs.Events.{Plays};
ghost use Rattle.sk_core.specs.declared.event.Event.{Event};
ghost use Rattle.sk_machine.specs.Fine.{MayTurn, MayYield};

use super::State;
use crate::event::{Answer, NotEnabled};
use sk_machine::Progress;

impl State {
    fn may_turn(&self, seat: u64) -> bool
        ensures { IsTrue result ↔ MayTurn seat (machine_of self.now) }
    {
        seat <= self.updaters.len() as u64 && self.turn != seat + 1
    }

    // A seat tries to take the turn.
    pub fn turn(&mut self, seat: u64) -> Result<Answer, NotEnabled>
        ensures { Plays (Event.Turn seat) self.old self.new result }
    {
        if !self.may_turn(seat) {
            return Err(NotEnabled);
        }
        if self.turn != 0 {
            return Ok(Answer::Elsewhere(self.turn - 1));
        }
        self.turn = seat + 1;
        Ok(Answer::Turned)
    }

    fn may_yield(&self, seat: u64) -> bool
        ensures { IsTrue result ↔ MayYield seat (machine_of self.now) }
    {
        if self.turn == 0 || self.turn - 1 != seat {
            return false;
        }
        match self.progress {
            Progress::Idle | Progress::Holding(_) => true,
            Progress::Found(_) | Progress::Published(_) | Progress::Put(_) => false,
        }
    }

    // A seat gives the turn up.
    pub fn yield_turn(&mut self, seat: u64) -> Result<Answer, NotEnabled>
        ensures { Plays (Event.YieldTurn seat) self.old self.new result }
    {
        if !self.may_yield(seat) {
            return Err(NotEnabled);
        }
        self.turn = 0;
        Ok(Answer::Yielded)
    }
}
