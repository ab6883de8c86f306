//! What whoever propagates does.
ghost use Rattle.std.specs.Prelude.{◌≡◌, ◌+◌, ◌≤◌, ◌++◌, ◌↔◌, IsTrue, length, vec_len, vec_capacity};
ghost use Rattle.sk_model.specs.Entries.{tagged};
ghost use Rattle.sk_core.specs.Stored.{machine_of};
ghost use Rattle.sk_core.specs.Events.{Plays};
ghost use Rattle.sk_core.specs.declared.event.Event.{Event};
ghost use Rattle.sk_machine.specs.Fine.{MayFind};

use super::State;
use crate::event::{Answer, NotEnabled};
use sk_machine::Progress;

impl State {
    fn may_find(&self, i: u64) -> bool
        ensures { IsTrue result ↔ MayFind i (machine_of self.now) }
    {
        (i as usize) < self.updaters.len() && self.progress == Progress::Idle && self.turn != 0
    }

    // The propagator looks whether a batch waits.
    pub fn find(&mut self, i: u64) -> Result<Answer, NotEnabled>
        ensures { Plays (Event.Find i) self.old self.new result }
    {
        if !self.may_find(i) {
            return Err(NotEnabled);
        }
        if self.updaters[i as usize].word() != 0 {
            return Ok(Answer::Nothing);
        }
        self.progress = Progress::Found(i);
        Ok(Answer::Waiting)
    }

    // It takes the batch that it found.
    pub fn take(&mut self, i: u64) -> Result<Answer, NotEnabled>
        ensures { Plays (Event.Take i) self.old self.new result }
    {
        if self.progress != Progress::Found(i) {
            return Err(NotEnabled);
        }
        let updater = &mut self.updaters[i as usize];
        let count = updater.slot_len();
        updater.take(&mut self.in_hand);
        self.progress = Progress::Holding(i);
        Ok(Answer::Took(count as u64))
    }

    // It publishes the batch that it holds.
    pub fn publish(&mut self, i: u64) -> Result<Answer, NotEnabled>
        ensures { Plays (Event.Publish i) self.old self.new result }
    {
        if self.progress != Progress::Holding(i) || self.turn == 0 {
            return Err(NotEnabled);
        }
        append_batch(&mut self.published, i, self.in_hand.as_slice());
        self.sketch.merge(self.in_hand.as_slice());
        self.word = self.sketch.packed();
        self.in_hand.clear();
        self.progress = Progress::Published(i);
        Ok(Answer::Published(self.published.len() as u64))
    }

    // It lays an empty list into the slot.
    pub fn put(&mut self, i: u64) -> Result<Answer, NotEnabled>
        ensures { Plays (Event.Put i) self.old self.new result }
    {
        if self.progress != Progress::Published(i) {
            return Err(NotEnabled);
        }
        self.updaters[i as usize].put();
        self.progress = Progress::Put(i);
        Ok(Answer::Put)
    }

    // It gives the hint of the published list back.
    pub fn give_back(&mut self, i: u64) -> Result<Answer, NotEnabled>
        ensures { Plays (Event.GiveBack i) self.old self.new result }
    {
        if self.progress != Progress::Put(i) {
            return Err(NotEnabled);
        }
        let hint = self.sketch.theta();
        let entries = self.published.len();
        self.updaters[i as usize].give_back(hint, entries);
        self.progress = Progress::Idle;
        Ok(Answer::Returned(hint))
    }
}

// Puts a batch to the end of the entries.
fn append_batch(entries: &mut Vec<(u64, u64)>, i: u64, batch: &[u64])
    requires { vec_len entries.old + length batch.now ≤ vec_capacity entries.old }
    ensures entries { entries.new.items ≡ entries.old.items ++ tagged i batch.now }
    ensures room { vec_capacity entries.new ≡ vec_capacity entries.old }
{
    'append: for item in batch {
        entries.push_reserved((i, *item));
    }
}
