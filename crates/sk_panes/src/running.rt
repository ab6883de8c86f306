// The panes of a run, with the updater of the running interval.
ghost use Rattle.std.specs.Prelude.{◌≡◌, ◌+◌, ◌/◌, ◌<◌, ◌≤◌, ◌++◌, ◌∷◌, [], ℕ, List, None, Some, length, IfOk, IfErr, OnOk};
ghost use Rattle.sk_model.specs.Murmur.{hash_of};
ghost use Rattle.sk_model.specs.Width.{AreItems};
ghost use Rattle.sk_panes.specs.Plans.{IsWithin};
ghost use Rattle.sk_panes.specs.Candidates.{HaveSmallest};
ghost use Rattle.sk_panes.specs.Panes.{running_after};
ghost use Rattle.sk_panes.specs.Running.{StandsAfter, ComesTo, TakesLabel, RefusesLabel, IsLast};

use crate::candidates::Candidates;
use crate::label::Label;
use crate::plan::{MOMENT_END, Plan, frame_of};
use sk_hash::hash63;
use sk_label::LineStop;
use sk_lines::read_number;
use sk_model::OutOfMemory;
use sk_theta::{Reply, Shape};
use sk_window::{Advance, Finish, Panes, Started, Updaters};
use std::alloc::Global;
use std::mem::replace;
use std::sync::Wait;

// The reply of an interval that has ended.
#[derive(Clone, Copy)]
pub struct Pane {
    pub interval: u64,
    pub reply: Reply,
}

#[derive(Drop)]
pub(crate) struct Running<'r, R: Wait> {
    rt: &'r R,
    alloc: Global,
    pub(crate) plan: Plan,
    pub(crate) panes: Panes<'r, R>,
    // The one of the running interval. It is fed once that has ended.
    pub(crate) updaters: Updaters<'r, R>,
    // Of the running interval.
    pub(crate) candidates: Candidates,
    // Of the last line that was taken.
    pub(crate) label: Label,
}

impl<'r, R: Wait> Running<'r, R> {
    // Interval 0 runs.
    pub(crate) fn new(rt: &'r R, alloc: Global, plan: &Plan) -> Result<Running<'r, R>, OutOfMemory>
        requires within { IsWithin plan.now }
        ensures plan { IfOk result (λ r. r.plan ≡ plan.now) }
        ensures stands { IfOk result (λ r. StandsAfter plan.now [] r.panes r.updaters.items r.candidates r.label) }
    {
        let Ok(shape) = Shape::new(plan.k, plan.size, 1, plan.seed, false) else {
            unreachable!()
        };
        let Started { panes, updaters } = Panes::new(rt, alloc, shape, frame_of(plan))?;
        let candidates = Candidates::new(alloc, plan.k)?;
        Ok(Running {
            rt,
            alloc,
            plan: *plan,
            panes,
            updaters,
            candidates,
            label: Label::new(),
        })
    }

    // Comes to the moment that a label spells, and returns the pane of the interval that has ended, if one has.
    pub(crate) fn come_to(&mut self, label: &[u8]) -> Result<Option<Pane>, LineStop>
        requires stands { (lines : List (List ℕ)) × StandsAfter self.old.plan lines self.old.panes self.old.updaters.items self.old.candidates self.old.label }
        ensures taken { IfOk result (λ pane. (lines : List (List ℕ)) → StandsAfter self.old.plan lines self.old.panes self.old.updaters.items self.old.candidates self.old.label
            → TakesLabel self.old.plan lines label.now pane self.new.panes self.new.updaters.items self.new.candidates self.new.label) }
        ensures refused { IfErr result (λ why. (lines : List (List ℕ)) → StandsAfter self.old.plan lines self.old.panes self.old.updaters.items self.old.candidates self.old.label
            → RefusesLabel self.old.plan lines label.now why) }
        ensures plan { self.new.plan ≡ self.old.plan }
    {
        let Some(moment) = read_number(label, MOMENT_END) else {
            return Err(LineStop::BadLine);
        };
        let pane = self.advance(moment)?;
        self.label.keep(label);
        Ok(pane)
    }

    // Comes to a moment. If it ends the running interval, its reply is returned, and the updater is of the moment's.
    fn advance(&mut self, moment: u64) -> Result<Option<Pane>, LineStop>
        requires stands { (lines : List (List ℕ)) × StandsAfter self.old.plan lines self.old.panes self.old.updaters.items self.old.candidates self.old.label }
        ensures came { IfOk result (λ pane. (lines : List (List ℕ)) → StandsAfter self.old.plan lines self.old.panes self.old.updaters.items self.old.candidates self.old.label
            → ComesTo self.old.plan lines (moment / self.old.plan.span) pane self.new.panes self.new.updaters.items self.new.candidates) }
        ensures earlier { result ≡ Err LineStop.Refused → (lines : List (List ℕ)) → StandsAfter self.old.plan lines self.old.panes self.old.updaters.items self.old.candidates self.old.label
            → moment / self.old.plan.span < running_after self.old.plan lines }
        ensures well { result ≡ Err LineStop.BadLine → ⊥ }
        ensures quiet { result ≡ Err LineStop.WriteFault → ⊥ }
        ensures plan { self.new.plan ≡ self.old.plan }
        ensures label { self.new.label ≡ self.old.label }
    {
        let interval = frame_of(&self.plan).interval(moment);
        if interval < self.panes.running() {
            return Err(LineStop::Refused);
        }
        if interval == self.panes.running() {
            return Ok(None);
        }
        let pane = self.move_to(moment)?;
        Ok(Some(pane))
    }

    // Ends the running interval, and continues in that of a later moment.
    fn move_to(&mut self, moment: u64) -> Result<Pane, OutOfMemory>
        requires stands { (lines : List (List ℕ)) × StandsAfter self.old.plan lines self.old.panes self.old.updaters.items self.old.candidates self.old.label }
        requires later { self.old.panes.running < moment / self.old.plan.span }
        ensures came { IfOk result (λ pane. (lines : List (List ℕ)) → StandsAfter self.old.plan lines self.old.panes self.old.updaters.items self.old.candidates self.old.label
            → ComesTo self.old.plan lines (moment / self.old.plan.span) (Some pane) self.new.panes self.new.updaters.items self.new.candidates) }
        ensures plan { self.new.plan ≡ self.old.plan }
        ensures label { self.new.label ≡ self.old.label }
    {
        let interval = self.panes.running();
        self.candidates.hand_to(self.rt, &mut self.updaters[0])?;
        // It tells the proof what is true of the updater.
        let _number = self.updaters[0].number();
        let updaters = replace(&mut self.updaters, Vec::new(self.alloc));
        match self.panes.advance(moment, updaters) {
            Advance::Moved(reply, updaters) => {
                self.updaters = updaters;
                Ok(Pane { interval, reply })
            }
            Advance::OutOfMemory(updaters) => {
                self.updaters = updaters;
                Err(OutOfMemory)
            }
            Advance::Same(_) | Advance::Back(_) => unreachable!(),
        }
    }

    // Takes the item of a text.
    #[inline(always)]
    pub(crate) fn feed(&mut self, item_text: &[u8])
        ensures fed { (items : List ℕ) → AreItems items → HaveSmallest items self.old.candidates
            → HaveSmallest (items ++ hash_of self.old.plan.seed item_text.now ∷ []) self.new.candidates }
        ensures k { self.new.candidates.k ≡ self.old.candidates.k }
        ensures updaters { self.new.updaters.items ≡ self.old.updaters.items }
        ensures panes { self.new.panes ≡ self.old.panes }
        ensures plan { self.new.plan ≡ self.old.plan }
        ensures label { self.new.label ≡ self.old.label }
    {
        self.candidates.add(hash63(self.plan.seed, item_text));
    }

    // Closes the last interval.
    pub(crate) fn finish(&mut self) -> Result<Pane, OutOfMemory>
        requires stands { (lines : List (List ℕ)) × StandsAfter self.old.plan lines self.old.panes self.old.updaters.items self.old.candidates self.old.label }
        ensures last { IfOk result (λ pane. (lines : List (List ℕ)) → StandsAfter self.old.plan lines self.old.panes self.old.updaters.items self.old.candidates self.old.label
            → IsLast self.old.plan lines pane) }
        ensures plan { self.new.plan ≡ self.old.plan }
    {
        let interval = self.panes.running();
        self.candidates.hand_to(self.rt, &mut self.updaters[0])?;
        // It tells the proof what is true of the updater.
        let _number = self.updaters[0].number();
        let updaters = replace(&mut self.updaters, Vec::new(self.alloc));
        let Finish::Done(reply) = self.panes.finish(updaters) else {
            return Err(OutOfMemory);
        };
        Ok(Pane { interval, reply })
    }
}
