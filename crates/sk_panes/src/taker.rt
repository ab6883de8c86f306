// Who takes the lines.
ghost use Rattle.std.specs.Prelude.{◌≡◌, ◌<◌, ◌∷◌, [], ℕ, List, length, OnOk, OnErr, IfErr, IfSome};
ghost use Rattle.std.specs.Io.KnownBytes.{Appends};
ghost use Rattle.sk_model.specs.Causes.{AppendsPart, HasCauseIn};
ghost use Rattle.sk_model.specs.Limits.{least_k, most_k, IsFrom};
ghost use Rattle.sk_label.specs.Stops.{Takes, StopsBy};
ghost use Rattle.sk_panes.specs.Panes.{pane_rules};
ghost use Rattle.sk_panes.specs.Running.{StandsAfter, HasReply, due_text};

use crate::running::{Pane, Running};
use crate::text::write_reply;
use sk_io::Sink;
use sk_label::{LineStop, LineTaker, Parts, split};
use std::sync::Wait;

// Takes lines, and writes each pane once its interval has ended.
#[derive(Drop)]
pub(crate) struct Taker<'t, 'o, 'r, O: Sink, R: Wait> {
    pub(crate) running: &'t mut Running<'r, R>,
    pub(crate) out: &'o mut O,
}

impl<O: Sink, R: Wait> LineTaker for Taker<'_, '_, '_, O, R> {
    ghost use Rattle.sk_read.specs.Standing.{Standing};
    ghost use Rattle.std.specs.Prelude.{None};
    ghost use Rattle.sk_panes.specs.Panes.{pane_rules};
    ghost use Rattle.sk_panes.specs.Running.{StandsAfter, numbers_of};

    ghost rules = { λ t. pane_rules t.running.now.plan };

    ghost went = { λ _ t lines. StandsAfter t.running.now.plan lines t.running.now.panes t.running.now.updaters.items t.running.now.candidates t.running.now.label };

    ghost written = { λ t. O.written t.out.now };

    ghost faults = { λ t. O.faults t.out.now };

    ghost stands_on = { λ t. record { kind = None; borrows = t.running.ghost_name ∷ t.out.ghost_name ∷ []; numbers = numbers_of t.running.now.plan } };

    #[inline(always)]
    fn take(&mut self, line: &[u8]) -> Result<(), LineStop> {
        if line.is_empty() {
            return Ok(());
        }
        // A moment that was read need not be looked for and read again.
        if let Some(item_text) = self.running.label.rest_of(line) {
            self.running.feed(item_text);
            return Ok(());
        }
        self.take_other(line)
    }
}

impl<O: Sink, R: Wait> Taker<'_, '_, '_, O, R> {
    // Takes a line that does not begin with the last label, or has not the form.
    #[inline(never)]
    fn take_other(&mut self, line: &[u8]) -> Result<(), LineStop>
        requires some { 0 < length line.now }
        requires stands { (lines : List (List ℕ)) × StandsAfter self.old.running.now.plan lines self.old.running.now.panes self.old.running.now.updaters.items self.old.running.now.candidates self.old.running.now.label }
        ensures takes { OnOk result ((lines : List (List ℕ)) → StandsAfter self.old.running.now.plan lines self.old.running.now.panes self.old.running.now.updaters.items self.old.running.now.candidates self.old.running.now.label
            → Takes (pane_rules self.old.running.now.plan) (λ ls. StandsAfter self.new.running.now.plan ls self.new.running.now.panes self.new.running.now.updaters.items self.new.running.now.candidates self.new.running.now.label)
            (O.written self.old.out.now) (O.written self.new.out.now) lines line.now) }
        ensures stopped { IfErr result (λ why. (lines : List (List ℕ)) → StandsAfter self.old.running.now.plan lines self.old.running.now.panes self.old.running.now.updaters.items self.old.running.now.candidates self.old.running.now.label
            → StopsBy (pane_rules self.old.running.now.plan) (O.written self.old.out.now) (O.written self.new.out.now) lines line.now why) }
        ensures cause { HasCauseIn LineStop.WriteFault (O.faults self.old.out.now) (O.faults self.new.out.now) result }
        ensures plan { self.new.running.now.plan ≡ self.old.running.now.plan }
        ensures running { self.new.running.ghost_name ≡ self.old.running.ghost_name }
        ensures out { self.new.out.ghost_name ≡ self.old.out.ghost_name }
    {
        let Some(Parts { label, item_text }) = split(line) else {
            return Err(LineStop::BadLine);
        };
        let ended = self.running.come_to(label)?;
        self.running.feed(item_text);
        write_ended(self.out, self.running.plan.k, ended)
    }
}

// Writes a pane that is due, if one is.
#[inline(always)]
fn write_ended<O: Sink>(out: &mut O, k: u32, ended: Option<Pane>) -> Result<(), LineStop>
    requires k { IsFrom least_k most_k k }
    requires reply { IfSome ended (HasReply k) }
    ensures ok { OnOk result (Appends (O.written out.old) (O.written out.new) (due_text k ended)) }
    ensures part { OnErr result (AppendsPart (O.written out.old) (O.written out.new) (due_text k ended)) }
    ensures stop { IfErr result (λ why. why ≡ LineStop.WriteFault) }
    ensures cause { HasCauseIn LineStop.WriteFault (O.faults out.old) (O.faults out.new) result }
{
    match ended {
        Some(pane) => write_reply(out, k, pane).map_err(|_| LineStop::WriteFault),
        None => Ok(()),
    }
}
