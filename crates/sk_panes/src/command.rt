// The command over intervals.
ghost use Rattle.std.specs.Prelude.{◌≡◌, ◌≤◌, [], ℕ, List, OnOk, OnErr, IfErr};
ghost use Rattle.std.specs.Io.KnownBytes.{Appends};
ghost use Rattle.sk_model.specs.Causes.{AppendsPart, HasCauseIn};
ghost use Rattle.sk_model.specs.Limits.{source_limit, least_k, most_k, IsFrom};
ghost use Rattle.sk_label.specs.Goes.{setting, Goes, ReadsTaken};
ghost use Rattle.sk_panes.specs.Plans.{IsWithin};
ghost use Rattle.sk_panes.specs.Panes.{pane_rules};
ghost use Rattle.sk_panes.specs.Running.{StandsAfter, HasReply, reply_text};

use crate::plan::Plan;
use crate::running::{Pane, Running};
use crate::taker::Taker;
use crate::text::write_reply;
use sk_io::{Sink, Source};
use sk_label::{LabelFault, read_labelled};
use std::alloc::Global;
use std::sync::Wait;

/// Reads lines `MOMENT ITEM` of a source of fewer than `most` bytes, and writes a pane, the estimate of how many
/// distinct items the last intervals have, once a line has ended an interval, and once the source has ended. A line of
/// another form is bad; one whose moment lies in an earlier interval than the running one is refused.
pub fn window<S: Source, O: Sink, R: Wait>(
    rt: &R,
    alloc: Global,
    plan: &Plan,
    most: u64,
    source: &mut S,
    out: &mut O,
) -> Result<(), LabelFault>
    requires within { IsWithin plan.now }
    requires bound { most ≤ source_limit }
    ensures goes { Goes (pane_rules plan.now) (S.last source.new) most (setting (S.left source.old) (O.written out.old)) (setting (S.left source.new) (O.written out.new)) result }
    ensures reads { HasCauseIn LabelFault.ReadFault (S.faults source.old) (S.faults source.new) result }
    ensures writes { HasCauseIn LabelFault.WriteFault (O.faults out.old) (O.faults out.new) result }
    ensures stays { S.stands_on source.new ≡ S.stands_on source.old }
{
    let mut running = Running::new(rt, alloc, plan)?;
    read_lines(alloc, most, source, &mut running, out)?;
    let pane = running.finish()?;
    write_last(out, plan.k, pane)
}

// Takes the lines of a source, and writes the panes of the intervals that end.
fn read_lines<S: Source, O: Sink, R: Wait>(
    alloc: Global,
    most: u64,
    source: &mut S,
    running: &mut Running<'_, R>,
    out: &mut O,
) -> Result<u64, LabelFault>
    requires bound { most ≤ source_limit }
    requires start { StandsAfter running.old.plan [] running.old.panes running.old.updaters.items running.old.candidates running.old.label }
    ensures read { ReadsTaken (pane_rules running.old.plan) (S.last source.new) most (λ lines. StandsAfter running.old.plan lines running.new.panes running.new.updaters.items running.new.candidates running.new.label)
        (setting (S.left source.old) (O.written out.old)) (setting (S.left source.new) (O.written out.new)) result }
    ensures plan { running.new.plan ≡ running.old.plan }
    ensures reads { HasCauseIn LabelFault.ReadFault (S.faults source.old) (S.faults source.new) result }
    ensures writes { HasCauseIn LabelFault.WriteFault (O.faults out.old) (O.faults out.new) result }
    ensures stays { S.stands_on source.new ≡ S.stands_on source.old }
{
    let mut taker = Taker { running, out };
    take_lines(alloc, most, source, &mut taker)
}

// The same, with the taker at hand.
fn take_lines<S: Source, O: Sink, R: Wait>(
    alloc: Global,
    most: u64,
    source: &mut S,
    taker: &mut Taker<'_, '_, '_, O, R>,
) -> Result<u64, LabelFault>
    requires bound { most ≤ source_limit }
    requires start { StandsAfter taker.old.running.now.plan [] taker.old.running.now.panes taker.old.running.now.updaters.items taker.old.running.now.candidates taker.old.running.now.label }
    ensures read { ReadsTaken (pane_rules taker.old.running.now.plan) (S.last source.new) most (λ lines. StandsAfter taker.old.running.now.plan lines taker.new.running.now.panes taker.new.running.now.updaters.items taker.new.running.now.candidates taker.new.running.now.label)
        (setting (S.left source.old) (O.written taker.old.out.now)) (setting (S.left source.new) (O.written taker.new.out.now)) result }
    ensures plan { taker.new.running.now.plan ≡ taker.old.running.now.plan }
    ensures reads { HasCauseIn LabelFault.ReadFault (S.faults source.old) (S.faults source.new) result }
    ensures writes { HasCauseIn LabelFault.WriteFault (O.faults taker.old.out.now) (O.faults taker.new.out.now) result }
    ensures stays { S.stands_on source.new ≡ S.stands_on source.old }
    ensures running { taker.new.running.ghost_name ≡ taker.old.running.ghost_name }
    ensures out { taker.new.out.ghost_name ≡ taker.old.out.ghost_name }
{
    read_labelled(alloc, most, source, taker)
}

// Writes the pane that is due last.
fn write_last<O: Sink>(out: &mut O, k: u32, pane: Pane) -> Result<(), LabelFault>
    requires k { IsFrom least_k most_k k }
    requires reply { HasReply k pane }
    ensures ok { OnOk result (Appends (O.written out.old) (O.written out.new) (reply_text k pane)) }
    ensures part { OnErr result (AppendsPart (O.written out.old) (O.written out.new) (reply_text k pane)) }
    ensures fault { IfErr result (λ fault. fault ≡ LabelFault.WriteFault) }
    ensures cause { HasCauseIn LabelFault.WriteFault (O.faults out.old) (O.faults out.new) result }
{
    write_reply(out, k, pane).map_err(|_| LabelFault::WriteFault)
}
