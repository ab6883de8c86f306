// The top call: words in, a status out.
ghost use Rattle.std.specs.Prelude.{◌≡◌, ◌↔◌, Option, None, Some};
ghost use Rattle.sk_model.specs.Limits.{source_limit};
ghost use Rattle.sk_cli.specs.Beside.{IsFullBoard, left_of, nothing_left};
ghost use Rattle.sk_cli.specs.Options.{texts_of};
ghost use Rattle.sk_cli.specs.Command.{request_of, over_text, OfLinks};
ghost use Rattle.sk_cli.specs.Fault.{message_of, status_of};
ghost use Rattle.sk_cli.specs.Outside.{outside_of};
ghost use Rattle.sk_cli.specs.Run.{Reports, Tells, RunsSo, CountsText, RanksText, TalliesText, EstimatesTenants, WritesPanes, ServesLinks, RunsMake};
ghost use Rattle.sk_cli.specs.Touches.{handed, Touches};
ghost use Rattle.sk_cli.specs.Values.{Word};
ghost use Rattle.sk_cli.specs.declared.command.Command.TheVariants as command;
ghost use Rattle.sk_cli.specs.declared.commands.make.MakePlan.{MakePlan};
ghost use Rattle.sk_cli.specs.declared.commands.tenants.TenantsPlan.{TenantsPlan};
ghost use Rattle.sk_count.specs.declared.plan.Plan.{Plan as CountPlan};
ghost use Rattle.sk_panes.specs.declared.plan.Plan.{Plan as PanePlan};
ghost use Rattle.sk_rank.specs.declared.plan.Plan.{Plan as RankPlan};
ghost use Rattle.sk_serve.specs.declared.plan.ServePlan.{ServePlan};
ghost use Rattle.sk_tally.specs.declared.plan.Plan.{Plan as TallyPlan};

use crate::command::Request;
use crate::execute::perform;
use crate::fault::Fault;
use crate::remains::Remains;
use sk_io::{Door, Shelf, Sink, Source};
use sk_model::limits::SOURCE_LIMIT;
use sk_watch::Seen;
use std::alloc::Global;
use std::sync::Wait;
use std::thread::Threads;

/// Runs the program over the words after its name, and returns its exit status. The line that
/// standard error gets is written as far as it goes, and a failure of that write changes nothing.
pub fn run<'r, R: Threads + Wait + Sync, S: Source, O: Sink, E: Sink, F: Shelf, D: Door, B: Seen>(
    rt: &'r R,
    alloc: Global,
    words: &[String],
    input: &mut S,
    out: &mut O,
    err: &mut E,
    shelf: &mut F,
    door: &mut D,
    board: &mut B,
    remains: &mut Remains<&'r R>,
) -> u8
where
    D::Link: Send,
    requires board { IsFullBoard (B.places board.old) }
    requires remains { left_of remains.old ≡ nothing_left }

    // How it ends decides the status, 2 if the words are no command, and what standard error gets.
    ensures usage { (result ≡ 2) ↔ (request_of (texts_of words.now) ≡ None) }
    ensures runs { let outside = outside_of S.Source O.Sink F.Shelf D.Door B.Seen in
        RunsSo (request_of (texts_of words.now)) source_limit
        (outside input.old out.old shelf.old door.old board.old (left_of remains.old))
        (outside input.new out.new shelf.new door.new board.new (left_of remains.new))
        (Tells E.Sink err.old err.new) result }

    // Only what the command reads and writes is touched.
    ensures touches { Touches (request_of (texts_of words.now)) result
        (handed input.old out.old shelf.old door.old board.old) (handed input.new out.new shelf.new door.new board.new) }

    // The headline of each command that has one.
    ensures count { (plan : CountPlan) (file : Option Word) → request_of (texts_of words.now) ≡ Some (over_text (command.Count plan) file)
        → result ≡ 0 → let outside = outside_of S.Source O.Sink F.Shelf D.Door B.Seen in
        CountsText plan file (outside input.old out.old shelf.old door.old board.old (left_of remains.old))
        (outside input.new out.new shelf.new door.new board.new (left_of remains.new)) }
    ensures quantile { (plan : RankPlan) (file : Option Word) → request_of (texts_of words.now) ≡ Some (over_text (command.Quantile plan) file)
        → result ≡ 0 → let outside = outside_of S.Source O.Sink F.Shelf D.Door B.Seen in
        RanksText plan file (outside input.old out.old shelf.old door.old board.old (left_of remains.old))
        (outside input.new out.new shelf.new door.new board.new (left_of remains.new)) }
    ensures tally { (plan : TallyPlan) (file : Option Word) → request_of (texts_of words.now) ≡ Some (over_text (command.Tally plan) file)
        → result ≡ 0 → let outside = outside_of S.Source O.Sink F.Shelf D.Door B.Seen in
        TalliesText plan file (outside input.old out.old shelf.old door.old board.old (left_of remains.old))
        (outside input.new out.new shelf.new door.new board.new (left_of remains.new)) }
    ensures tenants { (plan : TenantsPlan) (file : Option Word) → request_of (texts_of words.now) ≡ Some (over_text (command.Tenants plan) file)
        → result ≡ 0 → let outside = outside_of S.Source O.Sink F.Shelf D.Door B.Seen in
        EstimatesTenants plan file (outside input.old out.old shelf.old door.old board.old (left_of remains.old))
        (outside input.new out.new shelf.new door.new board.new (left_of remains.new)) }
    ensures window { (plan : PanePlan) (file : Option Word) → request_of (texts_of words.now) ≡ Some (over_text (command.Window plan) file)
        → result ≡ 0 → let outside = outside_of S.Source O.Sink F.Shelf D.Door B.Seen in
        WritesPanes plan file (outside input.old out.old shelf.old door.old board.old (left_of remains.old))
        (outside input.new out.new shelf.new door.new board.new (left_of remains.new)) }
    ensures serve { (plan : ServePlan) → request_of (texts_of words.now) ≡ Some (OfLinks plan)
        → result ≡ 0 → let outside = outside_of S.Source O.Sink F.Shelf D.Door B.Seen in
        ServesLinks plan (outside input.old out.old shelf.old door.old board.old (left_of remains.old))
        (outside input.new out.new shelf.new door.new board.new (left_of remains.new)) }
    ensures make { (plan : MakePlan) → request_of (texts_of words.now) ≡ Some (over_text (command.Make plan) None)
        → let outside = outside_of S.Source O.Sink F.Shelf D.Door B.Seen in
        RunsMake plan (outside input.old out.old shelf.old door.old board.old (left_of remains.old))
        (outside input.new out.new shelf.new door.new board.new (left_of remains.new)) result }
{
    let Some(request) = Request::of(words) else {
        return report(Fault::Usage, err);
    };
    match perform(
        rt,
        alloc,
        &request,
        SOURCE_LIMIT,
        input,
        out,
        shelf,
        door,
        board,
        remains,
    ) {
        Ok(()) => 0,
        Err(fault) => report(fault, err),
    }
}

// Writes the line of a fault, as far as the sink takes it, and returns its status.
fn report<E: Sink>(fault: Fault, err: &mut E) -> u8
    ensures status { result ≡ status_of fault }
    ensures told { Reports E.Sink err.old err.new (message_of fault) }
{
    let _ = fault.tell(err);
    fault.status()
}
