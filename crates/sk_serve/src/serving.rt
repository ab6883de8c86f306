//! The server.
ghost use Rattle.std.specs.Prelude.{◌≡◌, ◌≢◌, ℕ, ◌<◌, ◌≤◌, ◌++◌, All, length, IfOk, IfErr, OnOk, OnErr};
ghost use Rattle.std.specs.Io.KnownBytes.{Appends};
ghost use Rattle.sk_model.specs.Causes.{AppendsPart, HasCause, HasCauseIn};
ghost use Rattle.sk_model.specs.Limits.{most_kept};
ghost use Rattle.sk_lines.specs.Fractions.{estimate_line};
ghost use Rattle.sk_watch.specs.Places.{IsLive};
ghost use Rattle.sk_report.specs.Texts.{alarm_lines};
ghost use Rattle.sk_serve.specs.Plans.{IsServable};
ghost use Rattle.sk_serve.specs.Faults.{HasNetCause};
ghost use Rattle.sk_serve.specs.Served.{AreClosed, StopsServing};
ghost use Rattle.sk_serve.specs.Around.{surroundings};
ghost use Rattle.sk_serve.specs.Serves.{ServesPlan};
ghost use Rattle.sk_serve.specs.Texts.{session_lines};
ghost use Rattle.sk_serve.specs.Waves.{IsNewHub, ServesAndAsks};

use crate::fault::ServeFault;
use crate::plan::{ServePlan, shape_of};
use crate::text::write_served;
use crate::waves::serve_waves;
use sk_heap::HeapTheta;
use sk_hub::{Heart, Opened, Token, open_sized};
use sk_io::{Door, Sink};
use sk_line::End;
use sk_model::OutOfMemory;
use sk_report::{Remains, arm};
use sk_theta::unpack;
use sk_watch::Seen;
use std::alloc::Global;
use std::sync::Wait;
use std::thread::Threads;

/// Accepts as many links as the plan has sessions, answers the requests of each, fewer than `most` bytes,
/// by an updater of one hub, and then writes how each session ended and the estimate of all that was kept,
/// which it also shows to the board. If it ends well it returns the handles of its hub.
pub fn serve<O: Sink, D: Door, B: Seen, R: Threads + Wait + Sync>(
    rt: &R,
    alloc: Global,
    plan: &ServePlan,
    most: u64,
    out: &mut O,
    door: &mut D,
    board: &mut B,
) -> Result<Remains, ServeFault>
where
    D::Link: Send,
    requires within { IsServable plan.now }
    requires bound { most ≤ most_kept }
    requires live { (i : ℕ) → i < length plan.now.alarms → IsLive i (B.places board.old) }
    ensures serves { ServesPlan plan.now most (surroundings (O.written out.old) (B.places board.old) (D.doorway door.old))
        (surroundings (O.written out.new) (B.places board.new) (D.doorway door.new)) result }
    ensures closed { AreClosed (D.accepted door.old) (D.accepted door.new) (D.doorway door.old) (D.doorway door.new) }
    ensures quiet { IfErr result (λ fault. fault ≢ ServeFault.WriteFault → out.new ≡ out.old) }
    ensures net { HasCauseIn ServeFault.NetFault (D.faults door.old) (D.faults door.new) result }
    ensures writes { HasCauseIn ServeFault.WriteFault (O.faults out.old) (O.faults out.new) result }
{
    arm(board, plan.k, plan.alarms.as_slice());
    let (mut heart, token) = open_hub(alloc, plan)?;
    let (ends, word) = serve_all(rt, alloc, plan, most, &mut heart, door)?;
    let reply = unpack(word, plan.k);
    let gone = board.show(reply);
    write_last(out, ends.as_slice(), gone, reply.fraction(plan.k))?;
    Ok(Remains {
        heart: Some(heart),
        token: Some(token),
    })
}

// A hub whose updaters are all to be admitted.
#[tactic(auto, unfolding(sk_model::specs::Entries::items_of_entries))]
fn open_hub(
    alloc: Global,
    plan: &ServePlan,
) -> Result<(Heart<HeapTheta>, Token<HeapTheta>), OutOfMemory>
    requires within { IsServable plan.now }
    ensures hub { IfOk result (λ made. IsNewHub plan.now made.0) }
    ensures table { IfOk result (λ made. made.1.table ≡ made.0.table) }
{
    let global = HeapTheta::new(alloc, plan.k)?;
    let shape = shape_of(plan);
    let Opened {
        heart,
        updaters: _,
        token,
    } = open_sized(alloc, &shape, &[], global)?;
    Ok((heart, token))
}

// Listens, serves all sessions, and returns how they ended, and the word of all that was kept.
fn serve_all<D: Door, R: Threads + Wait + Sync>(
    rt: &R,
    alloc: Global,
    plan: &ServePlan,
    most: u64,
    heart: &mut Heart<HeapTheta>,
    door: &mut D,
) -> Result<(Vec<End>, u64), ServeFault>
where
    D::Link: Send,
    requires within { IsServable plan.now }
    requires bound { most ≤ most_kept }
    requires hub { IsNewHub plan.now heart.old }
    ensures serves { IfOk result (λ served. ServesAndAsks plan.now most heart.old heart.new (D.doorway door.old) (D.doorway door.new) served.0.items served.1) }
    ensures stops { IfErr result (λ fault. StopsServing plan.now most (D.doorway door.old) (D.doorway door.new) fault) }
    ensures closed { AreClosed (D.accepted door.old) (D.accepted door.new) (D.doorway door.old) (D.doorway door.new) }
    ensures net { HasNetCause (D.faults door.old) (D.faults door.new) result }
{
    door.listen(plan.port, plan.sessions)?;
    let served = serve_waves(rt, alloc, plan, most, heart, door);
    // Its clause says how many updaters the hub has.
    let _admitted = heart.admitted();
    // However it ended, this shows the list that all replies were of.
    let word = heart.ask();
    let ends = served?;
    had_memory(ends.as_slice())?;
    Ok((ends, word))
}

// Whether no session ran out of memory.
fn had_memory(ends: &[End]) -> Result<(), OutOfMemory>
    ensures { OnOk result (All (λ end. end ≢ End.OutOfMemory) ends.now) }
{
    'end: for end in ends {
        if *end == End::OutOfMemory {
            return Err(OutOfMemory);
        }
    }
    Ok(())
}

// Writes all that is due.
fn write_last<O: Sink>(
    out: &mut O,
    ends: &[End],
    gone: u64,
    estimate: (u128, u64),
) -> Result<(), ServeFault>
    ensures ok { OnOk result (Appends (O.written out.old) (O.written out.new) (session_lines 0 ends.now ++ (alarm_lines gone ++ estimate_line estimate))) }
    ensures part { OnErr result (AppendsPart (O.written out.old) (O.written out.new) (session_lines 0 ends.now ++ (alarm_lines gone ++ estimate_line estimate))) }
    ensures fault { IfErr result (λ fault. fault ≡ ServeFault.WriteFault) }
    ensures cause { HasCause (O.faults out.old) (O.faults out.new) result }
{
    write_served(out, ends, gone, estimate).map_err(|_| ServeFault::WriteFault)
}
