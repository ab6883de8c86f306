// The command that answers clients' requests over links.
ghost use Rattle.std.specs.Prelude.{◌≡◌, ◌≢◌, ◌≤◌, IfErr, IfSome};
ghost use Rattle.sk_model.specs.Causes.{HasCauseIn};
ghost use Rattle.sk_model.specs.Limits.{source_limit};
ghost use Rattle.sk_cli.specs.Beside.{CountingHub, IsFullBoard, beside_of};
ghost use Rattle.sk_cli.specs.Outside.{doorways};
ghost use Rattle.sk_cli.specs.Run.{LeavesBeside};
ghost use Rattle.sk_cli.specs.commands.Serve.{plan_by, IsWithin, ServesSo};
ghost use Rattle.sk_serve.specs.Served.{AreClosed};

use crate::fault::Fault;
use crate::options::{Name, Options};
use crate::remains::Remains;
use sk_io::{Door, Sink};
use sk_model::limits::{LEAST_K, MOST_K, MOST_UPDATERS};
use sk_serve::ServePlan;
use sk_watch::Seen;
use std::alloc::Global;
use std::sync::Wait;
use std::thread::Threads;

// The greatest number of a port.
const MOST_PORT: u64 = 65_535;

/// The plan that the options spell. `None` if a value is out of its form or its limits, or no port is given.
pub fn plan_of(options: &Options<'_>) -> Option<ServePlan>
    ensures value { result ≡ plan_by options.now }
    ensures limits { IfSome result IsWithin }
{
    let port = options.required(Name::Port, 1, MOST_PORT)? as u16;
    let k = options.number(Name::K, u64::from(LEAST_K), u64::from(MOST_K), 4_096)? as u32;
    let sizes = options.sizes()?;
    let sessions = options.number(Name::Sessions, 1, u64::from(MOST_UPDATERS), 1)?;
    let wave = options.number(Name::Wave, 1, u64::from(MOST_UPDATERS), sessions)? as u32;
    let seed = options.seed()?;
    let eager = options.eager()?;
    let alarms = options.alarms()?;
    Some(ServePlan {
        k,
        sizes,
        sessions: sessions as u32,
        port,
        seed,
        eager,
        alarms,
        wave,
    })
}

/// Serves the sessions of the plan, each over a link of fewer than `most` bytes, and writes how each ended and the
/// estimate of all that was added.
pub fn serve<R: Threads + Wait + Sync, O: Sink, D: Door, B: Seen, W: Wait + Drop>(
    rt: &R,
    alloc: Global,
    plan: &ServePlan,
    most: u64,
    out: &mut O,
    door: &mut D,
    board: &mut B,
    remains: &mut Remains<W>,
) -> Result<(), Fault>
where
    D::Link: Send,
    requires within { IsWithin plan.now }
    requires bound { most ≤ source_limit }
    requires board { IsFullBoard (B.places board.old) }
    ensures done { ServesSo plan.now most (beside_of (B.places board.old) remains.old) (beside_of (B.places board.new) remains.new)
        (O.written out.old) (O.written out.new) (doorways (D.doorway door.old) (D.doorway door.new)) result }
    ensures last { IfErr result (λ fault. fault ≢ Fault.WriteFault → out.new ≡ out.old) }
    ensures beside { LeavesBeside plan.now.alarms CountingHub (beside_of (B.places board.old) remains.old) (beside_of (B.places board.new) remains.new) result }
    ensures causes { HasCauseIn Fault.WriteFault (O.faults out.old) (O.faults out.new) result
        × HasCauseIn Fault.NetFault (D.faults door.old) (D.faults door.new) result }
    ensures links { AreClosed (D.accepted door.old) (D.accepted door.new) (D.doorway door.old) (D.doorway door.new) }
{
    match sk_serve::serve(rt, alloc, plan, most, out, door, board) {
        Ok(left) => {
            remains.put_counted(left);
            Ok(())
        }
        Err(fault) => Err(Fault::of_serving(fault)),
    }
}
