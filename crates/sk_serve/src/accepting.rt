//! Links that are accepted, each with an updater of its own.
ghost use Rattle.std.specs.Prelude.{◌≡◌, ◌+◌, ◌≤◌, [], ◌∷◌, All, length, IfOk, OnOk, OnErr};
ghost use Rattle.sk_io.specs.Traffic.{text_of};
ghost use Rattle.sk_serve.specs.Doors.{door_of, LetsIn};
ghost use Rattle.sk_serve.specs.Faults.{HasNetCause};
ghost use Rattle.sk_serve.specs.Served.{IsUnread};
ghost use Rattle.sk_serve.specs.Waves.{CanServe, visit_of, texts_by, IsReady, AreReady, ClosesUnread, StopsShort};

use crate::fault::ServeFault;
use crate::plan::{ServePlan, size_for};
use sk_heap::HeapTheta;
use sk_hub::{Admit, Heart};
use sk_io::Door;
use sk_line::{HelpPump, Job};
use std::alloc::Global;

// Accepts the next links, each with the next updater. If one can't be, those before it are closed unread.
pub(crate) fn accept_wave<D: Door>(
    alloc: Global,
    plan: &ServePlan,
    heart: &mut Heart<HeapTheta>,
    door: &mut D,
    count: u32,
) -> Result<Vec<Job<HeapTheta, D::Link, HelpPump>>, ServeFault>
    requires can { CanServe plan.now count heart.old (door_of D.Door door.old) }
    ensures count { IfOk result (λ jobs. length jobs.items ≡ count) }
    ensures ready { IfOk result (λ jobs. AreReady plan.now heart.old.table heart.old.admitted (visit_of D.Link.Link) jobs.items) }
    ensures heart { OnOk result (heart.new ≡ record heart.old { admitted = heart.old.admitted + count }) }
    ensures admits { OnErr result (heart.new ≡ record heart.old { admitted = heart.new.admitted }) }
    ensures accepts { IfOk result (λ jobs. LetsIn (texts_by (visit_of D.Link.Link) jobs.items) (door_of D.Door door.old) (door_of D.Door door.new)) }
    ensures short { OnErr result (StopsShort count (door_of D.Door door.old) (door_of D.Door door.new)) }
    ensures net { HasNetCause (D.faults door.old) (D.faults door.new) result }
{
    let mut jobs = Vec::with_capacity(alloc, count as usize)?;
    'link: for _ in 0..count {
        match accept_one(alloc, plan, heart, door) {
            Ok(job) => jobs.push_reserved(job),
            Err(fault) => {
                close_unread(door, jobs);
                return Err(fault);
            }
        }
    }
    Ok(jobs)
}

// Admits the next updater, and then accepts the next link: so a link that comes can be served.
fn accept_one<D: Door>(
    alloc: Global,
    plan: &ServePlan,
    heart: &mut Heart<HeapTheta>,
    door: &mut D,
) -> Result<Job<HeapTheta, D::Link, HelpPump>, ServeFault>
    requires can { CanServe plan.now 1 heart.old (door_of D.Door door.old) }
    ensures ready { IfOk result (λ job. IsReady plan.now heart.old.table heart.old.admitted (visit_of D.Link.Link job)) }
    ensures heart { OnOk result (heart.new ≡ record heart.old { admitted = heart.old.admitted + 1 }) }
    ensures admits { OnErr result (heart.new ≡ record heart.old { admitted = heart.new.admitted }) }
    ensures accepts { IfOk result (λ job. LetsIn (text_of (D.Link.traffic job.link) ∷ []) (door_of D.Door door.old) (door_of D.Door door.new)) }
    ensures none { OnErr result (door_of D.Door door.new ≡ record (door_of D.Door door.old) { faults = D.faults door.new }) }
    ensures net { HasNetCause (D.faults door.old) (D.faults door.new) result }
{
    let number = heart.admitted();
    match heart.admit(alloc, size_for(plan, number)) {
        Admit::Admitted(updater) => Ok(Job {
            updater,
            link: door.accept()?,
            pump: HelpPump::new(),
            end: None,
        }),
        Admit::Full => unreachable!(),
        Admit::OutOfMemory => Err(ServeFault::OutOfMemory),
    }
}

// Closes links of which nothing was read, in order.
fn close_unread<D: Door>(door: &mut D, jobs: Vec<Job<HeapTheta, D::Link, HelpPump>>)
    requires room { length jobs.items ≤ D.room door.old }
    requires unread { All (λ job. IsUnread (visit_of D.Link.Link job).link) jobs.items }
    ensures closes { ClosesUnread (texts_by (visit_of D.Link.Link) jobs.items) (door_of D.Door door.old) (door_of D.Door door.new) }
{
    'job: for job in jobs {
        let Job {
            updater: _,
            link,
            pump: _,
            end: _,
        } = job;
        door.close(link);
    }
}
