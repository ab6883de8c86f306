//! The command over tenants.
ghost use Rattle.std.specs.Prelude.{◌≡◌, ◌≢◌, ◌<◌, ◌≤◌, [], length, map, false, None, Err, All, OnOk, OnErr, IfOk, IfErr};
ghost use Rattle.std.specs.Io.KnownBytes.{Appends};
ghost use Rattle.sk_model.specs.Causes.{AppendsPart, HasCause, HasCauseIn};
ghost use Rattle.sk_model.specs.Limits.{source_limit, most_kept};
ghost use Rattle.sk_read.specs.Reading.{HasRead};
ghost use Rattle.sk_label.specs.Goes.{setting, Goes, ReadsLines, EndsBefore};
ghost use Rattle.sk_label.specs.Rules.{AreFine};
ghost use Rattle.sk_tenant.specs.Hosts.{AreNewTenants, AreNewDesks, IsDeskOf};
ghost use Rattle.sk_tenant.specs.Names.{bytes_of};
ghost use Rattle.sk_desks.specs.Entries.{window_lines};
ghost use Rattle.sk_desks.specs.Windows.{AreUnused, HaveTaken, WentToDesks};
ghost use Rattle.sk_desks.specs.Feeds.{IsUnused, TakesLines};
ghost use Rattle.sk_desks.specs.Plans.{IsWithin, AreNames, shape_of};
ghost use Rattle.sk_desks.specs.Desks.{desk_rules};

use crate::clerk::Clerk;
use crate::ending::text_of;
use crate::lanes::feed_in_lanes;
use crate::plan::Plan;
use crate::stretch::{Gatherer, gather_stretch};
use crate::taker::{DeskTaker, desks_of, feed_in_turn, takers_of};
use crate::window::MOST_LINES;
use sk_fill::Stretch;
use sk_io::{Sink, Source, write_all};
use sk_label::{LabelFault, read_labelled};
use sk_model::OutOfMemory;
use sk_model::limits::MOST_KEPT;
use sk_read::{Kind, LineReader};
use sk_tenant::{Desk, Names, Opening, TenantStop, Tenants};
use sk_theta::Shape;
use std::alloc::Global;
use std::mem::replace;
use std::sync::Wait;
use std::thread::Threads;

// Nobody asks before the end, and a larger batch finds more of a sketch in the cache. A buffer takes 8 bytes an item.
const LEAST_BUFFER: u32 = 512;

/// Counts the items of each of 1 to 64 tenants with different names, in a hub of its own: a line of a source of fewer than
/// `most` bytes is a name, a space and an item. Once the source has ended it writes for each name, in order, the name and
/// the estimate of its items.
pub fn tenants<S: Source, O: Sink, R: Threads + Wait + Sync>(
    rt: &R,
    alloc: Global,
    plan: &Plan,
    names: Vec<String>,
    most: u64,
    source: &mut S,
    out: &mut O,
) -> Result<(), LabelFault>
    requires within { IsWithin plan.now }
    requires names { AreNames (bytes_of names.items) }
    requires bound { most ≤ source_limit }
    ensures goes { Goes (desk_rules plan.now (bytes_of names.items)) (S.last source.new) most (setting (S.left source.old) (O.written out.old)) (setting (S.left source.new) (O.written out.new)) result }
    ensures quiet { IfErr result (λ fault. fault ≢ LabelFault.WriteFault → out.new ≡ out.old) }
    ensures reads { HasCauseIn LabelFault.ReadFault (S.faults source.old) (S.faults source.new) result }
    ensures writes { HasCauseIn LabelFault.WriteFault (O.faults out.old) (O.faults out.new) result }
    ensures stays { S.stands_on source.new ≡ S.stands_on source.old }
{
    let Opening {
        mut hosts,
        mut desks,
    } = open_desks(alloc, plan, names)?;
    read_all(rt, alloc, plan, most, source, hosts.names(), &mut desks)?;
    hosts.drain_all(rt, desks);
    let text = text_of(alloc, plan, &mut hosts)?;
    write_text(out, text.as_slice())?;
    Ok(())
}

// Writes a text.
fn write_text<O: Sink>(out: &mut O, text: &[u8]) -> Result<(), LabelFault>
    ensures ok { OnOk result (Appends (O.written out.old) (O.written out.new) text.now) }
    ensures part { OnErr result (AppendsPart (O.written out.old) (O.written out.new) text.now) }
    ensures fault { IfErr result (λ fault. fault ≡ LabelFault.WriteFault) }
    ensures cause { HasCause (O.faults out.old) (O.faults out.new) result }
{
    write_all(out, text).map_err(|_| LabelFault::WriteFault)
}

// The tenants of a plan. A desk may keep 2^40 items for each, which is as many as a source has lines.
fn open_desks(alloc: Global, plan: &Plan, names: Vec<String>) -> Result<Opening, OutOfMemory>
    requires within { IsWithin plan.now }
    requires names { AreNames (bytes_of names.items) }
    ensures hosts { IfOk result (λ opening. AreNewTenants (bytes_of names.items) (shape_of plan.now) opening.hosts) }
    ensures count { IfOk result (λ opening. length opening.desks.items ≡ plan.now.updaters) }
    ensures desks { IfOk result (λ opening. AreNewDesks opening.hosts (shape_of plan.now) most_kept opening.desks.items) }
    ensures of_hosts { IfOk result (λ opening. All (IsDeskOf opening.hosts) opening.desks.items) }
{
    let size = plan.size.max(LEAST_BUFFER);
    let Ok(shape) = Shape::new(plan.k, size, plan.updaters, plan.seed, false) else {
        unreachable!()
    };
    match Tenants::open(alloc, names, &shape, MOST_KEPT) {
        Ok(opening) => Ok(opening),
        Err(TenantStop::OutOfMemory) => Err(OutOfMemory),
        Err(TenantStop::Twice(_)) => unreachable!(),
    }
}

// Reads a source to its end, and gives its lines to the desks.
fn read_all<S: Source, R: Threads + Wait + Sync>(
    rt: &R,
    alloc: Global,
    plan: &Plan,
    most: u64,
    source: &mut S,
    names: &Names,
    desks: &mut Vec<Desk>,
) -> Result<(), LabelFault>
    requires bound { most ≤ source_limit }
    requires unused { AreUnused names.now desks.old.items }
    ensures read { IfOk result (λ _. ReadsLines most (λ lines. AreFine (desk_rules plan.now names.now) lines × HaveTaken plan.now.seed desks.old.items desks.new.items lines)
        (S.left source.old) (S.left source.new)) }
    ensures early { IfErr result (EndsBefore (desk_rules plan.now names.now) (S.last source.new) most (setting (S.left source.old) None) (setting (S.left source.new) None)) }
    ensures quiet { result ≢ Err LabelFault.WriteFault }
    ensures reads { HasCauseIn LabelFault.ReadFault (S.faults source.old) (S.faults source.new) result }
    ensures stays { S.stands_on source.new ≡ S.stands_on source.old }
{
    if desks.len() == 1 {
        return read_alone(rt, alloc, plan, most, source, &mut desks[0]);
    }
    let mut takers = takers_of(alloc, replace(desks, Vec::new(alloc)))?;
    let mut gatherer = Gatherer {
        alloc,
        names,
        reader: LineReader::new(alloc, most)?,
    };
    let mut last = Stretch::new(alloc, MOST_LINES);
    read_stretches(
        rt,
        alloc,
        plan,
        &mut takers,
        &mut gatherer,
        source,
        &mut last,
    )?;
    feed_in_turn(rt, &mut takers, &last, plan.seed);
    *desks = desks_of(alloc, takers)?;
    Ok(())
}

// Reads a source to its end, and gives each of its lines to the one desk at once.
fn read_alone<S: Source, R: Wait>(
    rt: &R,
    alloc: Global,
    plan: &Plan,
    most: u64,
    source: &mut S,
    desk: &mut Desk,
) -> Result<(), LabelFault>
    requires bound { most ≤ source_limit }
    requires unused { IsUnused desk.old.names desk.old }
    ensures read { IfOk result (λ _. ReadsLines most (λ lines. AreFine (desk_rules plan.now desk.old.names) lines × TakesLines plan.now.seed desk.old lines desk.new)
        (S.left source.old) (S.left source.new)) }
    ensures early { IfErr result (EndsBefore (desk_rules plan.now desk.old.names) (S.last source.new) most (setting (S.left source.old) None) (setting (S.left source.new) None)) }
    ensures quiet { result ≢ Err LabelFault.WriteFault }
    ensures reads { HasCauseIn LabelFault.ReadFault (S.faults source.old) (S.faults source.new) result }
    ensures stays { S.stands_on source.new ≡ S.stands_on source.old }
{
    let mut clerk = Clerk {
        rt,
        plan: *plan,
        desk,
    };
    read_with(alloc, most, source, &mut clerk)
}

// The same, with the clerk at hand.
fn read_with<S: Source, R: Wait>(
    alloc: Global,
    most: u64,
    source: &mut S,
    clerk: &mut Clerk<'_, '_, R>,
) -> Result<(), LabelFault>
    requires bound { most ≤ source_limit }
    requires unused { IsUnused clerk.old.desk.now.names clerk.old.desk.now }
    ensures read { IfOk result (λ _. ReadsLines most (λ lines. AreFine (desk_rules clerk.old.plan clerk.old.desk.now.names) lines × TakesLines clerk.old.plan.seed clerk.old.desk.now lines clerk.new.desk.now)
        (S.left source.old) (S.left source.new)) }
    ensures early { IfErr result (EndsBefore (desk_rules clerk.old.plan clerk.old.desk.now.names) (S.last source.new) most (setting (S.left source.old) None) (setting (S.left source.new) None)) }
    ensures quiet { result ≢ Err LabelFault.WriteFault }
    ensures reads { HasCauseIn LabelFault.ReadFault (S.faults source.old) (S.faults source.new) result }
    ensures stays { S.stands_on source.new ≡ S.stands_on source.old }
    ensures desk { clerk.new.desk.ghost_name ≡ clerk.old.desk.ghost_name }
{
    read_labelled(alloc, most, source, clerk)?;
    Ok(())
}

// Gathers the lines of a source, and feeds each stretch of windows to the desks but the last one.
fn read_stretches<S: Source, R: Threads + Wait + Sync>(
    rt: &R,
    alloc: Global,
    plan: &Plan,
    takers: &mut Vec<DeskTaker>,
    gatherer: &mut Gatherer<'_>,
    source: &mut S,
    last: &mut Stretch,
) -> Result<(), LabelFault>
    requires unused { AreUnused gatherer.old.names.now (map (λ t. t.desk) takers.old.items) }
    requires none { HasRead gatherer.old.reader (S.left source.old) [] [] }
    requires piece { gatherer.old.reader.last ≤ S.last source.old }
    requires most { last.old.most ≡ window_lines }
    ensures went { OnOk result (WentToDesks plan.now gatherer.old.names.now (map (λ t. t.desk) takers.old.items) (map (λ t. t.desk) takers.new.items) last.new false gatherer.new.reader (S.left source.old) (S.left source.new)) }
    ensures bound { OnOk result (gatherer.new.reader.most ≡ gatherer.old.reader.most) }
    ensures piece { gatherer.new.reader.last ≤ S.last source.new }
    ensures early { IfErr result (EndsBefore (desk_rules plan.now gatherer.old.names.now) (S.last source.new) gatherer.old.reader.most (setting (S.left source.old) None) (setting (S.left source.new) None)) }
    ensures quiet { result ≢ Err LabelFault.WriteFault }
    ensures reads { HasCauseIn LabelFault.ReadFault (S.faults source.old) (S.faults source.new) result }
    ensures stays { S.stands_on source.new ≡ S.stands_on source.old }
{
    let kind = Kind::Hash(plan.seed);
    let mut more = gather_stretch(gatherer, source, last)?;
    'stretch: while more {
        more = feed_in_lanes(rt, alloc, kind, takers, gatherer, source, last)?;
    }
    Ok(())
}
