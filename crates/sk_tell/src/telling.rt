//! The source, read, counted and written of.
ghost use Rattle.std.specs.Prelude.{◌≡◌, ◌≢◌, ◌≤◌, ℕ, List, None, OnOk, OnErr, IfOk, IfErr};
ghost use Rattle.std.specs.Io.KnownBytes.{Appends};
ghost use Rattle.sk_model.specs.Causes.{AppendsPart, HasCause, HasCauseIn};
ghost use Rattle.sk_model.specs.Limits.{source_limit, IsFrom};
ghost use Rattle.sk_fill.specs.Windows.{most_lines};
ghost use Rattle.sk_feed.specs.Hubs.{hub_of};
ghost use Rattle.sk_tell.specs.Manners.{manner_by, window_by, intake_by, buffer_size_by, CanTell};
ghost use Rattle.sk_tell.specs.Feeding.{IsOpened, IsNewReader, Fed};
ghost use Rattle.sk_tell.specs.Endings.{setting, TellsOrEnds, EndsAt, ReadsUnits};

use crate::ending::{finish, let_go};
use crate::interim::Interim;
use crate::line::Line;
use crate::opening::{buffer_size, open_all};
use sk_hub::{Heart, Opened};
use sk_ingest::ingest;
use sk_io::{Sink, Source};
use sk_read::{Fault, Intake, Kind};
use sk_report::USUAL_WINDOW;
use sk_snap::{Sequential, VersionReader, Versioned};
use std::alloc::Global;
use std::sync::Wait;
use std::thread::Threads;

/// What is read of a source, by which sketch and which updaters, and what is asked of it.
#[derive(Clone, Copy, Debug, PartialEq, Eq)]
pub struct Telling<A, Q> {
    /// What the sketch is opened with.
    pub setup: A,
    /// What is asked of it.
    pub query: Q,
    /// How a unit becomes an item.
    pub kind: Kind,
    /// The units: the lines at 0, else the fields in this column, counted from 1, of the records.
    pub column: u32,
    /// How many items a buffer of each updater holds, at least if no interim line is written.
    pub size: u32,
    /// How many updaters there are.
    pub updaters: u32,
    /// With a number n an interim line is written after each n units.
    pub window: Option<u32>,
    /// Whether a propagator of its own runs next to the updaters.
    pub propagator: bool,
}

/// What is left in the end: the heart of its hub, and the reader of its sketch.
pub type Handles<S, W> = (Heart<Versioned<S, W>>, VersionReader<S>);

/// Reads the units of a source of fewer than `most` bytes, and once it has ended writes the line of all their items. After
/// each full window that is asked for it writes, after the number of units, the line of what the updaters know by then.
pub fn tell<
    'r,
    S: Sequential + Send + Sync,
    Q: Line<S>,
    I: Source,
    O: Sink,
    R: Threads + Wait + Sync,
>(
    rt: &'r R,
    alloc: Global,
    telling: &Telling<S::Setup, Q>,
    most: u64,
    source: &mut I,
    out: &mut O,
) -> Result<Handles<S, &'r R>, Fault>
where
    S::Setup: Send + Sync,
    S::Prepared: Send + Sync,
    requires can { CanTell S.fits S.keeps_of telling.now }
    requires bound { most ≤ source_limit }
    ensures tells { TellsOrEnds (manner_by (S.numbers (S.opened telling.now.setup)) Q.line Q.lower Q.upper telling.now) (I.last source.new) most
        (setting (I.left source.old) (O.written out.old)) (setting (I.left source.new) (O.written out.new)) result }
    ensures quiet { telling.now.window ≡ None → IfErr result (λ fault. fault ≢ Fault.WriteFault → out.new ≡ out.old) }
    ensures reads { HasCauseIn Fault.ReadFault (I.faults source.old) (I.faults source.new) result }
    ensures writes { HasCauseIn Fault.WriteFault (O.faults out.old) (O.faults out.new) result }
    ensures stays { I.stands_on source.new ≡ I.stands_on source.old }
{
    tell_over(rt, rt, alloc, telling, most, source, out)
}

// Split off for the proof: the runtime that the sketch keeps has a type of its own.
fn tell_over<
    S: Sequential + Send + Sync,
    Q: Line<S>,
    I: Source,
    O: Sink,
    R: Threads + Wait + Sync,
    W: Wait + Drop + Send,
>(
    rt: &R,
    waits: W,
    alloc: Global,
    telling: &Telling<S::Setup, Q>,
    most: u64,
    source: &mut I,
    out: &mut O,
) -> Result<Handles<S, W>, Fault>
where
    S::Setup: Send + Sync,
    S::Prepared: Send + Sync,
    requires can { CanTell S.fits S.keeps_of telling.now }
    requires bound { most ≤ source_limit }
    ensures tells { TellsOrEnds (manner_by (S.numbers (S.opened telling.now.setup)) Q.line Q.lower Q.upper telling.now) (I.last source.new) most
        (setting (I.left source.old) (O.written out.old)) (setting (I.left source.new) (O.written out.new)) result }
    ensures quiet { telling.now.window ≡ None → IfErr result (λ fault. fault ≢ Fault.WriteFault → out.new ≡ out.old) }
    ensures reads { HasCauseIn Fault.ReadFault (I.faults source.old) (I.faults source.new) result }
    ensures writes { HasCauseIn Fault.WriteFault (O.faults out.old) (O.faults out.new) result }
    ensures stays { I.stands_on source.new ≡ I.stands_on source.old }
{
    let size = buffer_size(telling.window, telling.size);
    let (opened, reader) = open_all(alloc, waits, telling.setup, telling.updaters, size)?;
    let mut opened = opened;
    let mut reader = reader;
    match feed(
        rt,
        alloc,
        telling,
        most,
        source,
        out,
        &mut opened,
        &mut reader,
    ) {
        Ok(()) => finish(rt, opened, reader, telling.query, out),
        Err(fault) => Err(let_go(opened, reader, fault)),
    }
}

// Reads a source to its end, and feeds it to a hub.
fn feed<
    S: Sequential + Send + Sync,
    Q: Line<S>,
    I: Source,
    O: Sink,
    R: Threads + Wait + Sync,
    W: Wait + Drop + Send,
>(
    rt: &R,
    alloc: Global,
    telling: &Telling<S::Setup, Q>,
    most: u64,
    source: &mut I,
    out: &mut O,
    opened: &mut Opened<Versioned<S, W>>,
    reader: &mut VersionReader<S>,
) -> Result<(), Fault>
where
    S::Setup: Send + Sync,
    S::Prepared: Send + Sync,
    requires can { CanTell S.fits S.keeps_of telling.now }
    requires bound { most ≤ source_limit }
    requires opened { IsOpened telling.now.updaters (buffer_size_by telling.now.window telling.now.size) (hub_of opened.old) }
    requires reader { IsNewReader (S.numbers (S.opened telling.now.setup)) opened.old.heart.view.name reader.old }
    ensures fed { IfOk result (λ _. ReadsUnits telling.now.column most (Fed (manner_by (S.numbers (S.opened telling.now.setup)) Q.line Q.lower Q.upper telling.now)
        (O.written out.old) (O.written out.new) (hub_of opened.new) reader.new) (I.left source.old) (I.left source.new)) }
    ensures early { IfErr result (EndsAt (manner_by (S.numbers (S.opened telling.now.setup)) Q.line Q.lower Q.upper telling.now) (I.last source.new) most
        (setting (I.left source.old) (O.written out.old)) (setting (I.left source.new) (O.written out.new))) }
    ensures quiet { telling.now.window ≡ None → out.new ≡ out.old }
    ensures reads { HasCauseIn Fault.ReadFault (I.faults source.old) (I.faults source.new) result }
    ensures writes { HasCauseIn Fault.WriteFault (O.faults out.old) (O.faults out.new) result }
    ensures stays { I.stands_on source.new ≡ I.stands_on source.old }
{
    let mut report = Interim {
        rt,
        query: &telling.query,
        out,
        reader,
    };
    feed_reported(rt, alloc, telling, most, source, opened, &mut report)
}

// Split off for the proof: borrows the report.
fn feed_reported<
    S: Sequential + Send + Sync,
    Q: Line<S>,
    I: Source,
    O: Sink,
    R: Threads + Wait + Sync,
    W: Wait + Drop + Send,
>(
    rt: &R,
    alloc: Global,
    telling: &Telling<S::Setup, Q>,
    most: u64,
    source: &mut I,
    opened: &mut Opened<Versioned<S, W>>,
    report: &mut Interim<'_, '_, '_, '_, S, Q, O, R>,
) -> Result<(), Fault>
where
    S::Setup: Send + Sync,
    S::Prepared: Send + Sync,
    requires can { CanTell S.fits S.keeps_of telling.now }
    requires bound { most ≤ source_limit }
    requires opened { IsOpened telling.now.updaters (buffer_size_by telling.now.window telling.now.size) (hub_of opened.old) }
    requires reader { IsNewReader (S.numbers (S.opened telling.now.setup)) opened.old.heart.view.name report.old.reader.now }
    requires query { report.old.query.now ≡ telling.now.query }
    ensures fed { IfOk result (λ _. ReadsUnits telling.now.column most (Fed (manner_by (S.numbers (S.opened telling.now.setup)) Q.line Q.lower Q.upper telling.now)
        (O.written report.old.out.now) (O.written report.new.out.now) (hub_of opened.new) report.new.reader.now) (I.left source.old) (I.left source.new)) }
    ensures early { IfErr result (EndsAt (manner_by (S.numbers (S.opened telling.now.setup)) Q.line Q.lower Q.upper telling.now) (I.last source.new) most
        (setting (I.left source.old) (O.written report.old.out.now)) (setting (I.left source.new) (O.written report.new.out.now))) }
    ensures quiet { telling.now.window ≡ None → report.new ≡ report.old }
    ensures reads { HasCauseIn Fault.ReadFault (I.faults source.old) (I.faults source.new) result }
    ensures writes { HasCauseIn Fault.WriteFault (O.faults report.old.out.now) (O.faults report.new.out.now) result }
    ensures stays { I.stands_on source.new ≡ I.stands_on source.old }
    ensures out { report.new.out.ghost_name ≡ report.old.out.ghost_name }
    ensures reader { report.new.reader.ghost_name ≡ report.old.reader.ghost_name }
{
    let intake = intake_of(telling, most);
    ingest(rt, alloc, &intake, source, opened, report)?;
    Ok(())
}

// What is read of a source.
fn intake_of<A, Q>(telling: &Telling<A, Q>, most: u64) -> Intake
    ensures { result ≡ intake_by telling.now most }
{
    Intake {
        kind: telling.kind,
        column: telling.column,
        window: telling.window.unwrap_or(USUAL_WINDOW),
        interim: telling.window.is_some(),
        propagator: telling.propagator,
        most,
    }
}
