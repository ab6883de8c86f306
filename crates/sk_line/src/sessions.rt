//! A session: one client's requests, one after another.
ghost use Rattle.std.specs.Prelude.{◌≡◌, ◌≢◌, ◌⊎◌, ℕ, List, Option, ◌+◌, ◌<◌, ◌≤◌, [], length, true, Ok, Err, IfOk};
ghost use Rattle.sk_compose.specs.Numbers.{k_of};
ghost use Rattle.sk_hub.specs.Updaters.{kept_of};
ghost use Rattle.sk_lines.specs.declared.cutter.Next.TheVariants as next;
ghost use Rattle.sk_model.specs.Causes.{HasCauseIn, Rose};
ghost use Rattle.sk_model.specs.Limits.{most_kept};
ghost use Rattle.sk_read.specs.Reading.{HasRead, remaining_of};
ghost use Rattle.sk_line.specs.Courses.{IsUnderWay, Proceeds, Advances, Comes};
ghost use Rattle.sk_line.specs.Faults.{end_by};
ghost use Rattle.sk_line.specs.Serving.{Answered};
ghost use Rattle.sk_line.specs.Sessions.{SessionState, session_state, ComesTo, SessionEnds};

use crate::answers::send_reply;
use crate::pumps::Pump;
use crate::serving::serve;
use sk_compose::ThetaWord;
use sk_hub::Updater;
use sk_io::{Link, OnLink};
use sk_read::{LineFault, LineReader};
use sk_theta::Shape;
use std::alloc::Global;
use std::sync::Wait;

/// Why a session ended.
#[derive(Clone, Copy, Debug, PartialEq, Eq)]
pub enum End {
    /// A request asked for it.
    Quit,
    /// The link was read to its end.
    Closed,
    /// A read or a write of the link failed.
    LinkFault,
    /// The request of this number, counted from 1, has more than `LINE_LIMIT` bytes.
    Long(u64),
    /// As many bytes were read as may be.
    TooMuch,
    /// No memory was found, before anything was read.
    OutOfMemory,
}

/// Answers the requests that come over a link by an updater of a hub, each before the next is
/// examined, until one asks to quit, the link ends or fails, or a request is too long; then it sends what
/// waits, and the peer sees the end. It takes fewer than `most` bytes of the link, and all its memory
/// before the first. The sketch of the hub keeps as many hashes as the shape says.
pub fn session<L: Link, P: Pump<C>, C: ThetaWord, R: Wait>(
    rt: &R,
    alloc: Global,
    link: &mut L,
    u: &mut Updater<C>,
    pump: &mut P,
    shape: &Shape,
    most: u64,
) -> End
    requires k { k_of u.old.view.numbers ≡ shape.now.k }
    requires room { length (kept_of u.old) + most ≤ most_kept }
    ensures ends { SessionEnds shape.now most (session_state (L.traffic link.old) u.old (P.pumps pump.old)) (session_state (L.traffic link.new) u.new (P.pumps pump.new)) result }
    ensures fault { result ≡ End.LinkFault → Rose (L.faults link.old) (L.faults link.new) }
    ensures steady { result ≢ End.LinkFault → L.faults link.new ≡ L.faults link.old }
    ensures sent { result ≢ End.LinkFault → result ≢ End.OutOfMemory → L.waiting link.new ≡ 0 }
    ensures untouched { result ≡ End.OutOfMemory → (link.new ≡ link.old) × (u.new ≡ u.old) × (pump.new ≡ pump.old) }
    ensures stays { P.stands_on pump.new ≡ P.stands_on pump.old }
{
    let Ok(mut reader) = LineReader::new(alloc, most) else {
        return End::OutOfMemory;
    };
    let due = serve_each(rt, link, u, pump, &mut reader, shape);
    finish(link, due)
}

// Serves requests until the session comes to an end, and returns that end.
fn serve_each<L: Link, P: Pump<C>, C: ThetaWord, R: Wait>(
    rt: &R,
    link: &mut L,
    u: &mut Updater<C>,
    pump: &mut P,
    reader: &mut LineReader,
    shape: &Shape,
) -> End
    requires k { k_of u.old.view.numbers ≡ shape.now.k }
    requires room { length (kept_of u.old) + reader.old.most ≤ most_kept }
    requires fresh { (left : Option (List ℕ)) → HasRead reader.old left [] [] }
    ensures comes { ComesTo shape.now reader.old.most (session_state (L.traffic link.old) u.old (P.pumps pump.old)) (session_state (L.traffic link.new) u.new (P.pumps pump.new)) result }
    ensures fault { result ≡ End.LinkFault → Rose (L.faults link.old) (L.faults link.new) }
    ensures steady { result ≢ End.LinkFault → L.faults link.new ≡ L.faults link.old }
    ensures memory { result ≢ End.OutOfMemory }
    ensures stays { P.stands_on pump.new ≡ P.stands_on pump.old }
{
    'request: loop {
        match serve_next(rt, link, u, pump, reader, shape) {
            Ok(()) => {}
            Err(end) => return end,
        }
    }
}

// Ends a link at the end that a session came to, unless that was a fault of the link.
fn finish<L: Link>(link: &mut L, due: End) -> End
    ensures told { (result ≡ due) ⊎ (result ≡ End.LinkFault) }
    ensures traffic { L.traffic link.new ≡ L.traffic link.old }
    ensures failed { due ≡ End.LinkFault → link.new ≡ link.old }
    ensures cause { due ≢ End.LinkFault → result ≡ End.LinkFault → Rose (L.faults link.old) (L.faults link.new) }
    ensures steady { result ≢ End.LinkFault → L.faults link.new ≡ L.faults link.old }
    ensures sent { result ≢ End.LinkFault → L.waiting link.new ≡ 0 }
{
    if due == End::LinkFault || link.finish().is_ok() {
        due
    } else {
        End::LinkFault
    }
}

// Pumps once, reads the next line, and does what it asks for.
fn serve_next<L: Link, P: Pump<C>, C: ThetaWord, R: Wait>(
    rt: &R,
    link: &mut L,
    u: &mut Updater<C>,
    pump: &mut P,
    reader: &mut LineReader,
    shape: &Shape,
) -> Result<(), End>
    requires k { k_of u.old.view.numbers ≡ shape.now.k }
    requires room { length (kept_of u.old) + remaining_of reader.old ≤ most_kept }
    ensures goes { (a : SessionState) (answered : List Answered) (taken : List ℕ) → IsUnderWay shape.now a answered taken reader.old (session_state (L.traffic link.old) u.old (P.pumps pump.old))
        → Proceeds shape.now a reader.new (session_state (L.traffic link.new) u.new (P.pumps pump.new)) result }
    ensures advances { IfOk result (λ _. Advances shape.now.k reader.old u.old reader.new u.new) }
    ensures most { reader.new.most ≡ reader.old.most }
    ensures memory { result ≢ Err End.OutOfMemory }
    ensures cause { HasCauseIn End.LinkFault (L.faults link.old) (L.faults link.new) result }
    ensures stays { P.stands_on pump.new ≡ P.stands_on pump.old }
{
    pump.pump(rt, u);
    match next_line(link, reader) {
        Ok(true) => {}
        Ok(false) => return Err(End::Closed),
        Err(fault) => return Err(end_by(fault)),
    }
    let Some(answer) = serve(rt, reader.line(), u, pump, shape) else {
        return Err(End::Quit);
    };
    match send_reply(link, answer) {
        Ok(()) => Ok(()),
        Err(_) => Err(End::LinkFault),
    }
}

// Moves on to the link's next line, and returns `false` if there is none.
fn next_line<L: Link>(link: &mut L, reader: &mut LineReader) -> Result<bool, LineFault>
    ensures comes { Comes reader.old reader.new (L.traffic link.old) (L.traffic link.new) result }
    ensures holds { result ≡ Ok true → reader.new.cutter.last ≡ next.Line }
    ensures progress { result ≡ Ok true → remaining_of reader.new < remaining_of reader.old }
    ensures most { reader.new.most ≡ reader.old.most }
    ensures cause { HasCauseIn LineFault.ReadFault (L.faults link.old) (L.faults link.new) result }
{
    next_over(&mut OnLink { link, last: 0 }, reader)
}

// The same, of what comes over the link.
fn next_over<L: Link>(
    source: &mut OnLink<'_, L>,
    reader: &mut LineReader,
) -> Result<bool, LineFault>
    ensures comes { Comes reader.old reader.new (L.traffic source.old.link.now) (L.traffic source.new.link.now) result }
    ensures holds { result ≡ Ok true → reader.new.cutter.last ≡ next.Line }
    ensures progress { result ≡ Ok true → remaining_of reader.new < remaining_of reader.old }
    ensures most { reader.new.most ≡ reader.old.most }
    ensures cause { HasCauseIn LineFault.ReadFault (L.faults source.old.link.now) (L.faults source.new.link.now) result }
    ensures link { source.new.link.ghost_name ≡ source.old.link.ghost_name }
{
    reader.next(source)
}

// How a session ends by a fault of reading.
fn end_by(fault: LineFault) -> End
    ensures value { result ≡ end_by fault }
    ensures memory { result ≢ End.OutOfMemory }
{
    match fault {
        LineFault::ReadFault => End::LinkFault,
        LineFault::LongLine(number) => End::Long(number),
        LineFault::TooMuch => End::TooMuch,
    }
}
