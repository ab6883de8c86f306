//! The end of a hub: the heart takes in its updaters, and a reader learns all that they kept.
ghost use Rattle.std.specs.Prelude.{◌≡◌, ◌<◌, ℕ, [], All, length, IfOk, IfErr, OnOk, OnErr};
ghost use Rattle.sk_hub.specs.Updaters.{UpdaterState, kept_of};
ghost use Rattle.sk_snap.specs.History.{entries_in, name_of};
ghost use Rattle.sk_snap.specs.Versions.{items_in};
ghost use Rattle.sk_learn.specs.Learning.{ReaderGoesOn};
ghost use Rattle.sk_learn.specs.Closing.{AreApart, counted, TakesIn, TakesFirst, GivesBack, GivesFirstBack, TakesInAll, StopsEarly, Closes};

use crate::whole::Whole;
use sk_hub::{Drain, Heart, Updater};
use sk_model::OutOfMemory;
use sk_snap::{Query, Sequential, VersionReader, Versioned};
use std::sync::Wait;

/// Takes in updaters of a hub, in order, and asks a version of exactly what they kept. It waits for ever
/// if others have kept items too. On out of memory those that were not taken in are left, in order; to continue with
/// them uses `take_in_all`, which counts over several calls.
pub fn close<S: Sequential, Q: Query<S>, W: Wait + Drop, R: Wait>(
    rt: &R,
    heart: &mut Heart<Versioned<S, W>>,
    updaters: &mut Vec<Updater<Versioned<S, W>>>,
    reader: &mut VersionReader<S>,
    query: Q,
) -> Result<Q::Answer, OutOfMemory>
    requires table { All (λ (u : UpdaterState). u.table ≡ heart.old.table) updaters.old.items }
    requires apart { AreApart updaters.old.items }
    requires name { heart.old.view.name ≡ name_of reader.old.known.book }
    requires fits { Q.fits query reader.old.numbers }
    ensures closed { OnOk result (Closes heart.old updaters.old.items reader.old heart.new reader.new) }
    ensures gives { IfOk result (λ answer. Q.gives query reader.old.numbers (items_in reader.new.known) answer) }
    ensures none { OnOk result (updaters.new.items ≡ []) }
    ensures early { OnErr result ((n : ℕ) × StopsEarly heart.old updaters.old.items reader.old 0 heart.new updaters.new.items reader.new n) }
{
    let mut taken = 0;
    take_in_all(rt, heart, updaters, reader, &mut taken)?;
    Ok(read_whole(rt, reader, query, taken))
}

/// Takes in updaters of a hub, in order, learns the told value of each one's last parcel, and counts what they kept.
/// On out of memory those that were not taken in are left, in order.
pub fn take_in_all<S: Sequential, W: Wait + Drop, R: Wait>(
    rt: &R,
    heart: &mut Heart<Versioned<S, W>>,
    updaters: &mut Vec<Updater<Versioned<S, W>>>,
    reader: &mut VersionReader<S>,
    taken: &mut u64,
) -> Result<(), OutOfMemory>
    requires table { All (λ (u : UpdaterState). u.table ≡ heart.old.table) updaters.old.items }
    requires apart { AreApart updaters.old.items }
    requires name { heart.old.view.name ≡ name_of reader.old.known.book }
    ensures all { OnOk result (TakesInAll heart.old updaters.old.items reader.old heart.new reader.new) }
    ensures none { OnOk result (updaters.new.items ≡ []) }
    ensures count { OnOk result (taken.new ≡ counted taken.old updaters.old.items) }
    ensures early { OnErr result (StopsEarly heart.old updaters.old.items reader.old taken.old heart.new updaters.new.items reader.new taken.new) }
{
    // It shows to the proof that the count is a word.
    let _before = *taken;
    'updater: while !updaters.is_empty() {
        let kept = take_in_first(rt, heart, updaters, reader)?;
        // A sum past the largest number is of no list that a reader can have.
        *taken = taken.saturating_add(kept);
    }
    Ok(())
}

// Takes in the first updater, and returns how many items it kept. On out of memory it is again the first.
fn take_in_first<S: Sequential, W: Wait + Drop, R: Wait>(
    rt: &R,
    heart: &mut Heart<Versioned<S, W>>,
    updaters: &mut Vec<Updater<Versioned<S, W>>>,
    reader: &mut VersionReader<S>,
) -> Result<u64, OutOfMemory>
    requires some { 0 < length updaters.old.items }
    requires table { All (λ (u : UpdaterState). u.table ≡ heart.old.table) updaters.old.items }
    requires name { heart.old.view.name ≡ name_of reader.old.known.book }
    ensures taken { IfOk result (λ kept. TakesFirst heart.old updaters.old.items reader.old kept heart.new updaters.new.items reader.new) }
    ensures back { OnErr result (GivesFirstBack heart.old updaters.old.items heart.new updaters.new.items) }
    ensures reader { OnErr result (reader.new ≡ reader.old) }
{
    let updater = updaters.remove(0);
    let kept = updater.taken();
    let Err(back) = take_in(rt, heart, updater, reader) else {
        return Ok(kept);
    };
    // Its place is free.
    let Ok(()) = updaters.insert(0, back) else {
        unreachable!()
    };
    Err(OutOfMemory)
}

// Takes in an updater, and learns the told value of its last parcel. On out of memory it comes back.
fn take_in<S: Sequential, W: Wait + Drop, R: Wait>(
    rt: &R,
    heart: &mut Heart<Versioned<S, W>>,
    u: Updater<Versioned<S, W>>,
    reader: &mut VersionReader<S>,
) -> Result<(), Updater<Versioned<S, W>>>
    requires table { u.table ≡ heart.old.table }
    requires name { heart.old.view.name ≡ name_of reader.old.known.book }
    ensures taken { OnOk result (TakesIn heart.old u reader.old heart.new reader.new) }
    ensures back { IfErr result (GivesBack heart.old u heart.new) }
    ensures reader { OnErr result (reader.new ≡ reader.old) }
{
    // These show to the proof that the updater is one of the hub's.
    let number = u.number();
    let _admitted = heart.admitted();
    match heart.drain(rt, u) {
        Drain::Drained => {}
        Drain::OutOfMemory(back) => return Err(back),
    }
    if let Some(told) = heart.told(number) {
        reader.learn(told);
    }
    Ok(())
}

/// Asks a version of a list of exactly `total` items, for which it waits.
pub fn read_whole<S: Sequential, Q: Query<S>, R: Wait>(
    rt: &R,
    reader: &mut VersionReader<S>,
    query: Q,
    total: u64,
) -> Q::Answer
    requires fits { Q.fits query reader.old.numbers }
    ensures gives { Q.gives query reader.old.numbers (items_in reader.new.known) result }
    ensures total { length (entries_in reader.new.known) ≡ total }
    ensures goes { ReaderGoesOn reader.old reader.new }
{
    let mut query = query;
    'again: for _ in rt.forever() {
        match reader.read(rt, Whole { total, query }) {
            Ok(answer) => return answer,
            Err(back) => query = back,
        }
    }
    unreachable!()
}
