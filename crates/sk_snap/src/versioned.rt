//! The sketch that is read by versions, under a writer.
ghost use Rattle.std.specs.Prelude.{◌≡◌, ◌∷◌, ◌++◌, ◌+◌, ◌≤◌, ◌<◌, ◌^◌, [], drop, length, IfOk, IfErr, IfSome, MatchResult, None, is_ok};
ghost use Rattle.left_right.specs.Sides.{view};
ghost use Rattle.sk_snap.specs.History.{length_word, entries_in};
ghost use Rattle.sk_snap.specs.Versions.{IsVersion, IsWriting, IsOf, Refuses, HasMerged, Continues, WillContinue, CanTake, HasTaken, with_batch, about, items_in};
ghost use Rattle.sk_model.specs.Entries.{tagged};
ghost use Rattle.sk_model.specs.Width.{AreItems};

use crate::history::{History, Known};
use crate::reader::VersionReader;
use crate::rule::{About, Other, Publishes, Twice, Versions};
use crate::sequential::Sequential;
use crate::version::{Batch, Version};
use left_right::Absorb;
use left_right::reader::Reader;
use left_right::writer::Writer;
use sk_model::OutOfMemory;
use std::alloc::Global;
use std::marker::Model;
use std::sync::Wait;

/// A sketch that readers see by versions: each merge of a batch publishes one. It keeps the runtime,
/// since its end waits for a reader that is inside a call.
pub struct Versioned<S: Sequential, R: Wait + Drop>
where
    Version<S>: Absorb<Batch<S>, State = Version<S>>,
{
    // It is there except within a merge.
    writer: Option<Writer<Version<S>, Batch<S>, About, Versions>>,
    history: History,
    // The history has it already, so no other is taken until it is merged.
    refused: Option<Batch<S>>,
    alloc: Global,
    rt: R,
}

impl<S: Sequential, R: Wait + Drop> Model for Versioned<S, R>
where
    Version<S>: Absorb<Batch<S>, State = Version<S>>,
{
    ghost use Rattle.std.specs.Prelude.{◌≡◌, [], drop, Some};
    ghost use Rattle.std.specs.Option.{option_map_or};
    ghost use Rattle.sk_snap.specs.Versions.{VersionedState, IsWriting, no_history};

    ghost Value = { VersionedState };

    ghost view = { λ s. record {
      numbers = option_map_or (λ w. S.numbers w.desk.shown.value.sketch) s.writer [];
      known = option_map_or (λ w. w.desk.shown.value.known) s.writer no_history;
      refused = s.refused;
    } };

    ghost invariant = { λ s. (w : _) × (s.writer ≡ Some w)
        × IsWriting S.is_of w.desk.shown.value (drop w.behind w.log.items) s.history.word s.refused };
}

impl<S: Sequential, R: Wait + Drop> Drop for Versioned<S, R> {
    fn drop(self) {
        let Self {
            writer,
            history: _history,
            refused: _refused,
            alloc: _,
            rt,
        } = self;
        if let Some(writer) = writer {
            drop(writer.take(&rt));
        }
    }
}

// A batch as the versions take it after this one: the refused one, if it is the same, or else a new one.
fn next_batch<S: Sequential>(
    alloc: Global,
    history: &History,
    version: &Version<S>,
    refused: &mut Option<Batch<S>>,
    from: u32,
    items: &[u64],
) -> Result<Batch<S>, OutOfMemory>
    requires items { AreItems items.now }
    requires word { history.now.word ≡ length_word version.now.known.book }
    requires refused { WillContinue version.now.known refused.old }
    ensures batch { IfOk result (λ batch. IsOf from items.now batch) }
    ensures continues { IfOk result (λ batch. Continues version.now.known batch) }
    ensures first { IfOk result (λ batch. IfSome refused.old (λ other. other ≡ batch)) }
    ensures none { IfOk result (λ _. refused.new ≡ None) }
    ensures kept { IfErr result (λ _. refused.new ≡ refused.old) }
{
    if let Some(batch) = refused.take() {
        if batch.is(from, items) {
            return Ok(batch);
        }
        *refused = Some(batch);
        return Err(OutOfMemory);
    }
    let mut copy = Vec::with_capacity(alloc, items.len())?;
    copy.extend_from_slice(items)?;
    let prepared = version.sketch.prepare(alloc, items)?;
    match history.add(&version.known, from, items) {
        Some(known) => Ok(Batch {
            from,
            items: copy,
            prepared,
            known,
        }),
        None => Err(OutOfMemory),
    }
}

// Appends a batch and publishes it.
fn give<S: Sequential, W: Wait>(
    writer: Writer<Version<S>, Batch<S>, About, Versions>,
    rt: &W,
    batch: Batch<S>,
) -> (
    Writer<Version<S>, Batch<S>, About, Versions>,
    Result<(), Batch<S>>,
)
    requires takes { CanTake writer.desk.shown.value (drop writer.behind writer.log.items) batch }
    ensures taken { HasTaken S.after writer.desk.shown.value result.0.desk.shown.value
        (drop result.0.behind result.0.log.items) batch result.1 }
{
    let mut writer = writer;
    match writer.append(batch) {
        Ok(()) => {
            let (writer, _published) = writer.publish_as::<Publishes, W>(rt);
            (writer, Ok(()))
        }
        Err(batch) => (writer, Err(batch)),
    }
}

// Makes a reader that knows what the versions are of.
fn paired<S: Sequential, W: Wait>(
    writer: Writer<Version<S>, Batch<S>, About, Versions>,
    rt: &W,
) -> (
    Writer<Version<S>, Batch<S>, About, Versions>,
    Result<Reader<Version<S>, About, Versions>, OutOfMemory>,
)
    requires pending { drop writer.behind writer.log.items ≡ [] }
    ensures pending { drop result.0.behind result.0.log.items ≡ [] }
    ensures shown { result.0.desk.shown.value ≡ writer.desk.shown.value }
    ensures view { IfOk result.1 (λ reader. view reader.place ≡ about S.numbers writer.desk.shown.value) }
{
    let (writer, _published) = writer.publish_as::<Publishes, W>(rt);
    let mut writer = writer;
    match writer.factory().reader() {
        Ok(mut reader) => {
            reader.learn::<Other>(writer.tell::<Twice>());
            (writer, Ok(reader))
        }
        Err(_) => (writer, Err(OutOfMemory)),
    }
}

impl<S: Sequential, R: Wait + Drop> Versioned<S, R> {
    /// The sketch of the empty list, and its reader.
    #[tactic(auto, unfolding(crate::specs::History::joined))]
    pub fn new(
        alloc: Global,
        rt: R,
        setup: S::Setup,
    ) -> Result<(Versioned<S, R>, VersionReader<S>), OutOfMemory>
        requires fits { S.fits setup }
        ensures numbers { IfOk result (λ made. (made.0.numbers ≡ S.numbers (S.opened setup))
            × (made.1.numbers ≡ S.numbers (S.opened setup))) }
        ensures list { IfOk result (λ made. entries_in made.0.known ≡ []) }
        ensures learnt { IfOk result (λ made. entries_in made.1.known ≡ []) }
        ensures name { IfOk result (λ made. made.1.known.book ≡ made.0.known.book) }
        ensures refused { IfOk result (λ made. made.0.refused ≡ None) }
    {
        let first = S::open(alloc, setup)?;
        let second = S::open(alloc, setup)?;
        let (history, known) = History::new();
        let learnt = known.again();
        let spare = Version {
            sketch: second,
            known: known.again(),
        };
        let first = Version {
            sketch: first,
            known,
        };
        let writer = Writer::new(alloc, first, spare, 1)?;
        let (writer, reader) = paired(writer, &rt);
        let sketch = Versioned {
            writer: Some(writer),
            history,
            refused: None,
            alloc,
            rt,
        };
        Ok((sketch, VersionReader::over(reader?, learnt)))
    }

    /// How many items its list has.
    pub fn len(&self) -> u64
        ensures value { result ≡ length (items_in self.now.known) }
        ensures entries { result ≡ length (entries_in self.now.known) }
    {
        self.version().known.count()
    }

    // The version that is published.
    pub(crate) fn version(&self) -> &Version<S>
        ensures known { result.now.known ≡ self.now.known }
        ensures numbers { S.numbers result.now.sketch ≡ self.now.numbers }
        ensures whole { IsVersion S.is_of result.now }
    {
        match &self.writer {
            Some(writer) => writer.published(),
            None => unreachable!(),
        }
    }

    // Merges a batch, or publishes nothing. A batch that is refused may stay in the history: until that batch comes again
    // and is merged, each other one is refused too.
    pub(crate) fn merge_items<W: Wait>(
        &mut self,
        rt: &W,
        from: u32,
        items: &[u64],
    ) -> Result<(), OutOfMemory>
        requires items { AreItems items.now }
        requires room { length (entries_in self.old.known) + length items.now ≤ 2 ^ 46 }
        ensures entries { IfOk result (λ _. entries_in self.new.known
            ≡ entries_in self.old.known ++ tagged from items.now) }
        ensures unmerged { IfErr result (λ _. self.new.known ≡ self.old.known) }
        ensures refused { Refuses self.old.refused self.new.refused from items.now (is_ok result) }
        ensures numbers { self.new.numbers ≡ self.old.numbers }
        ensures name { self.new.known.book ≡ self.old.known.book }
    {
        let writer = self.writer.take().unwrap();
        let (writer, done) = merged(
            writer,
            rt,
            self.alloc,
            &self.history,
            &mut self.refused,
            from,
            items,
        );
        // None is there, since it was taken out.
        if let Some(other) = self.writer.replace(writer) {
            drop(other.take(rt));
        }
        if done { Ok(()) } else { Err(OutOfMemory) }
    }
}

// Merges a batch, or publishes nothing, and returns whether it did.
fn merged<S: Sequential, W: Wait>(
    writer: Writer<Version<S>, Batch<S>, About, Versions>,
    rt: &W,
    alloc: Global,
    history: &History,
    refused: &mut Option<Batch<S>>,
    from: u32,
    items: &[u64],
) -> (Writer<Version<S>, Batch<S>, About, Versions>, bool)
    requires writing { IsWriting S.is_of writer.desk.shown.value (drop writer.behind writer.log.items)
        history.now.word refused.old }
    requires items { AreItems items.now }
    requires room { length (items_in writer.desk.shown.value.known) + length items.now ≤ 2 ^ 46 }
    ensures writing { IsWriting S.is_of result.0.desk.shown.value
        (drop result.0.behind result.0.log.items) history.now.word refused.new }
    ensures merged { HasMerged S.numbers writer.desk.shown.value result.0.desk.shown.value from
        items.now result.1 }
    ensures refused { Refuses refused.old refused.new from items.now result.1 }
{
    let version = writer.published();
    let Ok(batch) = next_batch(alloc, history, version, refused, from, items) else {
        return (writer, false);
    };
    let (writer, given) = give(writer, rt, batch);
    match given {
        Ok(()) => (writer, true),
        Err(batch) => {
            *refused = Some(batch);
            (writer, false)
        }
    }
}
