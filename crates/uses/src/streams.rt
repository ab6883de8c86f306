//! Streams of items that one hub counts, each fed in a thread of its own.
ghost use Rattle.std.specs.Prelude.{◌≡◌, ◌<◌, ◌≤◌, List, [], length, map, flat_map, slice_index_or, All, IfOk};
ghost use Rattle.sk_compose.specs.Numbers.{k_of};
ghost use Rattle.sk_hub.specs.Calls.{Takes};
ghost use Rattle.sk_hub.specs.Updaters.{kept_of};
ghost use Rattle.sk_model.specs.Entries.{Entry};
ghost use Rattle.sk_model.specs.Limits.{most_kept};
ghost use Rattle.sk_model.specs.Sketch.{packed_of};
ghost use Rattle.sk_model.specs.Width.{AreItems};
ghost use Rattle.uses.specs.Fed.{TakeEach, AreFed};
ghost use Rattle.uses.specs.Words.{AreWords};

use crate::feeding::feed_all;
use sk_compose::laws::kept::{kept_stays, the_word_is_of_all_items};
use sk_compose::{Composable, ThetaKind};
use sk_feed::drain_all;
use sk_hub::{Opened, Token, Updater, open};
use sk_model::OutOfMemory;
use sk_theta::Shape;
use std::alloc::Global;
use std::marker::PhantomData;
use std::sync::Wait;
use std::thread;
use std::thread::Threads;

/// What a hub answered: its token while the updaters were fed, and its heart once all was drained.
#[derive(Drop)]
pub struct Counted {
    pub meanwhile: Vec<u64>,
    pub last: u64,
}

/// Feeds each stream to an updater in a thread of its own, while a token is asked `asks` times. The
/// last word is one thread's, over the items of all streams.
pub fn count_streams<C: ThetaKind + Send, R: Threads + Wait + Sync>(
    rt: &R,
    alloc: Global,
    shape: &Shape,
    global: C,
    streams: &[Vec<u64>],
    asks: usize,
) -> Result<Counted, OutOfMemory>
where
    C::Told: Send,
    requires fresh { C.is_of global [] }
    requires count { length streams.now ≡ shape.now.n }
    requires items { All (λ stream. AreItems stream.items) streams.now }
    requires room { All (λ stream. length stream.items ≤ most_kept) streams.now }
    ensures last { IfOk result (λ counted. counted.last
        ≡ packed_of (k_of (C.numbers global)) (flat_map (λ stream. stream.items) streams.now)) }
    ensures asked { IfOk result (λ counted. length counted.meanwhile.items ≡ asks) }
    ensures meanwhile { IfOk result (λ counted. (to : List Entry)
        × AreWords (C.packed_of (C.numbers global)) shape.now.n [] counted.meanwhile.items to) }
{
    let Opened {
        mut heart,
        updaters,
        token,
    } = open(alloc, shape, global)?;
    let (updaters, words) = thread::join(
        rt,
        ||
            requires count { length updaters.items ≡ length streams.now }
            requires items { All (λ stream. AreItems stream.items) streams.now }
            requires room { All (λ stream. length stream.items ≤ most_kept) streams.now }
            requires none { All (λ u. kept_of u ≡ []) updaters.items }
        { feed_streams(rt, updaters, streams) },
        || ask_often(alloc, token, asks),
    );
    let meanwhile = words?;
    let last = drain_all(rt, &mut heart, updaters)?;
    // These show the proof that the word of what was kept is that of all items.
    kept_stays();
    the_word_is_of_all_items::<C>(PhantomData);
    Ok(Counted { meanwhile, last })
}

// Asks a token `asks` times, and returns the words.
fn ask_often<C: Composable>(
    alloc: Global,
    token: Token<C>,
    asks: usize,
) -> Result<Vec<u64>, OutOfMemory>
    ensures count { IfOk result (λ words. length words.items ≡ asks) }
    ensures words { IfOk result (λ words. (to : List Entry)
        × AreWords (C.packed_of token.view.numbers) (length token.view.sizes) token.view.seen
        words.items to) }
{
    let mut token = token;
    let mut words = Vec::new(alloc);
    'ask: for _ in 0..asks {
        words.push(token.ask())?;
    }
    Ok(words)
}

// Feeds each stream to its updater, in a thread of its own.
pub(crate) fn feed_streams<C: Composable + Send, R: Threads + Wait + Sync>(
    rt: &R,
    updaters: Vec<Updater<C>>,
    streams: &[Vec<u64>],
) -> Vec<Updater<C>>
where
    C::Told: Send,
    requires count { length updaters.items ≡ length streams.now }
    requires items { All (λ stream. AreItems stream.items) streams.now }
    requires room { All (λ stream. length stream.items ≤ most_kept) streams.now }
    requires none { All (λ u. kept_of u ≡ []) updaters.items }
    ensures { AreFed C.keeps_of C.hint_of updaters.items
        (map (λ stream. stream.items) streams.now) result.items }
{
    let mut updaters = updaters;
    feed_each(rt, updaters.as_mut_slice(), streams);
    updaters
}

// Split off for the proof: borrows only the updaters.
fn feed_each<C: Composable + Send, R: Threads + Wait + Sync>(
    rt: &R,
    updaters: &mut [Updater<C>],
    streams: &[Vec<u64>],
)
where
    C::Told: Send,
    requires count { length updaters.old ≡ length streams.now }
    requires items { All (λ stream. AreItems stream.items) streams.now }
    requires room { All (λ stream. length stream.items ≤ most_kept) streams.now }
    requires none { All (λ u. kept_of u ≡ []) updaters.old }
    ensures { TakeEach C.keeps_of C.hint_of updaters.old
        (map (λ stream. stream.items) streams.now) updaters.new }
{
    let threads = updaters.len().max(1);
    thread::for_each_mut(
        rt,
        updaters,
        threads,
        &|i, updater| feed_stream(rt, updater, streams, i),
    );
}

// Feeds one of the streams to a new updater.
fn feed_stream<C: Composable, R: Wait>(
    rt: &R,
    updater: &mut Updater<C>,
    streams: &[Vec<u64>],
    i: usize,
)
    requires within { i < length streams.now }
    requires items { All (λ stream. AreItems stream.items) streams.now }
    requires room { All (λ stream. length stream.items ≤ most_kept) streams.now }
    requires none { kept_of updater.old ≡ [] }
    ensures { Takes C.keeps_of C.hint_of updater.old
        (slice_index_or (map (λ stream. stream.items) streams.now) i []) updater.new }
{
    feed_all(rt, updater, streams[i].as_slice());
}
