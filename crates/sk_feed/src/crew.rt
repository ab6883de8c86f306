//! The thread that reads and those that feed, and how one wakes another. No fact goes this way.
ghost use Rattle.std.specs.Prelude.{◌≡◌, length, IfOk};

use crossbeam_utils::Backoff;
use sk_model::OutOfMemory;
use std::alloc::Global;
use std::sync::Wait;
use std::sync::atomic::{AtomicBool, AtomicU64, Ordering};
use std::thread::{Parker, yield_now};

// How often the reader looks again for feeders that have not begun: if no threads can be made they begin when it has
// ended.
const PATIENCE: u32 = 4_096;

/// One reader and some feeders, each in a thread of its own.
#[derive(Drop)]
pub struct Crew {
    // whether nothing more is given
    ended: AtomicBool,
    // whether a feeder has ended
    left: AtomicBool,
    // how many feeders have begun
    begun: AtomicU64,
    reader: Parker,
    feeders: Vec<Parker>,
}

impl Crew {
    /// A reader and this many feeders, none of which has begun. An error comes only when out of memory.
    pub fn new(alloc: Global, feeders: usize) -> Result<Crew, OutOfMemory> {
        let mut parkers = Vec::new(alloc);
        'feeder: for _ in 0..feeders {
            parkers.push(Parker::new())?;
        }
        Ok(Crew {
            ended: AtomicBool::new(false),
            left: AtomicBool::new(false),
            begun: AtomicU64::new(0),
            reader: Parker::new(),
            feeders: parkers,
        })
    }

    /// A feeder begins.
    pub fn begin(&self) {
        self.begun.fetch_add(1, Ordering::SeqCst);
    }

    /// A feeder ends, and wakes the reader, which gives nothing more then.
    pub fn leave(&self) {
        self.left.store(true, Ordering::SeqCst);
        self.wake_reader();
    }

    /// The reader gives nothing more, and wakes the feeders.
    pub fn end(&self) {
        self.ended.store(true, Ordering::SeqCst);
        self.wake_feeders();
    }

    /// Whether the reader has ended.
    pub fn has_ended(&self) -> bool {
        self.ended.load(Ordering::SeqCst)
    }

    /// Whether a feeder has ended.
    pub fn has_left(&self) -> bool {
        self.left.load(Ordering::SeqCst)
    }

    /// Wakes the reader if it sleeps.
    pub fn wake_reader(&self) {
        self.reader.unpark();
    }

    /// Wakes each feeder that sleeps.
    pub fn wake_feeders(&self) {
        'feeder: for at in 0..self.feeders.len() {
            self.feeders[at].unpark();
        }
    }

    /// Feeder i waits for the reader: a short time awake, then asleep.
    pub fn wait_for_reader<R: Wait>(&self, rt: &R, i: usize, backoff: &Backoff) {
        if !backoff.is_completed() {
            backoff.snooze();
            return;
        }
        match self.feeders.get(i) {
            Some(feeder) => feeder.park(rt),
            None => yield_now(),
        }
    }

    /// Waits for a feeder to take something; `times` counts the waits so far. Returns `false` if the reader should end:
    /// a feeder has ended, or after many waits not all have begun.
    pub fn wait_for_feeders<R: Wait>(&self, rt: &R, times: u32) -> bool {
        if self.has_left() {
            return false;
        }
        if self.begun.load(Ordering::SeqCst) == self.feeders.len() as u64 {
            self.reader.park(rt);
            return true;
        }
        yield_now();
        times < PATIENCE
    }
}
