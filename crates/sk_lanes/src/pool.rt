//! Stretches that are read anew once nobody feeds from them.
ghost use Rattle.std.specs.Prelude.{◌≡◌, ◌<◌, ◌≤◌, true, IfSome};
ghost use Rattle.sk_fill.specs.Windows.{most_lines};

use sk_feed::{Crew, Delivery, MOST_GIVEN};
use sk_fill::Stretch;
use sk_model::OutOfMemory;
use std::alloc::Global;
use std::marker::Model;
use std::sync::Wait;

// After the first there are no more than have this many bytes, about: a page that is touched for the first time is dear.
const FULL_BYTES: usize = 8_388_608;

// The stretches that were given last.
#[derive(Drop)]
pub(crate) struct Pool {
    // oldest first
    given: Vec<Delivery>,
    // how many bytes the last of them has
    size: usize,
    // how many lines a window takes at most
    most: u32,
    alloc: Global,
}

impl Model for Pool {
    ghost use Rattle.std.specs.Prelude.{◌≡◌, ◌≤◌, All, vec_len};
    ghost use Rattle.sk_fill.specs.Windows.{most_lines};
    ghost use Rattle.sk_lanes.specs.Rings.{PoolState};

    ghost Value = { PoolState };

    ghost view = { λ p. record { most = p.most; count = vec_len p.given } };

    ghost invariant = { λ p. (1 ≤ p.most) × (p.most ≤ most_lines) × All (λ s. s.most ≡ p.most) p.given.items };
}

impl Pool {
    // Of windows of at most this many lines. None was given.
    pub(crate) fn new(alloc: Global, most: u32) -> Pool
        requires least { 1 ≤ most }
        requires highest { most ≤ most_lines }
        ensures { result.most ≡ most }
    {
        Pool {
            given: Vec::new(alloc),
            size: 0,
            most,
            alloc,
        }
    }

    // Keeps a stretch that is given.
    pub(crate) fn keep(&mut self, delivery: Delivery, size: usize) -> Result<(), OutOfMemory>
        requires { delivery.most ≡ self.old.most }
        ensures { self.new.most ≡ self.old.most }
    {
        self.size = size;
        self.given.push(delivery)?;
        Ok(())
    }

    // A stretch from which nobody feeds, if there is one or may be one more. One that was read before is in a cache.
    fn take(&mut self) -> Option<Stretch>
        ensures most { IfSome result (λ s. s.most ≡ self.new.most) }
        ensures stays { self.new.most ≡ self.old.most }
    {
        if self.has_free() {
            let oldest = self.given.remove(0);
            if let Some(stretch) = oldest.into_stretch() {
                return Some(stretch);
            }
        } else if !self.has_room() {
            return None;
        }
        Some(Stretch::new(self.alloc, self.most))
    }

    // Whether nobody feeds from the oldest.
    fn has_free(&self) -> bool
        ensures { result ≡ true → 0 < self.now.count }
    {
        match self.given.first() {
            Some(oldest) => !oldest.is_shared(),
            None => false,
        }
    }

    // Whether there may be one more.
    fn has_room(&self) -> bool {
        let count = self.given.len();
        count == 0 || (count < MOST_GIVEN && self.size < FULL_BYTES / MOST_GIVEN)
    }

    // Waits for a stretch from which nobody feeds. None comes if a feeder ended, or they do not begin.
    pub(crate) fn wait_for_one<R: Wait>(&mut self, rt: &R, crew: &Crew) -> Option<Stretch>
        ensures most { IfSome result (λ s. s.most ≡ self.new.most) }
        ensures stays { self.new.most ≡ self.old.most }
    {
        let mut times = 0;
        'wait: for _ in rt.forever() {
            // What is read for a feeder that has ended is fed by one thread alone.
            if crew.has_left() {
                return None;
            }
            if let Some(stretch) = self.take() {
                return Some(stretch);
            }
            if !crew.wait_for_feeders(rt, times) {
                return None;
            }
            times = times.saturating_add(1);
        }
        unreachable!()
    }
}
