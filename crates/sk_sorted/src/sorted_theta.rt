//! The sketch as an array of the kept hashes, rising, and one to merge into.
ghost use Rattle.std.specs.Prelude.{◌≡◌, ◌≤◌, ℕ, List, [], ◌++◌, length, IfOk};
ghost use Rattle.sk_model.specs.Sketch.{theta_of, packed_of, unpacked};
ghost use Rattle.sk_theta.specs.Kept.{StandsFor, IsWhole, theta_kept};
ghost use Rattle.sk_model.specs.Width.{item_end, AreItems};
ghost use Rattle.sk_model.specs.Limits.{least_k, most_k};

use crate::least::least_of_both;
use crate::piece::{PIECE, sort_below};
use sk_model::OutOfMemory;
use sk_theta::{ITEM_END, Reply, theta_among};
use std::alloc::Global;
use std::marker::Model;

/// The sketch of the k smallest hashes of a list, for batches of many: each 512 of a batch cost one walk over all
/// that is kept, which is read and written in order.
#[derive(Drop)]
pub struct SortedTheta {
    kept: Vec<u64>,
    // What is kept after a batch is written here, and then both change places.
    spare: Vec<u64>,
    k: u32,
    theta: u64,
}

impl Model for SortedTheta {
    ghost use Rattle.std.specs.Prelude.{◌≡◌, ◌≤◌, vec_capacity};
    ghost use Rattle.sk_theta.specs.Kept.{Sketch, IsWhole, theta_kept};

    ghost Value = { Sketch };

    ghost view = { λ t. record { k = t.k; kept = t.kept.items } };

    ghost invariant = { λ t. IsWhole (record { k = t.k; kept = t.kept.items })
        × (t.k ≤ vec_capacity t.kept) × (t.k ≤ vec_capacity t.spare) × (t.theta ≡ theta_kept t.k t.kept.items) };
}

impl SortedTheta {
    /// The sketch of the empty list. All its memory is taken here.
    pub fn new(alloc: Global, k: u32) -> Result<SortedTheta, OutOfMemory>
        requires least { least_k ≤ k }
        requires most { k ≤ most_k }
        ensures numbers { IfOk result (λ s. s.k ≡ k) }
        ensures stands { IfOk result (λ s. StandsFor s []) }
    {
        Ok(SortedTheta {
            kept: Vec::with_capacity(alloc, k as usize)?,
            spare: Vec::with_capacity(alloc, k as usize)?,
            k,
            theta: ITEM_END,
        })
    }

    /// Puts a batch to the end of the list.
    pub fn merge(&mut self, batch: &[u64])
        requires items { AreItems batch.now }
        ensures numbers { self.new.k ≡ self.old.k }
        ensures stands { (hashes : List ℕ) → StandsFor self.old hashes → StandsFor self.new (hashes ++ batch.now) }
    {
        let mut at = 0;
        'merge: while at < batch.len() {
            let end = batch.len().min(at + PIECE);
            self.merge_piece(&batch[at..end]);
            at = end;
        }
    }

    // The same of at most 512.
    fn merge_piece(&mut self, batch: &[u64])
        requires items { AreItems batch.now }
        requires few { length batch.now ≤ PIECE }
        ensures numbers { self.new.k ≡ self.old.k }
        ensures stands { (hashes : List ℕ) → StandsFor self.old hashes → StandsFor self.new (hashes ++ batch.now) }
    {
        let mut piece = [0; PIECE];
        let count = sort_below(batch, self.theta, &mut piece);
        least_of_both(
            self.kept.as_slice(),
            &piece[..count],
            self.k as usize,
            &mut self.spare,
        );
        std::mem::swap(&mut self.kept, &mut self.spare);
        self.theta = theta_among(self.kept.as_slice(), self.k as usize);
    }

    /// How many hashes it keeps at most.
    pub fn k(&self) -> u32
        ensures value { result ≡ self.now.k }
        ensures whole { IsWhole self.now }
    {
        self.k
    }

    /// The greatest kept hash if there are k, else the end of the items, which stands for 1.
    pub fn theta(&self) -> u64
        ensures kept { result ≡ theta_kept self.now.k self.now.kept }
        ensures value { (hashes : List ℕ) → StandsFor self.now hashes → result ≡ theta_of self.now.k hashes }
        ensures lower { 1 ≤ result }
        ensures upper { result ≤ item_end }
    {
        self.theta
    }

    /// The count and the theta in one word, which `sk_theta::unpack` reads.
    #[tactic(auto, using(sk_theta::proofs::Sketches::theta_of_whole))]
    pub fn packed(&self) -> u64
        ensures value { (hashes : List ℕ) → StandsFor self.now hashes → result ≡ packed_of self.now.k hashes }
        ensures reads_back { unpacked self.now.k result ≡ (length self.now.kept, theta_kept self.now.k self.now.kept) }
    {
        let reply = Reply {
            count: self.kept.len() as u32,
            theta: self.theta,
        };
        reply.packed(self.k)
    }
}
