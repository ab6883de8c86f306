//! How a state is made.
ghost use Rattle.std.specs.Prelude.{◌≡◌, ◌≤◌, IfOk, replicate};
ghost use Rattle.sk_machine.specs.Fine.{fine_start};
ghost use Rattle.sk_core.specs.Stored.{hint_by, word_by, machine_of, sizes_of, blank_updater};
ghost use Rattle.sk_core.specs.Runs.{MeetsAll};
ghost use Rattle.sk_model.specs.Limits.{least_k, most_k, most_size, most_updaters};

use super::{MOST_OFFERS, MOST_TOKENS, State};
use crate::token::{MOST_UPDATERS, Token};
use crate::updater::{MOST_SIZE, Updater};
use sk_machine::Progress;
use sk_model::OutOfMemory;
use sk_theta::Theta;
use std::alloc::Global;

impl State {
    /// The machine at its start: n updaters with buffers of b items, the turn with the heart, and token 0. k, b
    /// and n are within the limits of a run.
    pub fn new(alloc: Global, k: u32, b: u32, n: u32) -> Result<State, OutOfMemory>
        requires least { least_k ≤ k }
        requires most { k ≤ most_k }
        requires size { b ≤ most_size }
        requires updaters { n ≤ most_updaters }
        ensures sketch { IfOk result (λ s. s.k ≡ k) }
        ensures machine { IfOk result (λ s. machine_of s ≡ fine_start (hint_by k) (word_by k) n (sizes_of n b)) }
        ensures invariant { IfOk result (λ s. MeetsAll s.k (machine_of s)) }
    {
        let token = Token {
            live: true,
            seen: 0,
            known: [0; MOST_UPDATERS],
        };
        let mut tokens = Vec::with_capacity(alloc, MOST_TOKENS)?;
        tokens.push_reserved(token);
        let sketch = Theta::new(alloc, k)?;
        let word = sketch.packed();
        Ok(State {
            offers: Vec::with_capacity(alloc, MOST_OFFERS)?,
            published: Vec::with_capacity(alloc, MOST_OFFERS)?,
            sketch,
            word,
            updaters: new_updaters(alloc, n as usize, b as usize)?,
            progress: Progress::Idle,
            in_hand: Vec::with_capacity(alloc, MOST_SIZE)?,
            turn: n as u64 + 1,
            tokens,
        })
    }

    /// The same, but nobody is admitted.
    pub fn vacant(alloc: Global, k: u32, n: u32) -> Result<State, OutOfMemory>
        requires least { least_k ≤ k }
        requires most { k ≤ most_k }
        requires updaters { n ≤ most_updaters }
        ensures sketch { IfOk result (λ s. s.k ≡ k) }
        ensures machine { IfOk result (λ s. machine_of s ≡ fine_start (hint_by k) (word_by k) n (sizes_of n 0)) }
        ensures invariant { IfOk result (λ s. MeetsAll s.k (machine_of s)) }
    {
        State::new(alloc, k, 0, n)
    }
}

// This many updaters that have done nothing.
fn new_updaters(alloc: Global, n: usize, size: usize) -> Result<Vec<Updater>, OutOfMemory>
    requires { size ≤ most_size }
    ensures { IfOk result (λ updaters. updaters.items ≡ replicate n (blank_updater size)) }
{
    let mut updaters = Vec::with_capacity(alloc, n)?;
    'updaters: for _ in 0..n {
        updaters.push_reserved(Updater::new(alloc, size)?);
    }
    Ok(updaters)
}
