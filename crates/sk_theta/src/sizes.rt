//! The numbers that shape a run, within their limits.
ghost use Rattle.std.specs.Prelude.{◌≡◌, ◌↔◌, IfOk, IsErrOf};
ghost use Rattle.sk_theta.specs.Sizes.{Sizes};
ghost use Rattle.sk_model.specs.Limits.{least_k, most_k, most_size, most_updaters, IsFrom};

use sk_model::limits::{LEAST_K, MOST_K, MOST_SIZE, MOST_UPDATERS};
use std::marker::Model;

/// Which number is out of its limits.
#[derive(Clone, Copy, Debug, PartialEq, Eq, Hash)]
pub enum BadShape {
    /// k is not from `LEAST_K` to `MOST_K`.
    K,
    /// b is not from 1 to `MOST_SIZE`.
    B,
    /// n is not from 1 to `MOST_UPDATERS`.
    N,
}

/// The numbers that shape a run: k of the sketch, b items of a buffer, n updaters, the hash's seed, and
/// whether a short stream is handed over item by item.
#[derive(Drop)]
pub struct Shape {
    k: u32,
    b: u32,
    n: u32,
    seed: u32,
    eager: bool,
}

impl Model for Shape {
    ghost Value = { Sizes };

    ghost view = { λ s. record { k = s.k; b = s.b; n = s.n; seed = s.seed; eager = s.eager } };

    ghost invariant = { λ s. IsFrom least_k most_k s.k × IsFrom 1 most_size s.b × IsFrom 1 most_updaters s.n };
}

impl Shape {
    /// Those numbers, where they are within their limits. The first that is not is the error.
    pub fn new(k: u32, b: u32, n: u32, seed: u32, eager: bool) -> Result<Shape, BadShape>
        ensures ok { IfOk result (λ s. s ≡ record { k = k; b = b; n = n; seed = seed; eager = eager }) }
        ensures k { IsErrOf result BadShape.K ↔ (IsFrom least_k most_k k → ⊥) }
        ensures b { IsErrOf result BadShape.B ↔ (IsFrom least_k most_k k × (IsFrom 1 most_size b → ⊥)) }
        ensures n { IsErrOf result BadShape.N ↔ (IsFrom least_k most_k k × IsFrom 1 most_size b × (IsFrom 1 most_updaters n → ⊥)) }
    {
        if !(LEAST_K..=MOST_K).contains(&k) {
            return Err(BadShape::K);
        }
        if !(1..=MOST_SIZE).contains(&b) {
            return Err(BadShape::B);
        }
        if !(1..=MOST_UPDATERS).contains(&n) {
            return Err(BadShape::N);
        }
        Ok(Shape {
            k,
            b,
            n,
            seed,
            eager,
        })
    }

    /// How many hashes the sketch keeps.
    pub fn k(&self) -> u32
        ensures value { result ≡ self.now.k }
        ensures limits { IsFrom least_k most_k result }
    {
        self.k
    }

    /// How many items a buffer holds.
    pub fn b(&self) -> u32
        ensures value { result ≡ self.now.b }
        ensures limits { IsFrom 1 most_size result }
    {
        self.b
    }

    /// How many updaters there are.
    pub fn n(&self) -> u32
        ensures value { result ≡ self.now.n }
        ensures limits { IsFrom 1 most_updaters result }
    {
        self.n
    }

    /// The seed of the hash.
    pub fn seed(&self) -> u32
        ensures { result ≡ self.now.seed }
    {
        self.seed
    }

    /// Whether a short stream is handed over item by item.
    pub fn eager(&self) -> bool
        ensures { result ≡ self.now.eager }
    {
        self.eager
    }
}
