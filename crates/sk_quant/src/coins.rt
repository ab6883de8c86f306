//! The coins of a key.
ghost use Rattle.std.specs.Prelude.{◌≡◌, ◌+◌, ◌<◌};
ghost use Rattle.sk_quant.specs.Coins.{coin_of, words_of_key};
ghost use Rattle.sk_quant.specs.Limits.{coin_end};

use rand_chacha::ChaCha8Rng;
use rand_core::SeedableRng;
use rand_core::utils::NextWord;
use std::marker::Model;

/// The words of a key, none of which was taken: those of ChaCha8, from its start.
pub fn words_of(key: u64) -> ChaCha8Rng
    ensures { result ≡ words_of_key key 0 }
{
    let mut seed = [0; 32];
    seed[..8].copy_from_slice(&key.to_le_bytes());
    ChaCha8Rng::from_seed(seed)
}

/// The coins of a key, one after another: the lowest bits of the words of ChaCha8, from its start.
#[derive(Drop)]
pub struct Coins {
    key: u64,
    words: ChaCha8Rng,
}

impl Model for Coins {
    ghost use Rattle.std.specs.Prelude.{◌≡◌};
    ghost use Rattle.sk_quant.specs.Coins.{Coins as Tossed, words_of_key};

    ghost Value = { Tossed };

    ghost view = { λ c. record { key = c.key; taken = c.words.word_pos } };

    ghost invariant = { λ c. c.words ≡ words_of_key c.key c.words.word_pos };
}

impl Coins {
    /// None was taken.
    pub fn new(key: u64) -> Self
        ensures { result ≡ record { key = key; taken = 0 } }
    {
        Coins {
            key,
            words: words_of(key),
        }
    }

    /// The next coin.
    #[tactic(auto, unfolding(crate::specs::Coins::coin_of))]
    pub fn toss(&mut self) -> u32
        requires { self.old.taken + 1 < coin_end }
        ensures coin { result ≡ coin_of self.old.key self.old.taken }
        ensures sides { result < 2 }
        ensures next { self.new ≡ record self.old { taken = self.old.taken + 1 } }
    {
        self.words.next_word() % 2
    }
}
