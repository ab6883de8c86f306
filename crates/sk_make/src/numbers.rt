// The numbers of a key.
ghost use Rattle.std.specs.Prelude.{◌≡◌, ◌+◌, ◌*◌, ◌<◌, ◌^◌};
ghost use Rattle.sk_make.specs.Made.{made_number, made_end};

use rand_chacha::ChaCha8Rng;
use rand_core::utils::NextWord;
use sk_quant::words_of;
use std::marker::Model;

// What parts the halves of a word.
const HALF: u64 = 1 << 16;

/// The numbers of a key, one after another.
#[derive(Drop)]
pub struct Numbers {
    key: u64,
    next: u64,
    words: ChaCha8Rng,
}

impl Model for Numbers {
    ghost use Rattle.std.specs.Prelude.{◌≡◌, ◌*◌};
    ghost use Rattle.sk_quant.specs.Coins.{words_of_key};
    ghost use Rattle.sk_make.specs.Made.{Turn};

    ghost Value = { Turn };

    ghost view = { λ n. record { key = n.key; next = n.next } };

    ghost invariant = { λ n. n.words ≡ words_of_key n.key (2 * n.next) };
}

impl Numbers {
    /// None was made.
    pub fn new(key: u64) -> Self
        ensures { result ≡ record { key = key; next = 0 } }
    {
        Numbers {
            key,
            next: 0,
            words: words_of(key),
        }
    }

    /// The next number.
    #[tactic(auto, unfolding(crate::specs::Made::made_number, crate::specs::Made::word_of))]
    pub fn make(&mut self) -> u64
        requires { self.old.next < 2 ^ 32 }
        ensures number { result ≡ made_number self.old.key self.old.next }
        ensures small { result < made_end }
        ensures next { self.new ≡ record self.old { next = self.old.next + 1 } }
    {
        let upper = u64::from(self.words.next_word());
        let lower = u64::from(self.words.next_word()) / HALF;
        self.next += 1;
        upper * HALF + lower
    }
}
