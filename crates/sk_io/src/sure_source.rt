ghost use Rattle.std.specs.Prelude.{◌≡◌, ◌<◌, Some, Ok, min, length, drop};
ghost use Rattle.std.specs.Io.{ReadsAtMost};
ghost use Rattle.std.specs.Io.KnownBytes.{ReadConsumes};
ghost use Rattle.sk_model.specs.Causes.{HasCause};
ghost use Rattle.sk_io.specs.Base.{nothing, LastRead};
ghost use Rattle.sk_io.specs.Memory.{unread_text};

use crate::rest::Rest;
use crate::stream::{Failed, Source};
use std::marker::Model;

/// A source of bytes in memory that never fails. Contracts see the bytes that are left and how many the last read gave.
#[derive(Drop)]
pub struct SureSource {
    rest: Rest,
    // how many bytes the last read gave
    last: usize,
}

impl Model for SureSource {
    ghost use Rattle.sk_io.specs.Memory.{TextState};

    ghost Value = { TextState };

    ghost view = { λ s. record { left = s.rest; last = s.last } };
}

impl SureSource {
    /// A source of `bytes`.
    pub fn new(bytes: Vec<u8>) -> Self
        ensures { result ≡ unread_text bytes.items }
    {
        SureSource {
            rest: Rest::new(bytes),
            last: 0,
        }
    }
}

impl Source for SureSource {
    ghost left = { λ s. Some s.left };

    ghost faults = { λ _. 0 };

    ghost last = { λ s. s.last };

    ghost stands_on = { λ _. nothing };

    /// Fills `buf` as far as the bytes that are left go.
    fn read(&mut self, buf: &mut [u8]) -> Result<usize, Failed>
        requires { 0 < length buf.old }
        ensures bound { ReadsAtMost result buf.new }
        ensures bytes { ReadConsumes (Some self.old.left) (Some self.new.left) result buf.new }
        ensures last { LastRead self.old.last self.new.last result }
        ensures cause { HasCause 0 0 result }
        ensures answer { result ≡ Ok (min (length buf.old) (length self.old.left)) }
        ensures source { self.new.left ≡ drop (length buf.old) self.old.left }
    {
        let most = buf.len();
        self.last = self.rest.give(buf, most);
        Ok(self.last)
    }
}
