// A text that only contracts see.
ghost use Rattle.std.specs.Prelude.{◌≡◌, [], ◌++◌};

use http_server::Log;
use std::marker::Model;

/// A text that takes no memory: only contracts see it.
#[derive(Drop)]
pub struct Told {
    bytes: Log<u8, u8>,
}

impl Model for Told {
    ghost use Rattle.std.specs.Prelude.{ℕ, List, map};

    ghost Value = { List ℕ };

    ghost view = { λ t. map (λ (pair : ℕ × ℕ). pair.0) t.bytes.items };
}

impl Told {
    pub fn new() -> Self
        ensures { result ≡ [] }
    {
        Told { bytes: Log::new() }
    }

    /// Takes these bytes more.
    pub fn add(&mut self, bytes: &[u8])
        ensures { self.new ≡ self.old ++ bytes.now }
    {
        'byte: for byte in bytes {
            self.bytes = self.bytes.and(byte, byte);
        }
    }
}
