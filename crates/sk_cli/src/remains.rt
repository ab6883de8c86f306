// What a run leaves.
ghost use Rattle.std.specs.Prelude.{◌≡◌, None};
ghost use Rattle.sk_cli.specs.Beside.{left_of, nothing_left};

use sk_heap::HeapTheta;
use sk_hub::{Heart, Token};
use sk_report::Remains as Counted;
use sk_snap::{QuantReader, VersionedQuant};
use std::sync::Wait;

/// The handles of the hub that a run made: of one that counted, or of one that ranked, whose sketch keeps the
/// runtime.
#[derive(Drop)]
pub struct Remains<W: Wait + Drop> {
    pub heart: Option<Heart<HeapTheta>>,
    pub token: Option<Token<HeapTheta>>,
    pub ranks: Option<Heart<VersionedQuant<W>>>,
    pub reader: Option<QuantReader>,
}

impl<W: Wait + Drop> Remains<W> {
    /// None of them, as a run is handed them.
    pub fn none() -> Remains<W>
        ensures { left_of result ≡ nothing_left }
    {
        Remains {
            heart: None,
            token: None,
            ranks: None,
            reader: None,
        }
    }

    // Puts in what is left of a hub that counted.
    pub(crate) fn put_counted(&mut self, counted: Counted)
        ensures { self.new ≡ record self.old { heart = counted.heart; token = counted.token } }
    {
        self.heart = counted.heart;
        self.token = counted.token;
    }
}
