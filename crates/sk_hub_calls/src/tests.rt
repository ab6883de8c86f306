mod gate;
mod hub;
mod sessions;
mod versions;
mod waking;

use std::fmt::Debug;
use std::process::Abort;

// An `assert_eq!` that costs the proof of a test one call.
fn expect<R: Abort, T: PartialEq + Debug + Copy>(rt: &R, got: T, want: T) {
    assert_eq!(rt; got, want);
}
