mod hashes;
mod kinds;
mod lines;
mod links;
mod makes;
mod numbers;
mod quantiles;
mod shelves;
mod sketches;
mod streams;
mod tallies;
mod watchers;
mod words;

use std::fmt::Debug;
use std::process::Abort;

// An `assert_eq!` that costs the proof of a test one call.
fn expect<R: Abort, T: PartialEq + Debug + Copy>(rt: &R, got: T, want: T) {
    assert_eq!(rt; got, want);
}

// The same in a loop, of which a failure shows the case.
fn expect_at<R: Abort, T: PartialEq + Debug + Copy, C: Debug + Copy>(
    rt: &R,
    case: C,
    got: T,
    want: T,
) {
    assert_eq!(rt; got, want, "at {case:?}");
}
