// Images from text.
ghost use Rattle.std.specs.Prelude.{◌≡◌, ◌≤◌, ◌<◌, ℕ, List, Err, OnOk, IfOk, IfSome, IsErrOf, length, take};
ghost use Rattle.std.specs.Io.KnownBytes.{Consumes, IsAtEnd};
ghost use Rattle.sk_model.specs.Causes.{HasCauseIn};
ghost use Rattle.sk_image.specs.Written.{image_text};
ghost use Rattle.sk_image.specs.Reading.{IsBadAt, IsGoodSoFar, TakesInTime};

use crate::draft::Draft;
use crate::image::Image;
use crate::stop::ReadStop;
use sk_io::{Source, read_within};
use std::alloc::Global;

// The most bytes that one read is asked for.
const PIECE_LEN: usize = 8_192;

/// Reads a source of fewer than `most` bytes to its end as the text of an image, of either version. The
/// lines taken are examined before it reads on. `TooMuch` also comes if a whole image was taken and after
/// it a piece that no LF ends.
pub fn read<S: Source>(alloc: Global, source: &mut S, most: u64) -> Result<Image, ReadStop>
    // At `Ok` the whole source is the text of the image.
    ensures end { OnOk result (IsAtEnd (S.left source.new)) }
    ensures text { IfOk result (λ image. IfSome (S.left source.old) (λ text. text ≡ image_text image)) }
    ensures size { OnOk result (IfSome (S.left source.old) (λ text. length text < most)) }

    // A bad line comes before every fault after it.
    ensures bad_image { (n : ℕ) → result ≡ Err (ReadStop.BadImage n) →
        IfSome (S.left source.old) (λ text. IsBadAt n text) }
    ensures bad_in_time { (n : ℕ) → result ≡ Err (ReadStop.BadImage n) →
        IfSome (S.left source.old) (λ text. most ≤ length text → ¬ IsGoodSoFar (take most text)) }

    // The other faults come if no line of the bytes taken is bad.
    ensures read_fault { IsErrOf result ReadStop.ReadFault → (taken : List ℕ)
        × Consumes (S.left source.old) (S.left source.new) taken × (length taken < most) × IsGoodSoFar taken }
    ensures too_much { IsErrOf result ReadStop.TooMuch → (taken : List ℕ)
        × Consumes (S.left source.old) (S.left source.new) taken × (length taken ≡ most) × IsGoodSoFar taken }

    // Whatever it returns, no more was taken than this, and a read that failed is reported.
    ensures taken { TakesInTime (S.left source.old) (S.left source.new) most }
    ensures cause { HasCauseIn ReadStop.ReadFault (S.faults source.old) (S.faults source.new) result }
    ensures stays { S.stands_on source.new ≡ S.stands_on source.old }
{
    let mut draft = Draft::new(alloc);
    let mut piece = [0; PIECE_LEN];
    let mut taken = 0;
    'read: loop {
        let n = read_within(source, &mut piece, most - taken)?;
        if n == 0 {
            return draft.end();
        }
        draft = draft.with_bytes(alloc, &piece[..n])?;
        taken += n as u64;
    }
}
