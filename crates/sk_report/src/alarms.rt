//! The alarms of a board, as a count starts.
ghost use Rattle.std.specs.Bool.{OnTrue, OnFalse};
ghost use Rattle.std.specs.Prelude.{◌≡◌, ℕ, ◌<◌, ◌≤◌, None, length, slice_set};
ghost use Rattle.sk_watch.specs.Places.{IsLive};
ghost use Rattle.sk_report.specs.Limits.{most_numbers};
ghost use Rattle.sk_report.specs.Boards.{ArmsFirst, LetsGoFrom};
ghost use Rattle.sk_report.specs.Texts.{armed_with};

use crate::text::PLACES;
use sk_watch::Seen;

/// Arms the first places with these marks, in order, and lets the others go.
pub fn arm<B: Seen>(board: &mut B, k: u32, marks: &[u64])
    requires few { length marks.now ≤ most_numbers }
    requires live { (i : ℕ) → i < length marks.now → IsLive i (B.places board.old) }
    ensures { B.places board.new ≡ armed_with k marks.now (B.places board.old) }
{
    arm_first(board, k, marks);
    let_go(board, marks.len() as u32);
}

// Arms the first places.
fn arm_first<B: Seen>(board: &mut B, k: u32, marks: &[u64])
    requires few { length marks.now ≤ most_numbers }
    requires live { (i : ℕ) → i < length marks.now → IsLive i (B.places board.old) }
    ensures { ArmsFirst k marks.now (length marks.now) (B.places board.old) (B.places board.new) }
{
    'arm: for place in 0..marks.len() {
        board.arm_at(place as u32, k, marks[place]);
    }
}

// Lets all watchers go from a place on.
fn let_go<B: Seen>(board: &mut B, from: u32)
    requires few { from ≤ most_numbers }
    ensures { LetsGoFrom from (B.places board.old) (B.places board.new) }
{
    let live = board.mask();
    'place: for place in from..PLACES {
        let_go_at(board, place, live >> place & 1 == 1);
    }
}

// Lets the watcher at a place go, if one is there.
fn let_go_at<B: Seen>(board: &mut B, place: u32, is_there: bool)
    requires { OnTrue is_there (place < length (B.places board.old)) }
    ensures there { OnTrue is_there (B.places board.new ≡ slice_set (B.places board.old) place None) }
    ensures none { OnFalse is_there (B.places board.new ≡ B.places board.old) }
{
    if is_there {
        board.let_go(place);
    }
}
