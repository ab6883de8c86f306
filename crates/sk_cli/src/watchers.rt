// The watchers that a run is handed.
ghost use Rattle.std.specs.Prelude.{◌≡◌, length, All, IsSome};
ghost use Rattle.sk_cli.specs.Beside.{board_places, IsFullBoard, cleared};

use sk_watch::{Board, Seen, Watcher};

/// How many places a board is handed in with.
pub const BOARD_PLACES: u32 = 8;

/// A board as a run asks for, with a watcher at each of its places.
pub fn board_of(boxes: Vec<Option<Box<dyn Watcher>>>) -> Board
    requires places { length boxes.items ≡ board_places }
    requires live { All IsSome boxes.items }
    ensures { IsFullBoard (⟦<Board as Seen>⟧.places result) }
{
    Board::new(boxes)
}

/// Lets all watchers go.
pub fn clear<B: Seen>(board: &mut B)
    requires { length (B.places board.old) ≡ board_places }
    ensures { B.places board.new ≡ cleared (B.places board.old) }
{
    'clear: for place in 0..BOARD_PLACES {
        board.let_go(place);
    }
}
