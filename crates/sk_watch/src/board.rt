// Watchers at their places.
ghost use Rattle.std.specs.Prelude.{◌≡◌, ◌+◌, ◌^◌, ◌<◌, ◌≤◌, List, None, length, map, option_map, is_some, if◌then◌else◌, slice_set};
ghost use Rattle.sk_watch.specs.Masks.{mask_of, most_places};
ghost use Rattle.sk_watch.specs.Places.{Place, IsLive, armed_at, answers_at, told};
ghost use Rattle.sk_watch.specs.Watching.{armed};

use crate::watcher::Watcher;
use sk_theta::Reply;

/// A board as contracts see it. A function that hands one on takes any `B: Seen`.
pub trait Seen {
    /// The places in order, each with its watcher as contracts see it.
    ghost places: { Self → List Place };

    /// Arms the watcher at a place.
    fn arm_at(&mut self, place: u32, k: u32, mark: u64)
        requires { IsLive place (places self.old) }
        ensures { places self.new ≡ armed_at place k mark (places self.old) };

    /// Lets the watcher at a place go, if there is one.
    fn let_go(&mut self, place: u32)
        requires { place < length (places self.old) }
        ensures { places self.new ≡ slice_set (places self.old) place None };

    /// The places with a watcher, as the bits of a number.
    fn mask(&self) -> u64
        ensures { result ≡ mask_of (map is_some (places self.now)) };

    /// Shows a reply to each watcher, in order. Those that return true are let go, and their places are
    /// returned, as the bits of a number.
    fn show(&mut self, reply: Reply) -> u64
        ensures mask { result ≡ mask_of (map (answers_at reply) (places self.old)) }
        ensures places { places self.new ≡ map (told reply) (places self.old) };
}

/// At most 64 places, each with a watcher or with none.
#[derive(Drop)]
pub struct Board {
    boxes: Vec<Option<Box<dyn Watcher>>>,
    ghost few: { length boxes.items ≤ most_places },
}

impl Seen for Board {
    ghost places = { λ board. map (option_map (λ b. (Watcher-box b).watching b.value)) board.boxes.items };

    fn arm_at(&mut self, place: u32, k: u32, mark: u64) {
        self.arm(place, k, mark);
    }

    fn let_go(&mut self, place: u32) {
        self.drop_at(place);
    }

    fn mask(&self) -> u64 {
        self.live()
    }

    fn show(&mut self, reply: Reply) -> u64 {
        self.tell(reply)
    }
}

impl Board {
    /// A board with these watchers.
    pub fn new(boxes: Vec<Option<Box<dyn Watcher>>>) -> Board
        requires { length boxes.items ≤ most_places }
        ensures { ⟦<Board as Seen>⟧.places result ≡ map (option_map watching) boxes.items }
    {
        Board { boxes }
    }

    /// Arms the watcher at a place.
    pub fn arm(&mut self, place: u32, k: u32, mark: u64)
        requires { IsLive place (⟦<Board as Seen>⟧.places self.old) }
        ensures { ⟦<Board as Seen>⟧.places self.new
            ≡ armed_at place k mark (⟦<Board as Seen>⟧.places self.old) }
    {
        arm_at(&mut self.boxes[place as usize], k, mark);
    }

    /// Lets the watcher at a place go, if there is one.
    pub fn drop_at(&mut self, place: u32)
        requires { place < length (⟦<Board as Seen>⟧.places self.old) }
        ensures { ⟦<Board as Seen>⟧.places self.new
            ≡ slice_set (⟦<Board as Seen>⟧.places self.old) place None }
    {
        self.boxes[place as usize] = None;
    }

    /// The places with a watcher, as the bits of a number.
    pub fn live(&self) -> u64
        ensures { result ≡ mask_of (map is_some (⟦<Board as Seen>⟧.places self.now)) }
    {
        let mut live = 0;
        'live: for place in 0..self.boxes.len() {
            live = with_bit(live, place, self.boxes[place].is_some());
        }
        live
    }

    /// Shows a reply to each watcher, in order. Those that return true are let go, and their places are
    /// returned, as the bits of a number.
    pub fn tell(&mut self, reply: Reply) -> u64
        ensures mask { result
            ≡ mask_of (map (answers_at reply) (⟦<Board as Seen>⟧.places self.old)) }
        ensures places { ⟦<Board as Seen>⟧.places self.new
            ≡ map (told reply) (⟦<Board as Seen>⟧.places self.old) }
    {
        let mut gone = 0;
        'tell: for place in 0..self.boxes.len() {
            gone = with_bit(gone, place, tell_at(&mut self.boxes[place], reply));
        }
        gone
    }
}

// Arms the watcher at a place, if there is one.
fn arm_at(place: &mut Option<Box<dyn Watcher>>, k: u32, mark: u64)
    ensures { option_map watching place.new ≡ option_map (armed k mark) (option_map watching place.old) }
{
    if let Some(watcher) = place {
        watcher.arm(k, mark);
    }
}

// Shows a reply to the watcher at a place, if there is one, and returns what it returns.
fn tell_at(place: &mut Option<Box<dyn Watcher>>, reply: Reply) -> bool
    ensures answer { result ≡ answers_at reply (option_map watching place.old) }
    ensures told { option_map watching place.new ≡ told reply (option_map watching place.old) }
{
    match place {
        Some(watcher) => {
            let is_done = watcher.see(reply);
            if is_done {
                *place = None;
            }
            is_done
        }
        None => false,
    }
}

// The number with one bit more, above those that it has.
fn with_bit(bits: u64, place: usize, bit: bool) -> u64
    requires place { place < most_places }
    requires below { bits < 2 ^ place }
    ensures value { result ≡ bits + (if bit then 2 ^ place else 0) }
{
    if bit { bits + (1 << place) } else { bits }
}
