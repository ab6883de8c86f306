// Boards of watchers that a test makes.
ghost use Rattle.std.specs.Prelude.{[], IfOk};
ghost use Rattle.sk_cli.specs.Beside.{IsFullBoard};

use super::rows::{bytes_of, due_of, shelf_of};
use super::stage::{FINE, Ran, expect, run_beside};
use sk_cli::{BOARD_PLACES, board_of};
use sk_watch::{Board, Reply, Seen, Watcher};
use std::alloc::Global;
use std::sync::Wait;
use std::test::Fail;
use std::thread::Threads;

// A watcher that goes at its first reply, or stays.
#[derive(Drop)]
struct Fake {
    goes: bool,
}

impl Watcher for Fake {
    ghost watching = { λ fake. record {
      shown = [];
      when_armed = λ shown _ _. shown;
      answer = λ _ _. fake.goes;
      when_seen = λ shown _. shown;
    } };

    fn arm(&mut self, _k: u32, _mark: u64) {}

    fn see(&mut self, _reply: Reply) -> bool {
        self.goes
    }
}

// Fakes of which the first alone goes.
fn fakes(alloc: Global) -> Result<Board, Fail>
    ensures { IfOk result (λ board. IsFullBoard (⟦<Board as Seen>⟧.places board)) }
{
    let mut boxes: Vec<Option<Box<dyn Watcher>>> = Vec::new(alloc);
    'place: for place in 0..BOARD_PLACES {
        boxes.push(Some(Box::new(alloc, Fake { goes: place == 0 })?))?;
    }
    Ok(board_of(boxes))
}

// A board that keeps as a text what it is shown, if memory is there for that.
#[derive(Drop)]
struct Recorder<B: Seen> {
    board: B,
    alloc: Global,
    told: String,
}

impl<B: Seen> Seen for Recorder<B> {
    ghost places = { λ recorder. B.places recorder.board };

    fn arm_at(&mut self, place: u32, k: u32, mark: u64) {
        if let Ok(line) = format!(in self.alloc; "arm {place} {k} {mark}\n") {
            let _kept = self.told.push_str(line.as_str());
        }
        self.board.arm_at(place, k, mark);
    }

    fn let_go(&mut self, place: u32) {
        self.board.let_go(place);
    }

    fn mask(&self) -> u64 {
        self.board.mask()
    }

    fn show(&mut self, reply: Reply) -> u64 {
        let (count, live) = (reply.count, self.board.mask());
        if let Ok(line) = format!(in self.alloc; "show {count} to {live}\n") {
            let _kept = self.told.push_str(line.as_str());
        }
        self.board.show(reply)
    }
}

// What a board was shown while a line ran, which watchers are left, and what was written.
#[derive(Drop)]
struct Recorded {
    told: String,
    left: u64,
    ran: Ran,
}

// Runs a line over the fakes.
fn run_recorded<R: Threads + Wait + Sync>(
    rt: &R,
    alloc: Global,
    line: &str,
    text: Vec<u8>,
) -> Result<Recorded, Fail> {
    let mut shelf = shelf_of(alloc, &FINE, &text)?;
    let mut board = Recorder {
        board: fakes(alloc)?,
        alloc,
        told: String::new(alloc),
    };
    let ran = run_beside(rt, alloc, &FINE, line, text, &mut shelf, &mut board)?;
    let left = board.mask();
    let Recorder { told, .. } = board;
    Ok(Recorded { told, left, ran })
}

// With a propagator the reply may lack the last two buffers; two watchers see it, and one stays.
#[test]
fn a_board_is_told_of_each_window(rt: HostRuntime) -> Result<(), Fail> {
    let alloc = rt.alloc();
    let line = "count --raw --window 2 --alarm 1,9";
    let Recorded { told, left, ran } = run_recorded(&rt, alloc, line, b"1\n2\n".to_vec(alloc)?)?;
    let due = "at 2 estimate ?/1;alarm 1;estimate 2/1;";
    let out = due_of(alloc, due, ran.out.written())?;
    expect(&rt, &ran, line, 0, &out, b"");
    let digit = out.get(14).copied().unwrap_or(b'0');
    let due = bytes_of(alloc, "arm 0 4096 1;arm 1 4096 9;show ? to 3;", digit)?;
    assert_eq!(rt; told.as_bytes(), due.as_slice());
    assert_eq!(rt; left, 2);
    Ok(())
}
