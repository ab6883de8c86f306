// Watchers on a board.
ghost use Rattle.std.specs.Prelude.{◌-◌, ◌==◌, [], ◌∷◌, slice_index};

use super::expect;
use sk_theta::{ITEM_END, Reply};
use sk_watch::{Alarm, Board, Watcher};
use std::test::Fail;

// A watcher that returns true at one of the replies that it sees, and shows how many it sees until then.
#[derive(Drop)]
struct Fake {
    left: u64,
}

impl Watcher for Fake {
    ghost watching = { λ fake. record {
      shown = fake.left ∷ [];
      when_armed = λ shown _ _. shown;
      answer = λ shown _. slice_index shown 0 == 1;
      when_seen = λ shown _. (slice_index shown 0 - 1) ∷ [];
    } };

    fn arm(&mut self, _k: u32, _mark: u64) {}

    fn see(&mut self, _reply: Reply) -> bool {
        let is_last = self.left == 1;
        self.left = self.left.saturating_sub(1);
        is_last
    }
}

const FEW: Reply = Reply {
    count: 2,
    theta: ITEM_END,
};

#[test]
fn fakes_go_one_after_another(rt: HostRuntime) -> Result<(), Fail> {
    let alloc = rt.alloc();
    let mut boxes: Vec<Option<Box<dyn Watcher>>> = Vec::new(alloc);
    boxes.push(Some(Box::new(alloc, Fake { left: 1 })?))?;
    boxes.push(Some(Box::new(alloc, Fake { left: 2 })?))?;
    boxes.push(Some(Box::new(alloc, Fake { left: 3 })?))?;
    let mut board = Board::new(boxes);
    expect(&rt, board.live(), 7);
    expect(&rt, board.tell(FEW), 1);
    expect(&rt, board.tell(FEW), 2);
    expect(&rt, board.live(), 4);
    expect(&rt, board.tell(FEW), 4);
    expect(&rt, board.live(), 0);
    Ok(())
}

#[test]
fn an_alarm_goes_at_its_mark(rt: HostRuntime) -> Result<(), Fail> {
    let alloc = rt.alloc();
    let mut boxes: Vec<Option<Box<dyn Watcher>>> = Vec::new(alloc);
    boxes.push(None)?;
    boxes.push(Some(Box::new(alloc, Alarm::new())?))?;
    boxes.push(Some(Box::new(alloc, Alarm::new())?))?;
    boxes.push(Some(Box::new(alloc, Alarm::new())?))?;
    let mut board = Board::new(boxes);
    board.arm(1, 4, 3);
    board.arm(2, 4, 2);
    expect(&rt, board.live(), 14);
    expect(&rt, board.tell(FEW), 4);
    board.drop_at(1);
    expect(&rt, board.live(), 8);
    Ok(())
}

#[test]
fn an_alarm_reads_the_fraction_of_a_full_sketch(rt: HostRuntime) {
    let full = Reply { count: 2, theta: 5 };
    let mut alarm = Alarm::new();
    assert!(rt; !alarm.see(full));
    for (k, mark, want) in [
        (2, 1_844_674_407_370_955_161, true),
        (2, 1_844_674_407_370_955_162, false),
        (2, u64::MAX, false),
        (1, 0, false),
        (3, 2, true),
    ] {
        alarm.arm(k, mark);
        assert_eq!(rt; alarm.see(full), want, "{k} {mark}");
    }
}
