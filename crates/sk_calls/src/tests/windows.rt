// Windows of the last intervals.
ghost use Rattle.std.specs.Prelude.{◌≡◌};

use super::expect;
use sk_theta::{ITEM_END, Reply, Shape};
use sk_window::{Advance, Frame, Panes, Started};
use std::test::Fail;

const NONE: Reply = Reply {
    count: 0,
    theta: ITEM_END,
};

#[test]
fn intervals_without_items_are_closed(rt: HostRuntime) -> Result<(), Fail> {
    let alloc = rt.alloc();
    let Ok(shape) = Shape::new(4, 2, 2, 0, true) else {
        return Ok(());
    };
    let frame = Frame { span: 10, last: 2 };
    let Started {
        mut panes,
        updaters,
    } = Panes::new(&rt, alloc, shape, frame)?;
    expect(&rt, panes.reply()?, NONE);
    let Advance::Same(updaters) = panes.advance(9, updaters) else {
        return Ok(());
    };
    let Advance::Moved(reply, _updaters) = panes.advance(31, updaters) else {
        return Ok(());
    };
    expect(&rt, reply, NONE);
    expect(&rt, panes.running(), 3);
    Ok(())
}
