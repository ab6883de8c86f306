ghost use Rattle.std.specs.Prelude.{◌≡◌, ◌≤◌, [], length, IfOk};
ghost use Rattle.sk_model.specs.Entries.{items_of_entries};
ghost use Rattle.sk_model.specs.Limits.{most_k};
ghost use Rattle.sk_theta.specs.Kept.{StandsFor};

mod sources;

use super::expect;
use sk_compose::Composable;
use sk_feed::feed_block;
use sk_fill::{Block, Window};
use sk_hub::{Opened, Updater, open};
use sk_model::OutOfMemory;
use sk_read::Kind;
use sk_theta::{Shape, Theta, unpack};
use std::alloc::Global;
use std::process::Abort;
use std::sync::Wait;
use std::test::Fail;

#[test]
fn a_window_of_two_lines_gives_them_back(rt: HostRuntime) -> Result<(), Fail> {
    let mut window = Window::new(rt.alloc(), 2)?;
    assert!(rt; !window.is_full());
    window.push(b"hello")?;
    assert!(rt; !window.is_full());
    window.push(b"5")?;
    assert!(rt; window.is_full());
    expect(&rt, window.line(0), b"hello".as_slice());
    expect(&rt, window.item(0, Kind::Raw), None);
    expect(&rt, window.item(1, Kind::Raw), Some(6));
    window.clear();
    expect(&rt, window.is_empty(), true);
    Ok(())
}

#[test]
fn five_lines_in_two_blocks(rt: HostRuntime) {
    expect(&rt, Block::of(5, 0, 2), Block { from: 0, to: 2 });
    expect(&rt, Block::of(5, 1, 2), Block { from: 2, to: 5 });
}

// ---- a hub whose one updater keeps two items in a buffer

#[tactic(auto, unfolding(sk_model::specs::Entries::items_of_entries))]
fn sketch(alloc: Global, k: u32) -> Result<Theta, OutOfMemory>
    requires least { 2 ≤ k }
    requires most { k ≤ most_k }
    ensures { IfOk result (λ s. StandsFor s (items_of_entries [])) }
{
    Theta::new(alloc, k)
}

fn hub_of<C: Composable>(alloc: Global, eager: bool, global: C) -> Result<Opened<C>, OutOfMemory>
    requires fresh { C.is_of global [] }
    ensures { IfOk result (λ opened. length opened.updaters.items ≡ 1) }
{
    let Ok(shape) = Shape::new(8, 2, 1, 0, eager) else {
        return Err(OutOfMemory);
    };
    open(alloc, &shape, global)
}

// The lines from "1" to "5".
fn five_lines(rt: &impl Abort, alloc: Global) -> Result<Window, OutOfMemory> {
    let mut window = Window::new(alloc, 5)?;
    for digit in b'1'..=b'5' {
        assert!(rt; !window.is_full());
        window.push(&[digit])?;
    }
    Ok(window)
}

// Feeds lines up to the fifth, where few were kept.
fn feed<C: Composable, R: Abort + Wait>(
    rt: &R,
    updater: &mut Updater<C>,
    window: &Window,
    from: u32,
    help: bool,
) -> Result<u32, OutOfMemory> {
    assert!(rt; from <= 5 && window.len() == 5 && updater.taken() < 1_000);
    feed_block(rt, updater, window, from, 5, Kind::Raw, help)
}

#[test]
fn a_block_without_help_ends_at_a_busy_line(rt: HostRuntime) -> Result<(), Fail> {
    let window = five_lines(&rt, rt.alloc())?;
    let mut hub = hub_of(rt.alloc(), false, sketch(rt.alloc(), 8)?)?;
    let mut updater = hub.updaters.remove(0);
    expect(&rt, feed(&rt, &mut updater, &window, 0, false)?, 4);
    expect(&rt, unpack(hub.token.ask(), 8).count, 0);
    expect(&rt, feed(&rt, &mut updater, &window, 4, true)?, 5);
    expect(&rt, unpack(hub.token.ask(), 8).count, 2);
    Ok(())
}

#[test]
fn an_eager_updater_publishes_each_item(rt: HostRuntime) -> Result<(), Fail> {
    let window = five_lines(&rt, rt.alloc())?;
    let mut hub = hub_of(rt.alloc(), true, sketch(rt.alloc(), 8)?)?;
    let mut updater = hub.updaters.remove(0);
    expect(&rt, feed(&rt, &mut updater, &window, 0, true)?, 5);
    expect(&rt, unpack(hub.token.ask(), 8).count, 5);
    Ok(())
}
