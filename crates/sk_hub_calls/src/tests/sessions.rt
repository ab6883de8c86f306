ghost use Rattle.std.specs.Prelude.{◌≡◌, ◌<◌, ◌≤◌, [], IfOk};
ghost use Rattle.sk_compose.specs.Numbers.{k_of};
ghost use Rattle.sk_hub.specs.Updaters.{kept_of};
ghost use Rattle.sk_model.specs.Limits.{most_size, source_limit};

mod at_once;

use super::expect;
use sk_heap::HeapTheta;
use sk_hub::{Heart, Opened, OutOfMemory, Updater, open_sized};
use sk_io::MemLink;
use sk_line::*;
use sk_theta::Shape;
use std::alloc::Global;
use std::process::Abort;
use std::sync::Wait;
use std::test::Fail;

// A sketch of four hashes, and one updater with buffers of b items.
fn shape_of(b: u32, eager: bool) -> Result<Shape, OutOfMemory> {
    Shape::new(4, b, 1, 0, eager).map_err(|_| OutOfMemory)
}

// The heart of a new hub and its first updater.
#[tactic(auto, unfolding(sk_model::specs::Entries::items_of_entries))]
fn hub(alloc: Global, shape: &Shape) -> Result<(Heart<HeapTheta>, Updater<HeapTheta>), OutOfMemory>
    ensures heart { IfOk result (λ hub. k_of hub.0.view.numbers ≡ shape.now.k) }
    ensures k { IfOk result (λ hub. k_of hub.1.view.numbers ≡ shape.now.k) }
    ensures none { IfOk result (λ hub. kept_of hub.1 ≡ []) }
{
    // It tells the proof that there is an updater.
    let _updaters = shape.n();
    let global = HeapTheta::new(alloc, shape.k())?;
    let Opened {
        heart,
        mut updaters,
        token: _,
    } = open_sized(alloc, shape, &[shape.b()], global)?;
    let updater = updaters.remove(0);
    Ok((heart, updater))
}

// What goes over a link.
#[derive(Clone, Copy)]
struct Course<'a> {
    text: &'a [u8],
    piece: usize,
    fails: &'a [u64],
    most: u64,
    end: End,
    replies: &'a [u8],
}

// Runs a session, which is to end so, with these replies.
fn check<P: Pump<HeapTheta>, R: Abort + Wait>(
    rt: &R,
    alloc: Global,
    course: &Course,
    updater: &mut Updater<HeapTheta>,
    pump: &mut P,
    shape: &Shape,
) -> Result<(), OutOfMemory>
    requires k { k_of updater.old.view.numbers ≡ shape.now.k }
    requires none { kept_of updater.old ≡ [] }
{
    assert!(rt; course.piece > 0 && course.most <= 1_000_000);
    let text = course.text.to_vec(alloc)?;
    let fails = course.fails.to_vec(alloc)?;
    let mut link = MemLink::new(alloc, text, 1_000, course.piece, fails)?;
    let end = session(rt, alloc, &mut link, updater, pump, shape, course.most);
    expect(rt, end, course.end);
    assert!(rt; link.written() == course.replies);
    Ok(())
}

// The same with an updater of buffers of b items, whose hub nobody propagates.
fn check_alone<R: Abort + Wait>(
    rt: &R,
    alloc: Global,
    b: u32,
    course: &Course,
) -> Result<(), OutOfMemory> {
    let shape = shape_of(b, false)?;
    let (_heart, mut updater) = hub(alloc, &shape)?;
    check(rt, alloc, course, &mut updater, &mut NoPump::new(), &shape)
}

#[test]
fn nobody_propagates(rt: HostRuntime) -> Result<(), Fail> {
    let alloc = rt.alloc();
    for (b, most, text, replies, end) in [
        (
            1,
            1_000,
            b"add hello\nadd hello\nadd hello\nsync\nask\nquit\n".as_slice(),
            b"kept\nkept\nbusy\nbusy\nestimate 0/1\n".as_slice(),
            End::Quit,
        ),
        (64, 8, b"add hello\n", b"", End::TooMuch),
        (
            64,
            200_000,
            b"add \nask \n\nADD x\nquit\n\xff",
            b"bad\nbad\nbad\nbad\n",
            End::Quit,
        ),
        (64, 200_000, b"add \xff\x00", b"kept\n", End::Closed),
        (
            64,
            200_000,
            b"ask\r\nquit\r",
            b"estimate 0/1\nbad\n",
            End::Closed,
        ),
    ] {
        let course = Course {
            text,
            piece: 7,
            fails: &[],
            most,
            end,
            replies,
        };
        check_alone(&rt, alloc, b, &course)?;
    }
    Ok(())
}

#[test]
fn a_long_request_and_a_fault_end_it(rt: HostRuntime) -> Result<(), Fail> {
    let alloc = rt.alloc();
    let mut text = b"add x\n".to_vec(alloc)?;
    text.resize(6 + 65_537, b'y')?;
    let long = Course {
        text: text.as_slice(),
        piece: 10_000,
        fails: &[],
        most: 200_000,
        end: End::Long(2),
        replies: b"kept\n",
    };
    check_alone(&rt, alloc, 64, &long)?;
    let fault = Course {
        text: b"add x\n",
        piece: 1,
        fails: &[0],
        most: 200_000,
        end: End::LinkFault,
        replies: b"",
    };
    check_alone(&rt, alloc, 64, &fault)?;
    let cut_off = Course {
        text: b"bad\nask\n",
        piece: 100,
        fails: &[2],
        most: 200_000,
        end: End::LinkFault,
        replies: b"bad\n",
    };
    check_alone(&rt, alloc, 64, &cut_off)?;
    Ok(())
}

// What each pump is to publish.
const PUBLISHED: Course<'static> = Course {
    text: b"add hello\nadd hello\nask\nsync\nas",
    piece: 5,
    fails: &[],
    most: 1_000,
    end: End::Closed,
    replies: b"kept\nkept\nestimate 1/1\nsynced\nbad\n",
};

fn check_with_the_heart<R: Abort + Wait>(
    rt: &R,
    alloc: Global,
    shape: &Shape,
) -> Result<(), OutOfMemory> {
    let (mut heart, mut updater) = hub(alloc, shape)?;
    let mut pump = HeartPump::new(&mut heart);
    check(rt, alloc, &PUBLISHED, &mut updater, &mut pump, shape)
}

fn check_with_help<R: Abort + Wait>(
    rt: &R,
    alloc: Global,
    shape: &Shape,
) -> Result<(), OutOfMemory> {
    let (_heart, mut updater) = hub(alloc, shape)?;
    check(
        rt,
        alloc,
        &PUBLISHED,
        &mut updater,
        &mut HelpPump::new(),
        shape,
    )
}

#[test]
fn pumps_publish(rt: HostRuntime) -> Result<(), Fail> {
    let shape = shape_of(64, true)?;
    check_with_the_heart(&rt, rt.alloc(), &shape)?;
    check_with_help(&rt, rt.alloc(), &shape)?;
    Ok(())
}
