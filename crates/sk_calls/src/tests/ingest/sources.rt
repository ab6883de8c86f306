// Sources that are fed to hubs, and what a report sees at each full window.
ghost use Rattle.std.specs.Prelude.{[], None, ⊤};

use super::sketch;
use crate::tests::expect;
use sk_compose::Composable;
use sk_hub::Opened;
use sk_ingest::{Fault, Intake, Kind, Report, Stop, word_of_source};
use sk_io::MemSource;
use sk_theta::{Shape, unpack};
use std::alloc::Global;
use std::process::Abort;
use std::sync::Wait;
use std::test::Fail;
use std::thread::Threads;

// The lines of which it was told, with the published counts. Its call with this number, from 1, fails.
#[derive(Drop)]
struct Counts {
    seen: Vec<(u64, u32)>,
    fails: usize,
    faults: u64,
}

impl<C: Composable> Report<C> for Counts {
    ghost faults = { λ s. s.faults };

    ghost reports = { λ _ _ _ _ _. ⊤ };

    ghost breaks = { λ _ _ _ _ _ _. ⊤ };

    ghost stands_on = { λ _. [] };

    ghost sketch = { λ _. None };

    fn at(&mut self, line: u64, opened: &mut Opened<C>) -> Result<(), Stop> {
        let count = unpack(opened.token.ask(), 8).count;
        if self.seen.len() + 1 == self.fails {
            self.faults = self.faults.saturating_add(1);
            return Err(Stop::Failed);
        }
        match self.seen.push((line, count)) {
            Ok(()) => Ok(()),
            Err(_) => Err(Stop::OutOfMemory),
        }
    }
}

// One sketch of 8 hashes, over the numbers from 1 to the last.
#[derive(Clone, Copy)]
struct Run {
    last: u32,
    window: u32,
    interim: bool,
    propagator: bool,
    eager: bool,
    updaters: u32,
    // the call of the report that fails, from 1, and the read that does, from 0
    report_fails: usize,
    read_fails: u64,
}

const PLAIN: Run = Run {
    last: 5,
    window: 5,
    interim: true,
    propagator: false,
    eager: false,
    updaters: 1,
    report_fails: 0,
    read_fails: 1_000_000,
};

// The word, or why there is none, and what the report saw.
fn count<R: Threads + Wait + Abort + Sync>(
    rt: &R,
    alloc: Global,
    run: &Run,
) -> Result<(Result<u64, Fault>, Counts), Fail> {
    let mut text = Vec::new(alloc);
    for number in 1..=run.last {
        let line = format!(in alloc; "{number}\n")?;
        text.extend_from_slice(line.as_bytes())?;
    }
    let plan = Intake {
        kind: Kind::Raw,
        column: 0,
        window: run.window.clamp(1, 1_000),
        interim: run.interim,
        propagator: run.propagator,
        most: 1 << 30,
    };
    let shape = Shape::new(8, 2, run.updaters, 0, run.eager)?;
    let mut source = MemSource::new(text, 4, [run.read_fails].to_vec(alloc)?);
    let mut report = Counts {
        seen: Vec::new(alloc),
        fails: run.report_fails,
        faults: 0,
    };
    let global = sketch(alloc, 8)?;
    let word = word_of_source(rt, alloc, &plan, &shape, global, &mut source, &mut report);
    Ok((word, report))
}

// The run ends so, and the report saw so much: of each pair the line, and the published count.
fn expect_seen(
    rt: &(impl Threads + Wait + Abort + Sync),
    alloc: Global,
    run: Run,
    ends: Result<u32, Fault>,
    seen: &[(u64, u32)],
) -> Result<(), Fail> {
    let (word, report) = count(rt, alloc, &run)?;
    let counted = match word {
        Ok(word) => Ok(unpack(word, 8).count),
        Err(fault) => Err(fault),
    };
    expect(rt, counted, ends);
    expect(rt, report.seen.as_slice(), seen);
    Ok(())
}

#[test]
fn full_windows_are_reported(rt: HostRuntime) -> Result<(), Fail> {
    let beside = Run {
        propagator: true,
        ..PLAIN
    };
    let eager = Run {
        eager: true,
        ..PLAIN
    };
    let twos = Run { window: 2, ..eager };
    let rows: [(Run, Result<u32, Fault>, &[(u64, u32)]); 9] = [
        (PLAIN, Ok(5), &[(5, 2)]),
        (beside, Ok(5), &[(5, 4)]),
        (
            Run {
                interim: false,
                ..beside
            },
            Ok(5),
            &[],
        ),
        (
            Run {
                eager: true,
                ..beside
            },
            Ok(5),
            &[(5, 5)],
        ),
        (
            Run {
                propagator: true,
                ..twos
            },
            Ok(5),
            &[(2, 2), (4, 4)],
        ),
        (eager, Ok(5), &[(5, 5)]),
        (twos, Ok(5), &[(2, 2), (4, 4)]),
        (
            Run {
                read_fails: 2,
                ..twos
            },
            Err(Fault::ReadFault),
            &[(2, 2), (4, 4)],
        ),
        (
            Run {
                report_fails: 2,
                ..twos
            },
            Err(Fault::WriteFault),
            &[(2, 2)],
        ),
    ];
    for (run, ends, seen) in rows {
        expect_seen(&rt, rt.alloc(), run, ends, seen)?;
    }
    Ok(())
}

// The number n is item n + 1, so the 8 smallest of 1 to 300 are the items 2 to 9, and the word is the last of them.
#[test]
fn updaters_change_no_last_word(rt: HostRuntime) -> Result<(), Fail> {
    for updaters in [1, 4, 64] {
        let mut run = PLAIN;
        run.last = 300;
        run.window = 100;
        run.interim = false;
        run.updaters = updaters;
        let (word, _) = count(&rt, rt.alloc(), &run)?;
        expect(&rt, word, Ok(9));
    }
    Ok(())
}
