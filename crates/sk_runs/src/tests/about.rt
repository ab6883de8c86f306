// What `--help` has of the options, their limits and defaults, of the statuses and of examples.
use super::rows::run_alone;
use super::stage::{FINE, expect};
use std::test::Fail;

const SHOWN: &str = "\
[--k K] [--raw] [--seed S] [--csv C] [--file NAME] [--updaters N] [--b B,..]
[--window W] [--alarm M,..] [--eager yes|no] [--propagator yes|no]
--k K        how many hashes are kept, 2 to 1048576 (4096)
--csv C      counts column C, 1 to 4096, of comma-separated values
--raw        each line is a number from 0 to 9223372036854775806
--seed S     the seed of the hash, 0 to 4294967295 (0)
--file NAME  reads this file in place of the standard input
--updaters N how many updaters share the lines, 1 to 64 (1)
--b B,..     how many items an updater hands over at once, 1 to 4096 each (64);
--window W   writes an estimate after each W lines too, 1 to 1000000
--alarm M,.. writes a line at the first such estimate of M or more, 0 to 281474976710655
each, at most 8
--eager      hands over item by item while there are few (yes)
--propagator one thread merges what updaters hand over; with no they do it themselves, as
they always do if several share lines without --window (yes)
writes the hash of each line that is not empty, 16 digits in base 16
sketchd tally --rows N --width N --item WORD [--seed S] [--csv C] [--file NAME] [--updaters N]
--rows N     1 to 16; with more rows a count is less often far too high
--width N    how many cells a row has, 1 to 1048576; with more a count is nearer
--item WORD  what is counted, not empty
sketchd tenants --names A,B,.. [--k K] [--b B] [--seed S] [--updaters N] [--file NAME]
--names A,B,.. whose lines are counted: 1 to 64 names, all different, without spaces
sketchd window --span N --last N [--k K] [--b B] [--seed S] [--file NAME]
--span N     how long an interval is, 1 to 281474976710655
--last N     how many intervals an estimate is of, 2 to 64
A line has at most 65536 bytes. An option stands at most once.
exit status, each but 0 with one line on the standard error:
2  the words are no command
16  a line has a name that was not given
awk '{ print $1 }' access.log | sketchd count";

#[test]
fn help_shows_each_option(rt: HostRuntime) -> Result<(), Fail> {
    let alloc = rt.alloc();
    let ran = run_alone(&rt, alloc, &FINE, "--help", Vec::new(alloc))?;
    let help = String::from_utf8(ran.out.written().to_vec(alloc)?)?;
    expect(&rt, &ran, "--help", 0, help.as_bytes(), b"");
    assert_eq!(rt; SHOWN.lines().count(), 30);
    'line: for line in SHOWN.lines() {
        assert!(rt; help.contains(line), "{line}");
    }
    Ok(())
}
