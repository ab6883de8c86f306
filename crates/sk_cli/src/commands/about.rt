// The commands that write a text about the program.

/// What `--help` writes.
pub const HELP: &str = "\
sketchd estimates how many distinct items a stream has, by a sketch of the k smallest hashes.

usage:
  sketchd count [--k K] [--raw] [--seed S] [--csv C] [--file NAME] [--updaters N] [--b B,..]
                [--window W] [--alarm M,..] [--eager yes|no] [--propagator yes|no]
      writes the estimate of how many distinct lines there are that are not empty
      --k K        how many hashes are kept, 2 to 1048576 (4096)
      --csv C      counts column C, 1 to 4096, of comma-separated values in place of lines
      --raw        each line is a number from 0 to 9223372036854775806
                   that is a hash already; of plain ids it makes an estimate that is far off
      --seed S     the seed of the hash, 0 to 4294967295 (0)
      --file NAME  reads this file in place of the standard input
      --updaters N how many updaters share the lines, 1 to 64 (1)
      --b B,..     how many items an updater hands over at once, 1 to 4096 each (64); the last
                   number is that of all further updaters
      --window W   writes an estimate after each W lines too, 1 to 1000000
      --alarm M,.. writes a line at the first such estimate of M or more, 0 to 281474976710655
                   each, at most 8
      --eager      hands over item by item while there are few (yes)
      --propagator one thread merges what updaters hand over; with no they do it themselves, as
                   they always do if several share lines without --window (yes)
  sketchd hash [--seed S] [--file NAME]
      writes the hash of each line that is not empty, 16 digits in base 16
      --seed S     the seed of the hash, 0 to 4294967295 (0)
      --file NAME  reads this file in place of the standard input
  sketchd image [--k K] [--raw] [--seed S] [--csv C] [--file NAME]
      writes the image of the items once they were all read: what the sketch keeps of them, as text
      --k, --raw, --seed, --csv, --file as for count
  sketchd join --left NAME --right NAME [--image]
      reads two images of one version, k and seed and writes the estimate of both as one
      --left NAME, --right NAME the files of the two
      --image      writes the image of both in place of the estimate
  sketchd make --n N [--key S] [--k K] [--updaters N] [--b B] [--propagator yes|no]
      makes N lines of numbers and writes how many they are and the estimate of how many distinct
      numbers there are
      --n N        how many lines, 0 to 10000000
      --key S      which numbers, 0 to 281474976710655 (0)
      --b B        how many items an updater hands over at once, 1 to 4096 (64)
      --k, --updaters, --propagator as for count
  sketchd quantile --at X [--k K] [--key S] [--file NAME] [--updaters N] [--b B] [--window W]
                   [--propagator yes|no]
      reads numbers, one a line, and writes how many there are, how many of them are below X, and by
      how much that may be off
      --at X       0 to 281474976710655
      --k K        2 to 4096 (128); a larger one takes more memory, and less may be off
      --key S      which coins are tossed, 0 to 281474976710655 (0)
      --file NAME  reads this file in place of the standard input
      --b B        how many items an updater hands over at once, 1 to 4096 (64); at least
                   1024 without --window
      --window W   writes the same of what was handed over by then after each W lines too
      --updaters, --propagator as for count
  sketchd replay [--file NAME]
      plays a schedule of the sketch's concurrent protocol and writes the answer to each event; the
      first line is `machine K B N` or `vacant K N`
      --file NAME  reads this file in place of the standard input
  sketchd serve --port P [--sessions N] [--wave N] [--k K] [--b B,..] [--seed S] [--eager yes|no]
                [--alarm M,..]
      answers clients' requests (add ITEM, ask, sync, quit) over links to port P of this machine, and
      then writes how each session ended and the estimate of all that was added
      --port P     1 to 65535
      --sessions N how many links are accepted in all, 1 to 64 (1)
      --wave N     how many of them run at once at most, 1 to 64 (all)
      --k, --b, --seed, --eager, --alarm as for count
  sketchd tally --rows N --width N --item WORD [--seed S] [--csv C] [--file NAME] [--updaters N]
                [--b B] [--window W] [--propagator yes|no]
      writes how many lines there are that are not empty, and how many of them are WORD, or more
      --rows N     1 to 16; with more rows a count is less often far too high
      --width N    how many cells a row has, 1 to 1048576; with more a count is nearer
      --item WORD  what is counted, not empty
      --b B        how many items an updater hands over at once, 1 to 4096 (64); at least
                   1024 without --window
      --window W   writes the same of what was handed over by then after each W lines too
      --seed, --csv, --file, --updaters, --propagator as for count
  sketchd tenants --names A,B,.. [--k K] [--b B] [--seed S] [--updaters N] [--file NAME]
      reads lines NAME ITEM, and writes for each name, once all are read, the estimate of how many
      distinct items its lines have
      --names A,B,.. whose lines are counted: 1 to 64 names, all different, without spaces
      --b B        how many items an updater hands over at once, 1 to 4096 (64); at least
                   512
      --k, --seed, --updaters, --file as for count
  sketchd window --span N --last N [--k K] [--b B] [--seed S] [--file NAME]
      reads lines MOMENT ITEM, a moment being a number from 0 to 281474976710655, and writes for
      each interval, once a line of a later one comes, the estimate of how many distinct items it
      and the intervals before it have
      --span N     how long an interval is, 1 to 281474976710655
      --last N     how many intervals an estimate is of, 2 to 64
      --b B        how many items an updater hands over at once, 1 to 4096 (64)
      --k, --seed, --file as for count
  sketchd COMMAND --help
  sketchd --help
  sketchd --version

A line has at most 65536 bytes. An option stands at most once.

exit status, each but 0 with one line on the standard error:
   0  the whole input was read, and the whole text written
   1  out of memory
   2  the words are no command
   3  a read failed
   4  a write failed; a part of the text may have been written
   5  a line has more than 65536 bytes
   6  a line is no number
   7  a line of a schedule is unreadable, or its event is not enabled
   8  a file could not be opened
   9  a line of an image is not as its place requires
  10  a port could not be listened at, or a link not accepted
  11  the versions, the k or the seeds of two images differ
  12  a record has not as many fields as the first, or has no such column
  13  2^40 bytes were read
  14  a line is not MOMENT ITEM, or not NAME ITEM
  15  a line has a moment in an interval that has ended
  16  a line has a name that was not given

examples:
  awk '{ print $1 }' access.log | sketchd count
  sketchd count --csv 3 --file visits.csv --updaters 4 --window 100000 --alarm 5000
";

/// What `--version` writes: the version, and the toolchain that proved and built it.
pub const VERSION: &str = "\
sketchd 0.2.0
proved and built with rattle-kit-13f logic dac8208d650f15bf
";
