// Words that are no command, and values at the ends of their limits.
use super::rows::{check_rows, run_alone};
use super::stage::{FINE, expect};
use std::alloc::Global;
use std::process::Abort;
use std::sync::Wait;
use std::test::Fail;
use std::thread::Threads;

const USAGE: &[u8] =
    b"usage: sketchd count, hash, replay, image, join, quantile, serve, make, window, tally or tenants\n";

// One line has no words.
const REFUSED: &str = "\
count --k 1

count --k 1048577
count --k 00000004
image --k 1048577
make --n 1 --k 1048577
serve --port 7000 --k 1048577
count --k
count --k 4 --k 4
count --raw --raw
count --k --raw
count --seed 4294967296
count --csv
count --csv 0
count --csv 4097
count --csv 1 --csv 1
hash --csv 1
count --file
count --file ''
count --file a --file a
count --file none --k 1
--help --file a
replay --seed 1
replay --file a --file b
hash --k 4
hash --window 1
make
make --n
make --n 10000001
make --n 1 --n 1
make --n 1 --key 281474976710656
make --n 1 --file x
make --n 1 --b 4,5
make --n 1 --raw
count --n 1
count --key 1
image --k 1
image --window 1
image --left a
image --image
image --k
join
join --left a
join --right a
join --left '' --right a
join --left a --right ''
join --left a --left a --right b
join --left a --right b --image --image
join --left a --right b --k 2
join --left a --right b x
count --image
count --left a
hash --right a
replay --alarm 1
quantile
quantile --at
quantile --at 281474976710656
quantile --at 1 --k 1
quantile --at 1 --k 4097
quantile --at 1 --key 281474976710656
quantile --at 1 --raw
quantile --at 1 --updaters 65
quantile --at 1 --b 0
quantile --at 1 --b 1,2
quantile --at 1 --window 0
quantile --at 1 --propagator maybe
quantile --at 1 --eager yes
count --at 1
serve
serve --port
serve --port 0
serve --port 65536
serve --port 7000 --sessions 0
serve --port 7000 --sessions 65
serve --port 7000 --wave 0
serve --port 7000 --wave 65
serve --port 7000 --updaters 2
serve --port 7000 --file a
count --port 7000
count --sessions 2
make --n 1 --wave 1
count --updaters 0
count --updaters 65
count --updaters 001
count --b 0
count --b 4097
count --b 1,
count --b ''
count --b ,
count --b ,1
count --b 1,,2
count --b 1,_2
count --b 1;2
count --b 0,1
count --b 1,4097
count --b 00001
count --b 1,-2
count --b 1,1,1,1,1,1,1,1,1,1,1,1,1,1,1,1,1,1,1,1,1,1,1,1,1,1,1,1,1,1,1,1,1,1,1,1,1,1,1,1,1,\
1,1,1,1,1,1,1,1,1,1,1,1,1,1,1,1,1,1,1,1,1,1,1,1
count --window 0
count --window 1000001
count --eager
count --eager Yes
count --eager ''
count --eager yes,no
count --propagator maybe
count --alarm ,1
count --alarm 1,2,3,4,5,6,7,8,9
count --alarm 281474976710656
hash --seed
window
window --span 10
window --last 2
window --span 0 --last 2
window --span 281474976710656 --last 2
window --span 10 --last 1
window --span 10 --last 65
window --span 10 --last 2 --b 1,2
window --span 10 --last 2 --updaters 2
window --span 10 --last 2 --k 1
window --span 10 --last 2 --window 2
count --span 10
count --last 2
tally
tally --rows 1 --width 1
tally --rows 1 --item a
tally --width 1 --item a
tally --rows 0 --width 1 --item a
tally --rows 17 --width 1 --item a
tally --rows 1 --width 0 --item a
tally --rows 1 --width 1048577 --item a
tally --rows 1 --width 1 --item ''
tally --rows 1 --width 1 --item a --b 1,2
tally --rows 1 --width 1 --item a --raw
tally --rows 1 --width 1 --item a --csv 0
tally --rows 1 --width 1 --item a --k 4
count --item a
tenants
tenants --names
tenants --names ''
tenants --names a,
tenants --names ,a
tenants --names a,,b
tenants --names a,b,a
tenants --names a_b
tenants --names a --b 1,2
tenants --names a --updaters 65
tenants --names a --window 2
tenants --names a --csv 1
count --names a
tenants --names 1,2,3,4,5,6,7,8,9,10,11,12,13,14,15,16,17,18,19,20,21,22,23,24,25,26,27,28,29,30,31,\
32,33,34,35,36,37,38,39,40,41,42,43,44,45,46,47,48,49,50,51,52,53,54,55,56,57,58,59,60,61,62,63,64,65
count --k=4
count x
Count
--help --help
--version x
--raw";

// Values that are the least or the greatest, and lists of numbers.
const ACCEPTED: &str = "\
| count --k 2 | a;a; | 0 | estimate 1/1; |
| count --k 1048576 | a;a; | 0 | estimate 1/1; |
| count --updaters 01 --b 64 | a;a; | 0 | estimate 1/1; |
| count --updaters 2 --b 1,4096 | a;a; | 0 | estimate 1/1; |
| count --updaters 3 --b 01,0002,3 | a;a; | 0 | estimate 1/1; |
| count --updaters 4 --b 1,1,1 | a;a; | 0 | estimate 1/1; |
| count --b 1,1,1,1,1,1,1,1,1,1,1,1,1,1,1,1,1,1,1,1,1,1,1,1,1,1,1,1,1,1,1,1,1,1,1,1,1,1,1,1,\
1,1,1,1,1,1,1,1,1,1,1,1,1,1,1,1,1,1,1,1,1,1,1,1 | a;a; | 0 | estimate 1/1; |
| count --csv 4096 | | 0 | estimate 0/1; |
| count --window 1000000 --eager no --propagator yes | a;a; | 0 | estimate 1/1; |
| count --window 1 --eager yes --propagator no | a;a; | 0 \
| at 1 estimate 1/1;at 2 estimate 1/1;estimate 1/1; |
| count --alarm 0,1,2,3,4,5,6,281474976710655 | a;a; | 0 | estimate 1/1; |
| window --span 281474976710655 --last 64 | | 0 | pane 0 estimate 0/1; |
| tenants --names 1,2,3,4,5,6,7,8,9,10,11,12,13,14,15,16,17,18,19,20,21,22,23,24,25,26,27,28,29,30,31,\
32,33,34,35,36,37,38,39,40,41,42,43,44,45,46,47,48,49,50,51,52,53,54,55,56,57,58,59,60,61,62,63,64 \
| x; | 14 | | line 1: bad line;
| --version | | 0 | sketchd 0.2.0;proved and built with rattle-kit-13f logic dac8208d650f15bf; |";

// Runs each line, of which there are this many, over a text that it does not read.
fn check_refused<R: Threads + Wait + Abort + Sync>(
    rt: &R,
    alloc: Global,
    table: &str,
    lines: usize,
) -> Result<(), Fail> {
    assert_eq!(rt; table.lines().count(), lines);
    'line: for line in table.lines() {
        let ran = run_alone(rt, alloc, &FINE, line, b"hello\n".to_vec(alloc)?)?;
        expect(rt, &ran, line, 2, b"", USAGE);
    }
    Ok(())
}

#[test]
fn words_that_are_no_command(rt: HostRuntime) -> Result<(), Fail> {
    check_refused(&rt, rt.alloc(), REFUSED, 156)
}

#[test]
fn values_at_their_limits(rt: HostRuntime) -> Result<(), Fail> {
    check_rows(&rt, rt.alloc(), ACCEPTED, 14)
}
