// Interim estimates and alarms.
use super::rows::check_rows;
use std::test::Fail;

// With one updater and no propagator each interim estimate is fixed. A full window before a refused
// line has its estimate, an unfinished one none. Alarms are of interim estimates alone.
const FIXED: &str = "\
| count --raw --k 8 --b 2 --updaters 1 --window 5 --eager no --propagator no | 1;2;3;4;5; | 0 \
| at 5 estimate 2/1;estimate 5/1; |
| count --raw --k 8 --b 2 --updaters 1 --window 5 --eager yes --propagator no | 1;2;3;4;5; | 0 \
| at 5 estimate 5/1;estimate 5/1; |
| count --raw --k 8 --b 1 --updaters 1 --window 5 --eager no --propagator no | 1;2;3;4;5; | 0 \
| at 5 estimate 3/1;estimate 5/1; |
| count --raw --k 8 --b 1 --updaters 1 --window 5 --eager yes --propagator no | 1;2;3;4;5; | 0 \
| at 5 estimate 5/1;estimate 5/1; |
| count --raw --k 8 --b 1 --updaters 1 --window 2 --eager no --propagator no | 1;2;3;4; | 0 \
| at 2 estimate 0/1;at 4 estimate 2/1;estimate 4/1; |
| count --raw --k 8 --b 2 --updaters 1 --window 2 --eager no --propagator no | 1;2;3;4; | 0 \
| at 2 estimate 0/1;at 4 estimate 0/1;estimate 4/1; |
| count --raw --k 8 --b 2 --updaters 1 --window 2 --eager yes --propagator no | 1;2;3; | 0 \
| at 2 estimate 2/1;estimate 3/1; |
| count --raw --k 2 --b 1 --updaters 1 --window 3 --eager yes --propagator no | 5;4;3; | 0 \
| at 3 estimate 9223372036854775808/6;estimate 9223372036854775808/5; |
| count --raw --k 2 --b 2 --updaters 1 --window 3 --eager yes --propagator no | 5;4;3; | 0 \
| at 3 estimate 9223372036854775808/6;estimate 9223372036854775808/5; |
piece=8 read=1 | count --raw --window 2 --propagator no | 1;2;3;4; | 3 \
| at 2 estimate 2/1;at 4 estimate 4/1; | read fault;
piece=8 read=1 | count --raw --window 2 --propagator no --b 1 | 1;2;3;4; | 3 \
| at 2 estimate 2/1;at 4 estimate 4/1; | read fault;
| count --raw --window 2 --propagator no --alarm 2,4,9 | 1;2;3;4; | 0 \
| at 2 estimate 2/1;alarm 1;at 4 estimate 4/1;alarm 2;estimate 4/1; |
| count --raw --window 2 --propagator no --alarm 2,4,9 --b 1 | 1;2;3;4; | 0 \
| at 2 estimate 2/1;alarm 1;at 4 estimate 4/1;alarm 2;estimate 4/1; |
| count --raw --window 2 --propagator no --alarm 2,4,9 --b 2 | 1;2;3;4; | 0 \
| at 2 estimate 2/1;alarm 1;at 4 estimate 4/1;alarm 2;estimate 4/1; |
| count --raw --window 2 --propagator no --alarm 2,2 | 1;2;3;4; | 0 \
| at 2 estimate 2/1;alarm 1;alarm 2;at 4 estimate 4/1;estimate 4/1; |
| count --raw --k 2 --window 2 --propagator no --alarm 281474976710655 | 0;32767; | 0 \
| at 2 estimate 9223372036854775808/32768;alarm 1;estimate 9223372036854775808/32768; |
| count --raw --k 2 --window 2 --propagator no --alarm 281474976710655 | 0;32768; | 0 \
| at 2 estimate 9223372036854775808/32769;estimate 9223372036854775808/32769; |
| count --raw --k 8 --b 2,1 --updaters 2 --window 2 --eager no --propagator no | 1;2; | 0 \
| at 2 estimate 0/1;estimate 2/1; |
| count --raw --window 2 --propagator no | 1;2;3;x; | 6 | at 2 estimate 2/1; | line 4: not a number;
| count --raw --alarm 0 | 1;2;3;4; | 0 | estimate 4/1; |
| count --raw --window 2 --alarm 0 | | 0 | estimate 0/1; |
| count --raw --window 2 --propagator no | 1;;2;1; | 0 \
| at 2 estimate 1/1;at 4 estimate 2/1;estimate 2/1; |";

// With a propagator an interim estimate may lack the last buffer of each updater's share.
const RELAXED: &str = "\
| count --raw --window 2 | 1;2;3; | 0 | at 2 estimate ?/1;estimate 3/1; |
| count --raw --window 2 --b 1 | 1;2;3; | 0 | at 2 estimate ?/1;estimate 3/1; |
| count --raw --window 2 --b 2 | 1;2;3; | 0 | at 2 estimate ?/1;estimate 3/1; |
| count --raw --window 2 --eager no | 1;2;3; | 0 | at 2 estimate ?/1;estimate 3/1; |
| count --raw --window 2 --updaters 2 | 1;2;3; | 0 | at 2 estimate ?/1;estimate 3/1; |";

#[test]
fn interim_estimates(rt: HostRuntime) -> Result<(), Fail> {
    check_rows(&rt, rt.alloc(), FIXED, 22)
}

#[test]
fn relaxed_estimates(rt: HostRuntime) -> Result<(), Fail> {
    check_rows(&rt, rt.alloc(), RELAXED, 5)
}
