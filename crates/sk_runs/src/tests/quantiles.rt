// Ranks of numbers. With 2k items in the base the coin falls either way, and the rank is the same here.
use super::rows::check_rows;
use std::test::Fail;

const QUANTILES: &str = "\
| quantile --k 2 --at 3 | | 0 | n 0 below 0 within 0; |
| quantile --k 2 --at 3 | 1;2;3; | 0 | n 3 below 2 within 0; |
| quantile --k 2 --at 3 | 1;2;3;4; | 0 | n 4 below 2 within 1; |
| quantile --k 2 --at 3 --key 7 | 4;3;2;1; | 0 | n 4 below 2 within 1; |
| quantile --at 5 | 9;;5;4;4;;0; | 0 | n 5 below 3 within 0; |
| quantile --at 0 | 0;0; | 0 | n 2 below 0 within 0; |
| quantile --at 281474976710655 | 281474976710655;281474976710654; | 0 | n 2 below 1 within 0; |
| quantile --at 281474976710655 | 9223372036854775806;0; | 0 | n 2 below 1 within 0; |
read=0 | quantile --at 5 --file ids | | 0 | n 2 below 1 within 0; |
| quantile --at 1 | 1;x;2; | 6 | | line 2: not a number;
| quantile --at 1 | 9223372036854775807; | 6 | | line 1: not a number;
read=0 | quantile --at 1 | 1; | 3 | | read fault;
write=0 | quantile --at 1 | 1; | 4 | | write fault;
| quantile --at 1 --file none | | 8 | | open fault;
| quantile --k 2 --at 3 --updaters 1 | 1;2;3; | 0 | n 3 below 2 within 0; |
| quantile --k 2 --at 3 --updaters 1 | 1;2;3;4; | 0 | n 4 below 2 within 1; |
| quantile --k 2 --at 3 --updaters 1 --b 1 | 1;2;3; | 0 | n 3 below 2 within 0; |
| quantile --k 2 --at 3 --updaters 1 --b 1 --propagator no | 1;2;3; | 0 | n 3 below 2 within 0; |
| quantile --k 64 --at 3 --updaters 4 --b 2 | 5;1;4;1;;3;9;2;6; | 0 | n 8 below 3 within 0; |
| quantile --k 64 --at 3 --updaters 64 --b 1 --propagator no | 5;1;4;1;;3;9;2;6; | 0 \
| n 8 below 3 within 0; |";

// With one updater and no propagator each interim rank is fixed: it lacks the last two buffers. A full window
// before a fault has its rank.
const WINDOWS: &str = "\
| quantile --k 4 --at 3 --updaters 1 --b 1 --window 2 --propagator no | 1;2;3;4; | 0 \
| at 2 n 0 below 0 within 0;at 4 n 2 below 2 within 0;n 4 below 2 within 0; |
| quantile --at 3 --b 1 --window 2 --propagator no | 1;2;3;4;5; | 0 \
| at 2 n 0 below 0 within 0;at 4 n 2 below 2 within 0;n 5 below 2 within 0; |
| quantile --at 3 --window 2 --propagator no | 1;2;3;4; | 0 \
| at 2 n 0 below 0 within 0;at 4 n 0 below 0 within 0;n 4 below 2 within 0; |
| quantile --at 3 --window 2 | | 0 | n 0 below 0 within 0; |
| quantile --at 3 --b 1 --window 2 --propagator no | 1;2;x; | 6 \
| at 2 n 0 below 0 within 0; | line 3: not a number;
read=5 | quantile --at 3 --b 1 --window 2 --propagator no | 1;2;3;4; | 3 \
| at 2 n 0 below 0 within 0; | read fault;
room=30 | quantile --at 3 --b 1 --window 2 --propagator no | 1;2;3;4; | 4 \
| at 2 n 0 below 0 within 0;at_4 | write fault;
room=55 | quantile --at 3 --b 1 --window 2 --propagator no | 1;2;3;4; | 4 \
| at 2 n 0 below 0 within 0;at 4 n 2 below 2 within 0;n_4 | write fault;
| quantile --k 64 --at 3 --updaters 2 --b 1 --window 2 | 1;2; | 0 \
| at 2 n ? below ? within 0;n 2 below 2 within 0; |";

#[test]
fn quantiles(rt: HostRuntime) -> Result<(), Fail> {
    check_rows(&rt, rt.alloc(), QUANTILES, 20)
}

#[test]
fn interim_ranks(rt: HostRuntime) -> Result<(), Fail> {
    check_rows(&rt, rt.alloc(), WINDOWS, 9)
}
