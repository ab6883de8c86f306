// How often one item comes.
use super::rows::check_rows;
use std::test::Fail;

// In few narrow rows other items share the cell of the one that is asked for, and the least row decides.
const TALLIES: &str = "\
| tally --rows 2 --width 1 --item hello | hello;hello;hello, world; | 0 | n 3 item 3; |
| tally --rows 4 --width 1000 --item hello --updaters 2 | hello;hello; | 0 | n 2 item 2; |
| tally --rows 4 --width 1000 --item hello | | 0 | n 0 item 0; |
| tally --rows 4 --width 1000 --item hello,_world | hello;hello, world;;hello; | 0 | n 3 item 1; |
| tally --rows 1 --width 2 --item a | a;b;c;d;e;f;g;h; | 0 | n 8 item 6; |
| tally --rows 2 --width 2 --item a | a;b;c;d;e;f;g;h; | 0 | n 8 item 4; |
| tally --rows 3 --width 3 --item a | a;b;c;d;e;f;g;h;i;j; | 0 | n 10 item 2; |
| tally --rows 2 --width 3 --item a --seed 7 | a;b;c;d;e;f;g;h; | 0 | n 8 item 2; |
| tally --rows 16 --width 1 --item b | a;c; | 0 | n 2 item 2; |
| tally --rows 1 --width 4096 --item a | a;a | 0 | n 2 item 2; |
| tally --rows 4 --width 1000 --item x --csv 2 | a,x;b,x;c,y; | 0 | n 3 item 2; |
| tally --rows 4 --width 1000 --item x --csv 2 | a,x;b; | 12 | | record 2: bad csv;
read=0 | tally --rows 4 --width 1000 --item a --file text | a;b;a; | 0 | n 3 item 2; |
read=3 | tally --rows 4 --width 1000 --item a | a;b;a; | 3 | | read fault;
room=4 | tally --rows 4 --width 1000 --item a | a;b;a; | 4 | n 3_ | write fault;
piece=65536 | tally --rows 4 --width 1000 --item a | a;@x; | 5 | | line 2: too long;
| tally --rows 4 --width 1000 --item a --file none | | 8 | | open fault;
| tally --rows 3 --width 3 --item a --updaters 1 --b 1 | a;b;c;d;e;f;g;h;i;j; | 0 | n 10 item 2; |
| tally --rows 3 --width 3 --item a --updaters 4 --b 2 | a;b;c;d;e;f;g;h;i;j; | 0 | n 10 item 2; |
| tally --rows 3 --width 3 --item a --updaters 8 --b 1 --propagator no | a;b;c;d;e;f;g;h;i;j; | 0 \
| n 10 item 2; |
| tally --rows 3 --width 3 --item a --updaters 64 --b 1 --propagator no | a;b;c;d;e;f;g;h;i;j; | 0 \
| n 10 item 2; |
piece=65536 | tally --rows 4 --width 65536 --item 7 --updaters 1 | #### | 0 | n 80000 item 8; |
piece=65536 | tally --rows 4 --width 65536 --item 7 --updaters 4 | #### | 0 | n 80000 item 8; |";

// With one updater and no propagator each interim count is fixed: it lacks the last two buffers.
const WINDOWS: &str = "\
| tally --rows 4 --width 1000 --item a --b 1 --window 2 --propagator no | a;b;a;a; | 0 \
| at 2 n 0 item 0;at 4 n 2 item 1;n 4 item 3; |
| tally --rows 4 --width 1000 --item a --window 2 --propagator no | a;b;a;a; | 0 \
| at 2 n 0 item 0;at 4 n 0 item 0;n 4 item 3; |
| tally --rows 4 --width 1000 --item x --csv 1 --b 1 --window 2 --propagator no | x,1;x,2;x; | 12 \
| at 2 n 0 item 0; | record 3: bad csv;
read=5 | tally --rows 4 --width 1000 --item a --b 1 --window 2 --propagator no | a;b;a;a; | 3 \
| at 2 n 0 item 0; | read fault;
room=21 | tally --rows 4 --width 1000 --item a --b 1 --window 2 --propagator no | a;b;a;a; | 4 \
| at 2 n 0 item 0;at 4_ | write fault;
| tally --rows 4 --width 1000 --item a --updaters 2 --b 1 --window 2 | a;a; | 0 \
| at 2 n ? item ?;n 2 item 2; |";

#[test]
fn tallies(rt: HostRuntime) -> Result<(), Fail> {
    check_rows(&rt, rt.alloc(), TALLIES, 23)
}

#[test]
fn interim_tallies(rt: HostRuntime) -> Result<(), Fail> {
    check_rows(&rt, rt.alloc(), WINDOWS, 6)
}
