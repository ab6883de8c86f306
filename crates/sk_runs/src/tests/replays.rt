// Schedules.
use super::rows::check_rows;
use std::test::Fail;

// Whole schedules, and lines that are no events or are by a hair.
const SCHEDULES: &str = "\
| replay | machine 2 1 1;offer 0 5;look 0;swap 0;hand 0;offer 0 7;look 0;ask 0; | 0 \
| kept;hint 9223372036854775808;swapped;handed 1;kept;busy;estimate 0/1; |
| replay | machine 2 2 1;offer 0 3;offer 0 5;look 0;swap 0;hand 0;find 0;take 0;publish 0;ask 0;\
look 0;put 0;return 0;look 0;offer 0 5;offer 0 4; | 0 \
| kept;kept;hint 9223372036854775808;swapped;handed 2;waiting;took 2;published 2;\
estimate 9223372036854775808/5;busy;put;returned 5;hint 5;filtered;kept; |
| replay | machine 2 1 1;offer 0 5;hand 0; | 7 | kept; | line 3: bad event;
| replay | machine 2 1 1;yield 1;turn 0;turn 1;find 0;yield 0;find 0; | 7 \
| yielded;turned;elsewhere 0;nothing;yielded; | line 7: bad event;
| replay | vacant 2 2;admit 1 1;offer 1 5;offer 0 5; | 7 | admitted;kept; | line 4: bad event;
| replay | | 7 | | line 1: bad event;
| replay | ;machine 2 1 1; | 7 | | line 1: bad event;
| replay | machine 2 1; | 7 | | line 1: bad event;
| replay | machine 1 1 1; | 7 | | line 1: bad event;
| replay | ask 0; | 7 | | line 1: bad event;
| replay | machine 2 1 1 | 0 | |
| replay | machine 02 0001 01;ask 00; | 0 | estimate 0/1; |
| replay | machine 1048576 4096 64;ask 0; | 0 | estimate 0/1; |
| replay | machine 1048577 1 1; | 7 | | line 1: bad event;
| replay | machine 0000000000000000002 1 1;offer 0 0000000000000000005; | 0 | kept; |
| replay | machine 00000000000000000002 1 1; | 7 | | line 1: bad event;
| replay | machine 2 2 1;offer 0 1;offer 0 2;look 0;swap 0;hand 0;find 0;take 0;publish 0;ask 0;\
put 0;return 0;look 0;offer 0 2;offer 0 1; | 0 \
| kept;kept;hint 9223372036854775808;swapped;handed 2;waiting;took 2;published 2;\
estimate 9223372036854775808/2;put;returned 2;hint 2;filtered;kept; |
| replay | machine 2 1 1^;ask 0^;ask 0 | 0 | estimate 0/1;estimate 0/1; |
| replay | machine 2 1 1;ask 0;;ask 0; | 7 | estimate 0/1; | line 3: bad event;
| replay | machine 2 1 1;ask 0;machine 2 1 1; | 7 | estimate 0/1; | line 3: bad event;
| replay | machine 2 1 1;ask 0 ; | 7 | | line 2: bad event;
| replay | machine 2 1 1;ask\t0; | 7 | | line 2: bad event;
| replay | machine 2 1 1;split 0;note 0;join 0 2;ask 1;ask 2; | 7 | token 1;token 2;joined;estimate 0/1; \
| line 6: bad event;
| replay | machine 2 0 1; | 7 | | line 1: bad event;
| replay | machine 2 1 65; | 7 | | line 1: bad event;
| replay | machine 2 1 1_; | 7 | | line 1: bad event;
| replay | vacant 2 2; | 0 | |
| replay | vacant 1048576 64; | 0 | |
| replay | vacant 1 1; | 7 | | line 1: bad event;
| replay | vacant 1048577 1; | 7 | | line 1: bad event;
| replay | vacant 2 65; | 7 | | line 1: bad event;
| replay | vacant 2; | 7 | | line 1: bad event;
| replay | vacant 2 1 1; | 7 | | line 1: bad event;";

// Each event when it is enabled, and when it is not, and lines that are none.
const EVENTS: &str = "\
| replay | machine 2 1 1;offer 0 5;offer 0 3; | 7 | kept; | line 3: bad event;
| replay | machine 2 2 1;offer 0 9223372036854775807;offer 0 0; | 7 | kept; | line 3: bad event;
| replay | machine 2 1 1;offer 0 9223372036854775808; | 7 | | line 2: bad event;
| replay | machine 2 1 1;look 0;offer 0 5;swap 0;look 0; | 7 \
| hint 9223372036854775808;kept;swapped; | line 5: bad event;
| replay | machine 2 1 1;offer 0 5;swap 0; | 7 | kept; | line 3: bad event;
| replay | machine 2 1 1;look 0;swap 0; | 7 | hint 9223372036854775808; | line 3: bad event;
| replay | machine 2 1 1;hand 0; | 7 | | line 2: bad event;
| replay | machine 2 1 1;find 0;find 0;take 0; | 7 | nothing;nothing; | line 4: bad event;
| replay | machine 2 1 1;publish 0; | 7 | | line 2: bad event;
| replay | machine 2 1 1;put 0; | 7 | | line 2: bad event;
| replay | machine 2 1 1;return 0; | 7 | | line 2: bad event;
| replay | machine 2 1 1;ask 0;ask 1; | 7 | estimate 0/1; | line 3: bad event;
| replay | machine 2 1 1;split 0;ask 1;split 2; | 7 | token 1;estimate 0/1; | line 4: bad event;
| replay | machine 2 1 1;note 0;note 1; | 7 | token 1; | line 3: bad event;
| replay | machine 2 1 1;split 0;join 0 1;join 0 1; | 7 | token 1;joined; | line 4: bad event;
| replay | machine 2 1 1;join 0 0; | 7 | | line 2: bad event;
| replay | machine 2 1 1;yield 1;turn 0;turn 0; | 7 | yielded;turned; | line 4: bad event;
| replay | machine 2 1 1;turn 1; | 7 | | line 2: bad event;
| replay | machine 2 1 1;yield 0; | 7 | | line 2: bad event;
| replay | machine 2 1 1;admit 0 1; | 7 | | line 2: bad event;
| replay | machine 2 1 1;offer 0 5;look 0;swap 0;hand 0;find 0;find 0; | 7 \
| kept;hint 9223372036854775808;swapped;handed 1;waiting; | line 7: bad event;
| replay | machine 2 1 1;offer 0 5;look 0;swap 0;hand 0;find 0;take 0;take 0; | 7 \
| kept;hint 9223372036854775808;swapped;handed 1;waiting;took 1; | line 8: bad event;
| replay | machine 2 1 1;offer 0 5;look 0;swap 0;hand 0;find 0;publish 0; | 7 \
| kept;hint 9223372036854775808;swapped;handed 1;waiting; | line 7: bad event;
| replay | machine 2 1 1;offer 0 5;look 0;swap 0;hand 0;find 0;take 0;publish 0;return 0; | 7 \
| kept;hint 9223372036854775808;swapped;handed 1;waiting;took 1;published 1; | line 9: bad event;
| replay | machine 2 1 1;offer 0 5;look 0;swap 0;hand 0;\
find 0;take 0;publish 0;put 0;return 0;ask 0;return 0; | 7 \
| kept;hint 9223372036854775808;swapped;handed 1;\
waiting;took 1;published 1;put;returned 9223372036854775808;estimate 1/1; | line 12: bad event;
| replay | vacant 2 1;admit 0 4096;admit 0 1; | 7 | admitted; | line 3: bad event;
| replay | vacant 2 1;admit 0 4097; | 7 | | line 2: bad event;
| replay | machine 2 1 1;offer 1 5; | 7 | | line 2: bad event;
| replay | machine 2 1 1;look 1; | 7 | | line 2: bad event;
| replay | machine 2 1 1;swap 0; | 7 | | line 2: bad event;
| replay | machine 2 1 1;find 1; | 7 | | line 2: bad event;
| replay | machine 2 1 1;take 0; | 7 | | line 2: bad event;
| replay | machine 2 1 1;ask 1; | 7 | | line 2: bad event;
| replay | machine 2 1 1;split 1; | 7 | | line 2: bad event;
| replay | machine 2 1 1;note 1; | 7 | | line 2: bad event;
| replay | machine 2 1 1;join 0 1; | 7 | | line 2: bad event;
| replay | machine 2 1 1;turn 2; | 7 | | line 2: bad event;
| replay | machine 2 1 1;; | 7 | | line 2: bad event;
| replay | machine 2 1 1;ask; | 7 | | line 2: bad event;
| replay | machine 2 1 1;ask__0; | 7 | | line 2: bad event;
| replay | machine 2 1 1;ask 0_; | 7 | | line 2: bad event;
| replay | machine 2 1 1;ask 0 0; | 7 | | line 2: bad event;
| replay | machine 2 1 1;ASK 0; | 7 | | line 2: bad event;
| replay | machine 2 1 1;look -1; | 7 | | line 2: bad event;
| replay | machine 2 1 1;look 9223372036854775808; | 7 | | line 2: bad event;
| replay | machine 2 1 1;offer 0; | 7 | | line 2: bad event;
| replay | machine 2 1 1;offer 0 0; | 7 | | line 2: bad event;
| replay | machine 2 1 1;offer 0 00000000000000000001; | 7 | | line 2: bad event;
| replay | machine 2 1 1;offer 0 1 2; | 7 | | line 2: bad event;";

// Of a line that is too long and one that is no event, the first decides. What was answered before
// a fault stands.
const BROKEN_OFF: &str = "\
piece=65536 | replay | machine 2 1 1;ask 0;@x | 5 | estimate 0/1; | line 3: too long;
piece=65536 | replay | machine 2 1 1;ask 1;@x | 7 | | line 2: bad event;
piece=22 read=1 | replay | machine 2 1 1;ask 0;ask 0;ask 0; | 3 | estimate 0/1; | read fault;
piece=65536 room=20 | replay | machine 2 1 1;ask 0;ask 0;ask 0; | 4 \
| estimate 0/1;estimat | write fault;
piece=65536 room=20 | replay | machine 2 1 1;ask 0;ask 0;ask 1; | 4 \
| estimate 0/1;estimat | write fault;
piece=65536 room=0 | replay | machine 2 1 1; | 0 | |";

#[test]
fn schedules(rt: HostRuntime) -> Result<(), Fail> {
    check_rows(&rt, rt.alloc(), SCHEDULES, 33)
}

#[test]
fn every_event(rt: HostRuntime) -> Result<(), Fail> {
    check_rows(&rt, rt.alloc(), EVENTS, 49)
}

#[test]
fn schedules_that_break_off(rt: HostRuntime) -> Result<(), Fail> {
    check_rows(&rt, rt.alloc(), BROKEN_OFF, 6)
}

// There are 256 tokens, one from the start on.
#[test]
fn tokens_run_out(rt: HostRuntime) -> Result<(), Fail> {
    let alloc = rt.alloc();
    let mut row = String::from_str(alloc, "| replay | machine 2 1 1;")?;
    let mut answers = String::new(alloc);
    'token: for number in 1..256u32 {
        row.push_str("split 0;")?;
        answers.push_str(format!(in alloc; "token {number};")?.as_str())?;
    }
    let row = format!(in alloc; "{row}split 0; | 7 | {answers} | line 257: bad event;")?;
    check_rows(&rt, alloc, row.as_str(), 1)
}
