// Estimates of the last intervals.
use super::rows::check_rows;
use std::test::Fail;

const PANES: &str = "\
| window --k 4 --span 10 --last 2 | 0 a;5 b;12 a;31 c; | 0 \
| pane 0 estimate 2/1;pane 1 estimate 2/1;pane 3 estimate 1/1; |
| window --k 4 --span 10 --last 2 | 0 a;12 b;9 c; | 15 | pane 0 estimate 1/1; | line 3: earlier moment;
| window --k 4 --span 10 --last 2 | x; | 14 | | line 1: bad line;
| window --span 10 --last 2 | | 0 | pane 0 estimate 0/1; |
| window --span 10 --last 2 | ;;;0 a;;0 a | 0 | pane 0 estimate 1/1; |
| window --span 10 --last 2 | 0 a;9 b;0 c; | 0 | pane 0 estimate 3/1; |
| window --span 10 --last 2 | 12 a; | 0 | pane 0 estimate 0/1;pane 1 estimate 1/1; |
| window --span 10 --last 2 | 10 a;9 b; | 15 | pane 0 estimate 0/1; | line 2: earlier moment;
| window --span 10 --last 3 | 0 a;10 b;20 c;30 d;40 a; | 0 \
| pane 0 estimate 1/1;pane 1 estimate 2/1;pane 2 estimate 3/1;pane 3 estimate 3/1;pane 4 estimate 3/1; |
| window --span 1 --last 64 --seed 7 --b 1 | 0 a;1 a;63 b;64 b; | 0 \
| pane 0 estimate 1/1;pane 1 estimate 1/1;pane 63 estimate 2/1;pane 64 estimate 2/1; |
| window --span 1 --last 2 --b 4096 | 0 a b;0 a  b;0 a; | 0 | pane 0 estimate 3/1; |
| window --span 281474976710655 --last 2 | 281474976710655 a; | 0 \
| pane 0 estimate 0/1;pane 1 estimate 1/1; |
read=0 | window --span 10 --last 2 --file text | 0 a;12 b; | 0 | pane 0 estimate 1/1;pane 1 estimate 2/1; |
| window --span 10 --last 2 --file none | | 8 | | open fault;";

// A line that is refused ends no interval. Its form is asked before its moment.
const REFUSED: &str = "\
| window --span 10 --last 2 | 0 a;12_; | 14 | | line 2: bad line;
| window --span 10 --last 2 | 0 a;12; | 14 | | line 2: bad line;
| window --span 10 --last 2 | 0 a;;_a; | 14 | | line 3: bad line;
| window --span 10 --last 2 | 0 a;281474976710656 b; | 14 | | line 2: bad line;
| window --span 10 --last 2 | 0 a;0000000000000012 b; | 14 | | line 2: bad line;
| window --span 10 --last 2 | 0 a;+12 b; | 14 | | line 2: bad line;
| window --span 10 --last 2 | 12 a;9; | 14 | pane 0 estimate 0/1; | line 2: bad line;
| window --span 10 --last 2 | 12 a;9 b;x; | 15 | pane 0 estimate 0/1; | line 2: earlier moment;
piece=65536 | window --span 10 --last 2 | 12 @; | 5 | | line 1: too long;
piece=65536 | window --span 10 --last 2 | 12 a;x;12 @; | 14 | pane 0 estimate 0/1; | line 2: bad line;";

// Intervals that lines ended before a fault have their estimates.
const FAULTS: &str = "\
read=8 | window --span 10 --last 2 | 0 a;12 b;31 c; | 3 | | read fault;
read=9 | window --span 10 --last 2 | 0 a;12 b;31 c; | 3 | pane 0 estimate 1/1; | read fault;
read=13 | window --span 10 --last 2 | 0 a;12 b;31 c; | 3 | pane 0 estimate 1/1; | read fault;
read=14 | window --span 10 --last 2 | 0 a;12 b;31 c; | 3 \
| pane 0 estimate 1/1;pane 1 estimate 2/1; | read fault;
read=15 | window --span 10 --last 2 | 0 a;12 b;31 c; | 0 \
| pane 0 estimate 1/1;pane 1 estimate 2/1;pane 3 estimate 1/1; |
room=0 | window --span 10 --last 2 | | 4 | | write fault;
room=6 | window --span 10 --last 2 | 0 a;12 b;31 c; | 4 | pane 0 | write fault;
room=25 | window --span 10 --last 2 | 0 a;12 b;31 c; | 4 | pane 0 estimate 1/1;pane_ | write fault;
taken=1 write=10 | window --span 10 --last 2 | 0 a;12 b;x; | 4 | pane 0 est | write fault;";

#[test]
fn panes(rt: HostRuntime) -> Result<(), Fail> {
    check_rows(&rt, rt.alloc(), PANES, 14)
}

#[test]
fn lines_that_are_refused(rt: HostRuntime) -> Result<(), Fail> {
    check_rows(&rt, rt.alloc(), REFUSED, 10)
}

#[test]
fn panes_before_a_fault(rt: HostRuntime) -> Result<(), Fail> {
    check_rows(&rt, rt.alloc(), FAULTS, 9)
}
