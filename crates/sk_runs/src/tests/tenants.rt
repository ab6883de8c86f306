// Estimates of tenants.
use super::rows::check_rows;
use std::test::Fail;

const TENANTS: &str = "\
| tenants --names a,b --k 4 --updaters 2 | a hello;b hello;a hello, world; | 0 | a estimate 2/1;b estimate 1/1; |
| tenants --names a,b --k 4 --updaters 2 | a x;c x; | 16 | | line 2: unknown tenant;
| tenants --names b,a | | 0 | b estimate 0/1;a estimate 0/1; |
| tenants --names b,a | ;a x;;a x;b x;b y | 0 | b estimate 2/1;a estimate 1/1; |
| tenants --names a,ab,abc | ab x;abc y;abc z; | 0 | a estimate 0/1;ab estimate 1/1;abc estimate 2/1; |
| tenants --names a | a x;a x y;a  x;a x; | 0 | a estimate 3/1; |
| tenants --names --k | --k x; | 0 | --k estimate 1/1; |
read=0 | tenants --names a --file text | a x;a y; | 0 | a estimate 2/1; |
| tenants --names a --file none | | 8 | | open fault;
| tenants --names a,b --updaters 1 --b 1 | a x;b x;a y;b x;a z; | 0 | a estimate 3/1;b estimate 1/1; |
| tenants --names a,b --updaters 4 --b 1 --seed 7 | a x;b x;a y;b x;a z; | 0 | a estimate 3/1;b estimate 1/1; |
| tenants --names a,b --updaters 8 --b 2 | a x;b x;a y;b x;a z; | 0 | a estimate 3/1;b estimate 1/1; |
| tenants --names a,b --updaters 64 | a x;b x;a y;b x;a z; | 0 | a estimate 3/1;b estimate 1/1; |
| tenants --names a,b --updaters 2 | a x;a xy^;b xy^;a yx^;b xy^; | 0 | a estimate 3/1;b estimate 1/1; |
| tenants --names a,b --updaters 2 | a xyz;a xy^;a xyw;a xy;b xy;b xy; | 0 | a estimate 3/1;b estimate 1/1; |
| tenants --names a,ab,abc --updaters 2 | a xyz;ab xy;abc x;a xyw; | 0 | a estimate 2/1;ab estimate 1/1;abc estimate 1/1; |";

// Nothing is written before all is read. The form of a line is asked before its name.
const REFUSED: &str = "\
| tenants --names a | a x;a; | 14 | | line 2: bad line;
| tenants --names a | a x;a_; | 14 | | line 2: bad line;
| tenants --names a | a x;;_x; | 14 | | line 3: bad line;
| tenants --names a | a x;c; | 14 | | line 2: bad line;
| tenants --names ab | a x; | 16 | | line 1: unknown tenant;
| tenants --names a | ab x;a; | 16 | | line 1: unknown tenant;
| tenants --names abc,bcd --updaters 2 | abc x;bcd y^;abc ^;bcd ^; | 14 | | line 3: bad line;
| tenants --names abc,bcd --updaters 2 | abc x;bcd ^;abc ^;bcd ^; | 14 | | line 2: bad line;
| tenants --names a,b --updaters 2 | a xyz;b xyz;a yzx;c xyz;b xyz; | 16 | | line 4: unknown tenant;
| tenants --names a,b --updaters 2 | a xyz;b xyz;a yzx;bxyzx;b xyz; | 14 | | line 4: bad line;
piece=65536 | tenants --names a | a @; | 5 | | line 1: too long;
read=5 | tenants --names a | a x;a y; | 3 | | read fault;
read=8 | tenants --names a | a x;a y; | 3 | | read fault;
read=9 | tenants --names a | a x;a y; | 0 | a estimate 2/1; |
room=0 | tenants --names a | a x; | 4 | | write fault;
room=20 | tenants --names a,b | a x;b y; | 4 | a estimate 1/1;b est | write fault;";

// Equal texts by one updater and by eight, and more lines than one stretch takes, so that lanes, their pool and the drain
// run in threads. For k of 32,768 the estimates are exact, and for 4,096 those of one thread, worked outside.
const LONG: &str = "\
piece=65536 | tenants --names a,b --k 32768 --updaters 1 | ~b x; | 0 | a estimate 10000/1;b estimate 10001/1; |
piece=65536 | tenants --names a,b --k 32768 --updaters 8 | ~b x; | 0 | a estimate 10000/1;b estimate 10001/1; |
piece=65536 | tenants --names a,b --updaters 8 | ~~~~ | 0 \
| a estimate 37769708490920306933760/3751311083847550720;b estimate 37769708490920306933760/3751311083847550720; |";

#[test]
fn tenants(rt: HostRuntime) -> Result<(), Fail> {
    check_rows(&rt, rt.alloc(), TENANTS, 16)
}

#[test]
fn lines_of_no_tenant(rt: HostRuntime) -> Result<(), Fail> {
    check_rows(&rt, rt.alloc(), REFUSED, 16)
}

#[test]
fn long_texts(rt: HostRuntime) -> Result<(), Fail> {
    check_rows(&rt, rt.alloc(), LONG, 3)
}
