// Columns of comma-separated values.
use super::rows::check_rows;
use std::test::Fail;

// As plain lines the sixth text has two items. Of two records the first decides, and within one its
// number of fields. A field over the limit is reported as a line, by the number of its record.
const COLUMNS: &str = "\
| count --csv 2 --k 4 | a,hello;b,\"hello, world\";c,hello; | 0 | estimate 2/1; |
| count --csv 1 | a,hello;b,\"hello, world\";c,hello; | 0 | estimate 3/1; |
| count --csv 3 | | 0 | estimate 0/1; |
| count --raw --csv 2 --k 2 | a,5;b,;c,3; | 0 | estimate 9223372036854775808/6; |
| count --csv 0001 --seed 3 | a^;^;\"a\"^; | 0 | estimate 1/1; |
| count --csv 1 | a,x;a,y; | 0 | estimate 1/1; |
| count --csv 3 | a,hello;b,\"hello, world\";c,hello; | 12 | | record 1: bad csv;
| count --csv 1 | a,b;c; | 12 | | record 2: bad csv;
| count --raw --csv 2 | a,5;b,x; | 6 | | record 2: not a number;
| count --raw --csv 1 | 1,2;x,2;1; | 6 | | record 2: not a number;
| count --raw --csv 1 | 1,2;x;x,2; | 12 | | record 2: bad csv;
piece=65536 | count --raw --csv 2 | a,b;c,@xxxx | 6 | | record 1: not a number;
piece=65536 | count --raw --csv 2 | a,;c,@xxxx | 5 | | line 2: too long;
piece=3 read=1 | count --csv 1 | a,b;c,d; | 3 | | read fault;
| count --raw --csv 2 --window 2 --propagator no | a,1;b,2;c,; | 0 \
| at 2 estimate 2/1;estimate 2/1; |
| count --raw --csv 2 --window 2 --propagator no | a,1;b,2;c,x; | 6 \
| at 2 estimate 2/1; | record 3: not a number;";

#[test]
fn columns(rt: HostRuntime) -> Result<(), Fail> {
    check_rows(&rt, rt.alloc(), COLUMNS, 16)
}
