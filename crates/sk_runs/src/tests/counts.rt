// Counts of lines, as far as one last line shows them.
use super::rows::check_rows;
use std::test::Fail;

const FINE: &str = "\
| count --k 4 | | 0 | estimate 0/1; |
| count --k 2 | hello;hello, world;The quick brown fox jumps over the lazy dog.; | 0 \
| estimate 9223372036854775808/7344337286506401153; |
| count --k 4 | hello;hello, world;hello; | 0 | estimate 2/1; |
| count --k 4 | ;a^;a | 0 | estimate 1/1; |
| count | hello; | 0 | estimate 1/1; |
| count --raw --k 2 | 5;3; | 0 | estimate 9223372036854775808/6; |
| count --k 2 --raw | 0;1; | 0 | estimate 9223372036854775808/2; |
| count --raw --k 2 | 7;9223372036854775806; | 0 | estimate 9223372036854775808/9223372036854775807; |
| count --raw --k 2 | 0000000000000000000;0; | 0 | estimate 1/1; |
| count --raw | 281474976710656; | 0 | estimate 1/1; |
| count --raw --k 3 | 2;0;1; | 0 | estimate 18446744073709551616/3; |
| count --k 0000004 --seed 4294967295 | a;b; | 0 | estimate 2/1; |
| count --raw | 1;;01; | 0 | estimate 1/1; |
piece=65536 | count --k 4 | @ | 0 | estimate 1/1; |
piece=65536 | count --k 4 | @^; | 0 | estimate 1/1; |
| count --k 2 --updaters 64 | hello;hello, world;The quick brown fox jumps over the lazy dog.; | 0 \
| estimate 9223372036854775808/7344337286506401153; |
| count --k 2 --updaters 1 | hello;hello, world;The quick brown fox jumps over the lazy dog.; | 0 \
| estimate 9223372036854775808/7344337286506401153; |
piece=65536 | count --raw --updaters 1 | # | 0 | estimate 37769708490920306933760/4097; |
piece=65536 | count --raw --updaters 4 | # | 0 | estimate 37769708490920306933760/4097; |
piece=65536 | count --raw --updaters 64 | # | 0 | estimate 37769708490920306933760/4097; |
piece=65536 | count --raw --updaters 4 --propagator no | # | 0 \
| estimate 37769708490920306933760/4097; |
piece=65536 | count --raw --updaters 4 --eager no --b 1 | # | 0 \
| estimate 37769708490920306933760/4097; |
piece=65536 | count --raw --updaters 4 --eager no --propagator no | # | 0 \
| estimate 37769708490920306933760/4097; |
piece=65536 | count --raw --updaters 64 --eager no | # | 0 \
| estimate 37769708490920306933760/4097; |
read=0 | count --raw --updaters 1 --file text | # | 0 | estimate 37769708490920306933760/4097; |
read=0 | count --raw --updaters 4 --file text | # | 0 | estimate 37769708490920306933760/4097; |
read=0 | count --raw --updaters 64 --file text | # | 0 | estimate 37769708490920306933760/4097; |
piece=65536 | count --raw --updaters 4 | #### | 0 | estimate 37769708490920306933760/4097; |
piece=65536 | count --updaters 4 --k 32768 | #### | 0 | estimate 10000/1; |
piece=65536 | count --raw --updaters 8 --propagator no | ###### | 0 \
| estimate 37769708490920306933760/4097; |";

const REFUSED: &str = "\
| count --raw | 9223372036854775807; | 6 | | line 1: not a number;
| count --raw | 9223372036854775806;9223372036854775808; | 6 | | line 2: not a number;
| count --raw | 9999999999999999999; | 6 | | line 1: not a number;
| count --raw | 5;;x;6; | 6 | | line 3: not a number;
| count --raw | 5^ | 6 | | line 1: not a number;
| count --raw | 00000000000000000005; | 6 | | line 1: not a number;
| count --raw | 1,2; | 6 | | line 1: not a number;
piece=65536 | count --k 4 | @x | 5 | | line 1: too long;
piece=65536 | count --raw | 5;@x;x; | 5 | | line 2: too long;
piece=65536 | count --raw | x;@x; | 6 | | line 1: not a number;
piece=65536 | count --raw --updaters 4 | ####x;5; | 6 | | line 80001: not a number;";

#[test]
fn counts_that_are_fine(rt: HostRuntime) -> Result<(), Fail> {
    check_rows(&rt, rt.alloc(), FINE, 30)
}

#[test]
fn counts_that_are_refused(rt: HostRuntime) -> Result<(), Fail> {
    check_rows(&rt, rt.alloc(), REFUSED, 11)
}
