// Made lines, which are counted as any others, and read nothing. The numbers were computed by another ChaCha8.
use super::rows::check_rows;
use std::test::Fail;

const MAKES: &str = "\
| make --n 1 | x; | 0 | made 1;estimate 1/1; |
| make --n 0 | x; | 0 | made 0;estimate 0/1; |
| make --key 281474976710655 --n 3 --k 4 --b 1 --updaters 64 | | 0 | made 3;estimate 3/1; |
| make --n 3 --k 2 | | 0 | made 3;estimate 9223372036854775808/214467114449792; |
| make --n 300 --k 16 --key 7 --updaters 4 | | 0 \
| made 300;estimate 138350580552821637120/12764861366000; |
read=0 | make --n 2 --propagator no | x; | 0 | made 2;estimate 2/1; |
room=3 | make --n 1 | x; | 4 | mad | write fault;
room=0 | make --n 1 | x; | 4 | | write fault;";

#[test]
fn makes(rt: HostRuntime) -> Result<(), Fail> {
    check_rows(&rt, rt.alloc(), MAKES, 8)
}
