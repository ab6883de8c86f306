// Hashes of lines, which are written before more is read.
use super::rows::check_rows;
use std::test::Fail;

const HASHES: &str = "\
| hash | hello;;hello, world; | 0 | 65ec53d9a0decd81;1a17d6311d2f5e47; |
| hash --seed 0 | The quick brown fox jumps over the lazy dog. | 0 | 66cca40fcf748164; |
| hash | | 0 | |
read=8 | hash | hello;hello, world; | 3 | 65ec53d9a0decd81; | read fault;
piece=100 room=20 | hash | hello;hello, world; | 4 | 65ec53d9a0decd81;1a1 | write fault;
piece=65536 | hash | hello;@x; | 5 | 65ec53d9a0decd81; | line 2: too long;";

#[test]
fn hashes(rt: HostRuntime) -> Result<(), Fail> {
    check_rows(&rt, rt.alloc(), HASHES, 6)
}
