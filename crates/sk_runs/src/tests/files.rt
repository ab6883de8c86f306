// Commands over files.
use super::rows::{check_rows, shelf_of};
use super::stage::{FINE, Streams, alarms, expect, run_beside, words_of};
use sk_io::FileShelf;
use std::test::Fail;

// The faults of a file are its own. The input, whose first read fails, is not read then. A name
// is a whole word, blanks and all.
const FILES: &str = "\
read=0 | count --file quick --k 2 | | 0 | estimate 9223372036854775808/7344337286506401153; |
read=0 | count --raw --k 2 --file ids | | 0 | estimate 9223372036854775808/6; |
read=0 | count --file ids --seed 7 --raw --k 2 | | 0 | estimate 9223372036854775808/6; |
read=0 | count --seed 7 --file quick | | 0 | estimate 3/1; |
read=0 | count --file --raw | | 0 | estimate 1/1; |
read=0 | count --file _a__name_ | x;y; | 0 | estimate 2/1; |
read=0 | replay --file plan | | 0 | token 1; |
read=0 | count --csv 2 --file table | | 0 | estimate 1/1; |
read=0 | hash --file quick | | 0 | 65ec53d9a0decd81;1a17d6311d2f5e47;66cca40fcf748164; |
read=0 | count --file none | | 8 | | open fault;
read=0 | hash --file - | | 8 | | open fault;
read=0 | replay --file pla | | 8 | | open fault;
read=0 open=0 | count --file quick | | 8 | | open fault;
read=0 file=0 | hash --file quick | | 3 | | read fault;
read=0 file=1 | hash --file quick | | 3 | 65ec53d9a0decd81;1a17d6311d2f5e47;66cca40fcf748164; | read fault;";

#[test]
fn files(rt: HostRuntime) -> Result<(), Fail> {
    check_rows(&rt, rt.alloc(), FILES, 15)
}

// Each file is opened once, and the second of a join only after a first that is an image.
#[test]
fn files_are_opened_once_and_in_order(rt: HostRuntime) -> Result<(), Fail> {
    let alloc = rt.alloc();
    'line: for (line, names) in [
        ("count --raw", ""),
        ("count --file quick", "quick"),
        ("image --file none", "none"),
        ("make --n 2", ""),
        ("join --left one --right two", "one two"),
        ("join --left one --right one", "one one"),
        ("join --left one --right none", "one none"),
        ("join --left quick --right two", "quick"),
        ("join --left none --right two", "none"),
        ("join --left one", ""),
    ] {
        let mut shelf = shelf_of(alloc, &FINE, b"")?;
        let mut board = alarms(alloc)?;
        let text = Vec::new(alloc);
        let _ = run_beside(&rt, alloc, &FINE, line, text, &mut shelf, &mut board)?;
        let opened = shelf.opened().ok_or("no memory")?;
        assert_eq!(rt; opened, words_of(alloc, names)?.as_slice(), "at {line}");
    }
    Ok(())
}

// A folder opens, and gives no bytes.
#[test]
fn files_of_the_system(rt: HostRuntime) -> Result<(), Fail> {
    let alloc = rt.alloc();
    let streams = Streams { read: 0, ..FINE };
    let mut shelf = FileShelf::new(&rt);
    'name: for (line, status, err) in [
        ("count --file .", 3, "read fault\n"),
        ("count --file ./no/such/file", 8, "open fault\n"),
    ] {
        let mut board = alarms(alloc)?;
        let text = Vec::new(alloc);
        let ran = run_beside(&rt, alloc, &streams, line, text, &mut shelf, &mut board)?;
        expect(&rt, &ran, line, status, b"", err.as_bytes());
    }
    Ok(())
}
