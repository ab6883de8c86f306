// Files by name: in memory, and of the host.
ghost use Rattle.std.specs.Prelude.{◌≡◌, ◌<◌, ◌⊎◌, [], ◌∷◌, length, take, IfOk, IsErr, OnOk, OnErr};
ghost use Rattle.std.specs.Io.KnownBytes.{Consumes, ReadConsumes};
ghost use Rattle.sk_model.specs.Causes.{HasCause, Rose};
ghost use Rattle.sk_io.specs.Files.{told_file, IsMissing, Opens};

use super::expect;
use super::streams::{drained, piece_of};
use sk_io::{Failed, FileShelf, MemShelf, OnShelf, OpenFile, Opener, Shelf};
use std::alloc::Global;
use std::fs;
use std::test::Fail;

// What a caller of a shelf knows of it after it read an open file as a source.
fn piece_on<F: Shelf>(shelf: &mut F, file: &mut F::File, piece: &mut [u8]) -> Result<usize, Failed>
    requires { 0 < length piece.old }
    ensures bytes { ReadConsumes (F.left shelf.old file.old) (F.left shelf.new file.new) result piece.new }
    ensures cause { HasCause (F.read_faults shelf.old) (F.read_faults shelf.new) result }
    ensures opens { F.open_faults shelf.new ≡ F.open_faults shelf.old }
    ensures files { F.files shelf.new ≡ F.files shelf.old }
{
    piece_of(&mut OnShelf::new(shelf, file), piece)
}

// What a caller of a shelf knows of it after a file was opened, read as a source and closed.
fn prefix_of<F: Shelf>(shelf: &mut F, name: &str, piece: &mut [u8]) -> Result<usize, Failed>
    requires { 0 < length piece.old }
    ensures content { IfOk result (λ n.
        Consumes (told_file (F.files shelf.old) name.now) (F.rest shelf.new) (take n piece.new)) }
    ensures missing { IsMissing (F.files shelf.old) name.now → IsErr result }
    ensures opened { Opens (F.opened shelf.old) (F.opened shelf.new) (name.now ∷ []) }
    ensures steady { OnOk result ((F.open_faults shelf.new ≡ F.open_faults shelf.old)
        × (F.read_faults shelf.new ≡ F.read_faults shelf.old)) }
    ensures cause { OnErr result (
        Rose (F.open_faults shelf.old) (F.open_faults shelf.new)
        ⊎ Rose (F.read_faults shelf.old) (F.read_faults shelf.new)) }
    ensures files { F.files shelf.new ≡ F.files shelf.old }
{
    match OpenFile::open(shelf, name) {
        Ok(mut file) => piece_of(&mut file, piece),
        Err(_refused) => Err(Failed),
    }
}

// What the owner of an opener knows after it opened a file: the opener was asked for the one of this name.
fn asked_for<R: Opener>(opener: R, name: &str) -> (FileShelf<R>, Result<R::File, Failed>)
    ensures { Opens (R.names opener) (⟦<FileShelf<R> as Shelf>⟧.opened result.0) (name.now ∷ []) }
{
    let mut shelf = FileShelf::new(opener);
    let opened = shelf.open(name);
    (shelf, opened)
}

// All that a file of a shelf has.
fn text_of<F: Shelf>(alloc: Global, shelf: &mut F, name: &str) -> Result<Vec<u8>, Fail> {
    match OpenFile::open(shelf, name) {
        Ok(mut file) => drained(alloc, &mut file),
        Err(_refused) => Err(Fail::from("no file")),
    }
}

fn two_files(alloc: Global) -> Result<Vec<(String, Vec<u8>)>, Fail> {
    let mut files = Vec::new(alloc);
    files.push((String::from_str(alloc, "one")?, b"first".to_vec(alloc)?))?;
    files.push((String::from_str(alloc, "two")?, b"second".to_vec(alloc)?))?;
    Ok(files)
}

#[test]
fn a_shelf_in_memory_opens_what_it_has(rt: HostRuntime) -> Result<(), Fail> {
    let alloc = rt.alloc();
    let opens = [1].to_vec(alloc)?;
    let reads = [1].to_vec(alloc)?;
    let mut shelf = MemShelf::new(two_files(alloc)?, opens, reads);
    let mut piece = [0; 4];
    expect(&rt, prefix_of(&mut shelf, "two", &mut piece), Ok(4));
    expect(&rt, piece, *b"seco");
    expect(&rt, prefix_of(&mut shelf, "two", &mut piece), Err(Failed));
    expect(&rt, prefix_of(&mut shelf, "one", &mut piece), Err(Failed));
    expect(&rt, prefix_of(&mut shelf, "three", &mut piece), Err(Failed));
    let text = text_of(alloc, &mut shelf, "one")?;
    expect(&rt, text.as_slice(), b"first".as_slice());
    Ok(())
}

// A shelf keeps each name that it was asked for, also of a file that is missing or could not be opened.
#[test]
fn a_shelf_keeps_the_names_that_were_opened(rt: HostRuntime) -> Result<(), Fail> {
    let alloc = rt.alloc();
    let names = ["two", "one", "none", "", "one"];
    let fails = [1].to_vec(alloc)?;
    let mut shelf = MemShelf::new(two_files(alloc)?, fails, Vec::new(alloc));
    for i in 0..=names.len() {
        let kept = shelf.opened().ok_or("no memory")?;
        expect(&rt, kept.len(), i);
        assert!(rt;
            kept.iter()
                .zip(&names)
                .all(|(kept, name)| kept.as_str() == *name)
        );
        if let Some(name) = names.get(i) {
            let _ = shelf.open(name);
        }
    }
    Ok(())
}

#[test]
fn two_files_of_a_shelf_are_read_in_turn(rt: HostRuntime) -> Result<(), Fail> {
    let alloc = rt.alloc();
    let mut shelf = MemShelf::new(two_files(alloc)?, Vec::new(alloc), Vec::new(alloc));
    let mut one = shelf.open("one").map_err(|_| "no file")?;
    let mut two = shelf.open("two").map_err(|_| "no file")?;
    let mut piece = [0; 4];
    expect(&rt, piece_on(&mut shelf, &mut one, &mut piece), Ok(4));
    expect(&rt, piece, *b"firs");
    expect(&rt, piece_on(&mut shelf, &mut two, &mut piece), Ok(4));
    expect(&rt, piece, *b"seco");
    let text = drained(alloc, &mut OnShelf::new(&mut shelf, &mut one))?;
    expect(&rt, text.as_slice(), b"t".as_slice());
    let text = drained(alloc, &mut OnShelf::new(&mut shelf, &mut two))?;
    expect(&rt, text.as_slice(), b"nd".as_slice());
    Ok(())
}

#[test]
fn a_shelf_of_files_opens_what_is_there(rt: HostRuntime) -> Result<(), Fail> {
    let alloc = rt.alloc();
    fs::write(&rt, "shelf.txt", "red fish blue fish\n")?;
    let (mut shelf, opened) = asked_for(&rt, "shelf.txt");
    let mut file = opened.map_err(|_| "no file")?;
    let text = drained(alloc, &mut OnShelf::new(&mut shelf, &mut file))?;
    expect(&rt, text.as_slice(), b"red fish blue fish\n".as_slice());
    // The second opens, but a folder gives no bytes.
    for name in ["missing.txt", "."] {
        let answer = prefix_of(&mut shelf, name, &mut [0; 1]);
        assert_eq!(rt; answer, Err(Failed), "at {name}");
    }
    fs::remove_file(&rt, "shelf.txt")?;
    Ok(())
}
