ghost use Rattle.std.specs.Prelude.{◌≡◌, ◌+◌, ◌<◌, ◌≤◌, [], ◌∷◌, ◌++◌, Some, IfOk, is_err, IsErr, IsNone, position, length, map, drop, min, bytes_eq, string_bytes};
ghost use Rattle.std.specs.Io.{ReadsAtMost};
ghost use Rattle.std.specs.Io.KnownBytes.{ReadConsumes};
ghost use Rattle.std.specs.Option.{option_map};
ghost use Rattle.sk_model.specs.Causes.{HasCause};
ghost use Rattle.sk_io.specs.Base.{LastRead};
ghost use Rattle.sk_io.specs.Files.{file_named, Opens};
ghost use Rattle.sk_io.specs.Memory.{planned, next_fails, cannot_open, after_open, after_shelf_read, unread, bytes_of, stored, names_in};

use crate::plan::Plan;
use crate::rest::give;
use crate::shelf::Shelf;
use crate::stream::Failed;
use sk_model::OutOfMemory;
use std::marker::Model;

/// Files in memory, which fail at the calls that they are given and at a name that is not theirs.
#[derive(Drop)]
pub struct MemShelf {
    files: Vec<(String, Vec<u8>)>,
    opens: Plan,
    reads: Plan,
    // the names that were opened, as long as there was memory for them
    opened: Option<Vec<String>>,
    // the file that was opened or read last
    last: MemFile,
    // how many bytes the last read gave
    last_read: usize,
}

impl Model for MemShelf {
    ghost use Rattle.sk_io.specs.Memory.{ShelfState, stored, names_in};

    ghost Value = { ShelfState };

    ghost view = { λ s.
        record { files = stored s.files.items; opens = s.opens; reads = s.reads; opened = names_in s.opened; last = s.last; last_read = s.last_read } };
}

/// An open file of a `MemShelf`: its number there, from 0, and how many bytes it has given.
#[derive(Clone, Copy, Debug, PartialEq, Eq)]
pub struct MemFile {
    number: usize,
    at: usize,
}

impl MemShelf {
    /// A shelf of these files, each with its name. Of two with one name the first is opened. The
    /// calls of `open` and of `read` with the numbers in the lists, each counted from 0, fail.
    pub fn new(files: Vec<(String, Vec<u8>)>, open_fails: Vec<u64>, read_fails: Vec<u64>) -> Self
        ensures { result ≡ record {
          files = stored files.items;
          opens = planned open_fails.items;
          reads = planned read_fails.items;
          opened = Some [];
          last = result.last;
          last_read = 0;
        } }
    {
        MemShelf {
            opened: Some(Vec::new(*files.allocator())),
            files,
            opens: Plan::new(open_fails),
            reads: Plan::new(read_fails),
            last: MemFile { number: 0, at: 0 },
            last_read: 0,
        }
    }

    /// The names that `open` was called with, in order. `None` once there was no memory for one.
    pub fn opened(&self) -> Option<&[String]>
        ensures { option_map (λ names. map (λ name. string_bytes name) names.now) result ≡ self.now.opened }
    {
        match &self.opened {
            Some(names) => Some(names),
            None => None,
        }
    }
}

impl Shelf for MemShelf {
    type File = MemFile;

    ghost open_faults = { λ s. s.opens.faults };

    ghost read_faults = { λ s. s.reads.faults };

    ghost last_read = { λ s. s.last_read };

    ghost files = { λ s. Some s.files };

    ghost opened = { λ s. s.opened };

    ghost left = { λ s file. Some (unread s file) };

    ghost rest = { λ s. Some (unread s s.last) };

    /// Fails exactly at the calls with the listed numbers and at a name that no file has.
    fn open(&mut self, name: &str) -> Result<MemFile, Failed>
        ensures content { IfOk result (λ file. Some (unread self.new file) ≡ file_named self.old.files name.now) }
        ensures last { IfOk result (λ file. self.new.last ≡ file) }
        ensures missing { IsNone (file_named self.old.files name.now) → IsErr result }
        ensures opened { Opens self.old.opened self.new.opened (name.now ∷ []) }
        ensures cause { HasCause self.old.opens.faults self.new.opens.faults result }
        ensures fails { is_err result ≡ cannot_open self.old name.now }
        ensures given { self.new.last_read ≡ self.old.last_read }
        ensures shelf { self.new ≡ record (after_open self.old name.now) { opened = self.new.opened; last = self.new.last } }
    {
        note(&mut self.opened, name);
        if self.opens.call() {
            return Err(self.opens.fail());
        }
        match number_of(&self.files, name) {
            Some(number) => {
                self.last = MemFile { number, at: 0 };
                Ok(self.last)
            }
            None => Err(self.opens.fail()),
        }
    }

    /// Fails exactly at the calls with the listed numbers, and else fills `buf` as far as the bytes
    /// of the file go.
    fn read(&mut self, file: &mut MemFile, buf: &mut [u8]) -> Result<usize, Failed>
        requires { 0 < length buf.old }
        ensures bound { ReadsAtMost result buf.new }
        ensures bytes { ReadConsumes (Some (unread self.old file.old)) (Some (unread self.new file.new)) result buf.new }
        ensures given { LastRead self.old.last_read self.new.last_read result }
        ensures cause { HasCause self.old.reads.faults self.new.reads.faults result }
        ensures fails { is_err result ≡ next_fails self.old.reads }
        ensures count { IfOk result (λ n. n ≡ min (length buf.old) (length (unread self.old file.old))) }
        ensures shelf { self.new ≡ after_shelf_read self.old file.new (min (length buf.old) (length (unread self.old file.old))) }
        ensures last { self.new.last ≡ file.new }
    {
        if self.reads.call() {
            self.last = *file;
            return Err(self.reads.fail());
        }
        let most = buf.len();
        let n = give(left_of(&self.files, file), buf, most);
        file.at += n;
        self.last = *file;
        self.last_read = n;
        Ok(n)
    }
}

// Keeps a name after those before it. Without memory for it none are kept from then on.
fn note(names: &mut Option<Vec<String>>, name: &str)
    ensures { Opens (names_in names.old) (names_in names.new) (name.now ∷ []) }
{
    *names = match names.take() {
        Some(kept) => with_name(kept, name).ok(),
        None => None,
    };
}

// These names, and one more.
fn with_name(names: Vec<String>, name: &str) -> Result<Vec<String>, OutOfMemory>
    ensures { IfOk result (λ all. map (λ n. string_bytes n) all.items ≡ map (λ n. string_bytes n) names.items ++ name.now ∷ []) }
{
    let mut names = names;
    let name = name.to_string(*names.allocator())?;
    names.push(name)?;
    Ok(names)
}

// The number of the first file of this name.
fn number_of(files: &[(String, Vec<u8>)], name: &str) -> Option<usize>
    ensures { result ≡ position (λ f. bytes_eq (string_bytes f.0) name.now) files.now }
{
    files.iter().position(|(stored, _)| stored.as_str() == name)
}

// The bytes that an open file has left.
fn left_of<'a>(files: &'a [(String, Vec<u8>)], file: &MemFile) -> &'a [u8]
    ensures bytes { result.now ≡ drop file.now.at (bytes_of (stored files.now) file.now.number) }
    ensures fits { file.now.at + length result.now ≤ usize.MAX }
{
    let at = file.at;
    match files.get(file.number) {
        Some((_, bytes)) => bytes.split_at(at.min(bytes.len())).1,
        None => &[],
    }
}
