// Files by name, and an open file as a source.
ghost use Rattle.std.specs.Prelude.{◌≡◌, ◌<◌, [], ◌∷◌, ℕ, List, None, Option, length, IfOk, IsErr};
ghost use Rattle.std.specs.Io.{ReadsAtMost};
ghost use Rattle.std.specs.Io.KnownBytes.{ReadConsumes};
ghost use Rattle.sk_model.specs.Causes.{HasCause};
ghost use Rattle.sk_io.specs.Base.{Base, LastRead};
ghost use Rattle.sk_io.specs.Files.{told_file, IsMissing, Opens};

use crate::stream::{Failed, Source};

/// Where files are opened by name.
pub trait Shelf {
    type File: Drop;

    /// How often an `open` has failed. The count stops at the largest `u64`.
    ghost open_faults: { Self → ℕ };

    /// How often a `read` has failed. The count stops at the largest `u64`.
    ghost read_faults: { Self → ℕ };

    /// How many bytes the last `read` gave that did not fail, 0 before the first.
    ghost last_read: { Self → ℕ };

    /// The bytes of each file with its name, if the shelf knows them.
    ghost files: { Self → Option (List (List ℕ × List ℕ)) };

    /// The names that `open` was called with, in order, also of files that could not be opened, as long as
    /// the shelf keeps them.
    ghost opened: { Self → Option (List (List ℕ)) };

    /// The bytes that reads of an open file will give from here on, if the shelf knows them.
    ghost left: { Self → Self.File → Option (List ℕ) };

    /// The same of the file that was opened or read last: what a caller sees once that file is closed.
    ghost rest: { Self → Option (List ℕ) };

    /// Opens the file of this name at its first byte. A shelf that has no such file fails.
    fn open(&mut self, name: &str) -> Result<Self::File, Failed>
        ensures content { IfOk result (λ file. left self.new file ≡ told_file (files self.old) name.now) }
        ensures last { IfOk result (λ file. rest self.new ≡ left self.new file) }
        ensures missing { IsMissing (files self.old) name.now → IsErr result }
        ensures opened { Opens (opened self.old) (opened self.new) (name.now ∷ []) }
        ensures cause { HasCause (open_faults self.old) (open_faults self.new) result }
        ensures reads { read_faults self.new ≡ read_faults self.old }
        ensures given { last_read self.new ≡ last_read self.old }
        ensures files { files self.new ≡ files self.old };

    /// Reads some bytes to the start of `buf`, none only at the end. A read that fails takes none.
    fn read(&mut self, file: &mut Self::File, buf: &mut [u8]) -> Result<usize, Failed>
        requires { 0 < length buf.old }
        ensures bound { ReadsAtMost result buf.new }
        ensures bytes { ReadConsumes (left self.old file.old) (left self.new file.new) result buf.new }
        ensures given { LastRead (last_read self.old) (last_read self.new) result }
        ensures last { rest self.new ≡ left self.new file.new }
        ensures cause { HasCause (read_faults self.old) (read_faults self.new) result }
        ensures opens { (open_faults self.new ≡ open_faults self.old) × (opened self.new ≡ opened self.old) }
        ensures files { files self.new ≡ files self.old };
}

/// An open file of a shelf as a source, also one of several. It stands on both borrows and on all of the
/// shelf but its count of failed reads.
#[derive(Drop)]
pub struct OnShelf<'a, F: Shelf> {
    pub shelf: &'a mut F,
    pub file: &'a mut F::File,
}

impl<'a, F: Shelf> OnShelf<'a, F> {
    /// The source of what `file` has left, which is a file of `shelf`.
    pub fn new(shelf: &'a mut F, file: &'a mut F::File) -> Self
        ensures shelf { result.shelf.ghost_name ≡ shelf.entry.ghost_name }
        ensures shelf_now { result.shelf.now ≡ shelf.old }
        ensures file { result.file.ghost_name ≡ file.entry.ghost_name }
        ensures file_now { result.file.now ≡ file.old }
    {
        OnShelf { shelf, file }
    }
}

impl<F: Shelf> Source for OnShelf<'_, F> {
    ghost left = { λ s. F.left s.shelf.now s.file.now };

    ghost faults = { λ s. F.read_faults s.shelf.now };

    ghost last = { λ s. F.last_read s.shelf.now };

    ghost stands_on = { λ s. record {
      borrows = s.shelf.ghost_name ∷ s.file.ghost_name ∷ [];
      counts = F.open_faults s.shelf.now ∷ [];
      files = F.files s.shelf.now;
      opened = F.opened s.shelf.now;
      sides = None;
    } };

    fn read(&mut self, buf: &mut [u8]) -> Result<usize, Failed> {
        self.shelf.read(self.file, buf)
    }
}
