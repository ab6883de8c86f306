ghost use Rattle.std.specs.Prelude.{◌≡◌, ◌<◌, None, length};
ghost use Rattle.std.specs.Io.{ReadsAtMost};
ghost use Rattle.std.specs.Io.KnownBytes.{ReadConsumes};
ghost use Rattle.sk_model.specs.Causes.{HasCause};
ghost use Rattle.sk_io.specs.Base.{LastRead};

use crate::opener::Opener;
use crate::shelf::Shelf;
use crate::steps::{count_fault, read_some};
use crate::stream::Failed;

/// The files that an opener reaches, as the files of the system by their paths. It counts errors, and does not
/// know the bytes; it knows what was opened if the opener keeps that.
#[derive(Drop)]
pub struct FileShelf<R> {
    rt: R,
    open_faults: u64,
    read_faults: u64,
    // how many bytes the last read gave
    last_read: usize,
}

impl<R: Opener> FileShelf<R> {
    /// The files that `rt` reaches.
    pub fn new(rt: R) -> Self
        ensures opened { ⟦<FileShelf<R> as Shelf>⟧.opened result ≡ R.names rt }
        ensures opens { ⟦<FileShelf<R> as Shelf>⟧.open_faults result ≡ 0 }
        ensures reads { ⟦<FileShelf<R> as Shelf>⟧.read_faults result ≡ 0 }
    {
        FileShelf {
            rt,
            open_faults: 0,
            read_faults: 0,
            last_read: 0,
        }
    }
}

impl<R: Opener> Shelf for FileShelf<R> {
    type File = R::File;

    ghost open_faults = { λ s. s.open_faults };

    ghost read_faults = { λ s. s.read_faults };

    ghost last_read = { λ s. s.last_read };

    ghost files = { λ _. None };

    ghost opened = { λ s. R.names s.rt };

    ghost left = { λ _ _. None };

    ghost rest = { λ _. None };

    fn open(&mut self, name: &str) -> Result<R::File, Failed> {
        match self.rt.open_named(name) {
            Ok(file) => Ok(file),
            Err(_) => Err(count_fault(&mut self.open_faults)),
        }
    }

    fn read(&mut self, file: &mut R::File, buf: &mut [u8]) -> Result<usize, Failed>
        requires { 0 < length buf.old }
        ensures bound { ReadsAtMost result buf.new }
        ensures bytes { ReadConsumes None None result buf.new }
        ensures last { let shelf = ⟦<FileShelf<R> as Shelf>⟧ in
            shelf.rest self.new ≡ shelf.left self.new file.new }
        ensures given { let last = ⟦<FileShelf<R> as Shelf>⟧.last_read in LastRead (last self.old) (last self.new) result }
        ensures file { ReadConsumes (R.File.remaining file.old) (R.File.remaining file.new) result buf.new }
        ensures cause { let faults = ⟦<FileShelf<R> as Shelf>⟧.read_faults in
            HasCause (faults self.old) (faults self.new) result }
        ensures opens { let shelf = ⟦<FileShelf<R> as Shelf>⟧ in
            (shelf.open_faults self.new ≡ shelf.open_faults self.old) × (shelf.opened self.new ≡ shelf.opened self.old) }
    {
        match read_some(file, buf) {
            Ok(n) => {
                self.last_read = n;
                Ok(n)
            }
            Err(_) => Err(count_fault(&mut self.read_faults)),
        }
    }
}
