// What opens files of the system by name.
ghost use Rattle.std.specs.Prelude.{[], ◌∷◌, None, Option, List, ℕ};
ghost use Rattle.sk_io.specs.Files.{Opens};

use std::io::Read;
use std::rt::Files;
use std::{fs, io};

/// Opens files by name for reading. What reaches the files of the system is one, and keeps no names.
pub trait Opener {
    type File: Read + Drop;

    /// The names that it was called with, in order, as long as it keeps them.
    ghost names: { Self → Option (List (List ℕ)) };

    /// Opens the file of this name at its first byte.
    fn open_named(&mut self, name: &str) -> io::Result<Self::File>
        ensures { Opens (names self.old) (names self.new) (name.now ∷ []) };
}

impl<R: Files> Opener for R {
    type File = <R as Files>::File;

    ghost names = { λ _. None };

    fn open_named(&mut self, name: &str) -> io::Result<<R as Files>::File> {
        fs::open(&*self, name)
    }
}
