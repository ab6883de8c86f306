// A file that the source that reads it owns.
ghost use Rattle.std.specs.Prelude.{◌≡◌, [], ◌∷◌, None, IfOk, IsErr};
ghost use Rattle.sk_model.specs.Causes.{HasCause};
ghost use Rattle.sk_io.specs.Files.{told_file, IsMissing, Opens};

use crate::shelf::Shelf;
use crate::stream::{Failed, Source};

/// An open file that borrows its shelf, as a source. Nothing else is read of the shelf meanwhile, so
/// what the shelf has left last is what this file has left. It stands on the borrow and on all of the shelf
/// but its count of failed reads.
pub struct OpenFile<'a, F: Shelf> {
    pub shelf: &'a mut F,
    pub file: F::File,
    pub ghost last: { F.rest shelf.now ≡ F.left shelf.now file },
}

/// A file could not be opened. It gives the shelf back.
#[derive(Drop)]
pub struct NotOpened<'a, F> {
    pub shelf: &'a mut F,
}

impl<'a, F: Shelf> OpenFile<'a, F> {
    ghost use Rattle.sk_io.specs.Opening.{shelf_in};

    /// Opens the file of this name at its first byte. A shelf that has no such file fails.
    pub fn open(shelf: &'a mut F, name: &str) -> Result<Self, NotOpened<'a, F>>
        ensures shelf { (shelf_in result).ghost_name ≡ shelf.entry.ghost_name }
        ensures content { IfOk result (λ file.
            F.left file.shelf.now file.file ≡ told_file (F.files shelf.old) name.now) }
        ensures missing { IsMissing (F.files shelf.old) name.now → IsErr result }
        ensures opened { Opens (F.opened shelf.old) (F.opened (shelf_in result).now) (name.now ∷ []) }
        ensures cause { HasCause (F.open_faults shelf.old) (F.open_faults (shelf_in result).now) result }
        ensures reads { F.read_faults (shelf_in result).now ≡ F.read_faults shelf.old }
        ensures given { F.last_read (shelf_in result).now ≡ F.last_read shelf.old }
        ensures files { F.files (shelf_in result).now ≡ F.files shelf.old }
    {
        match shelf.open(name) {
            Ok(file) => Ok(OpenFile { shelf, file }),
            Err(_) => Err(NotOpened { shelf }),
        }
    }
}

impl<F: Shelf> Drop for OpenFile<'_, F> {
    fn drop(self)
        ensures { self.exit.0.now ≡ self.entry.shelf.now }
    {
        let OpenFile { shelf: _, file } = self;
        drop(file);
    }
}

impl<F: Shelf> Source for OpenFile<'_, F> {
    ghost left = { λ s. F.left s.shelf.now s.file };

    ghost faults = { λ s. F.read_faults s.shelf.now };

    ghost last = { λ s. F.last_read s.shelf.now };

    ghost stands_on = { λ s. record {
      borrows = s.shelf.ghost_name ∷ [];
      counts = F.open_faults s.shelf.now ∷ [];
      files = F.files s.shelf.now;
      opened = F.opened s.shelf.now;
      sides = None;
    } };

    fn read(&mut self, buf: &mut [u8]) -> Result<usize, Failed> {
        self.shelf.read(&mut self.file, buf)
    }
}
