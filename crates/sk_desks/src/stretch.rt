// Lines of a source that are gathered in the windows of a stretch.
ghost use Rattle.std.specs.Prelude.{◌≡◌, ◌≤◌, ◌++◌, ◌∷◌, ℕ, List, [], OnOk};
ghost use Rattle.sk_model.specs.Causes.{HasCauseIn};
ghost use Rattle.sk_read.specs.Reading.{HasRead};
ghost use Rattle.sk_fill.specs.Windows.{all_lines};
ghost use Rattle.sk_fill.specs.Stretches.{StopsAtEnough};
ghost use Rattle.sk_desks.specs.Entries.{window_lines};
ghost use Rattle.sk_desks.specs.Gathers.{Gathers};

use crate::gather::gather_window;
use crate::window::LabelledWindow;
use sk_fill::Stretch;
use sk_io::Source;
use sk_label::LabelFault;
use sk_lanes::ENOUGH;
use sk_read::LineReader;
use sk_tenant::Names;
use std::alloc::Global;

// As many bytes of lines are enough for a stretch, so that a pool may have eight of them.
const ENOUGH_BYTES: usize = 524_288;

/// A reader of lines that are empty or of tenants with these names.
#[derive(Drop)]
pub(crate) struct Gatherer<'n> {
    pub(crate) alloc: Global,
    pub(crate) names: &'n Names,
    pub(crate) reader: LineReader,
}

/// Reads lines into windows, in the place of those that a stretch has, until they are enough, or returns `false` at the
/// end of the source.
pub(crate) fn gather_stretch<S: Source>(
    gatherer: &mut Gatherer<'_>,
    source: &mut S,
    stretch: &mut Stretch,
) -> Result<bool, LabelFault>
    requires most { stretch.old.most ≡ window_lines }
    requires started { (given : List (List ℕ)) × (taken : List ℕ) × HasRead gatherer.old.reader (S.left source.old) given taken }
    ensures gathers { Gathers gatherer.old.names.now gatherer.old.reader gatherer.new.reader (S.left source.old) (S.left source.new) (all_lines stretch.new.windows) result }
    ensures first { stretch.new.first ≡ gatherer.old.reader.cutter.number }
    ensures few { OnOk result (StopsAtEnough ENOUGH ENOUGH_BYTES stretch.new.windows) }
    ensures most { stretch.new.most ≡ window_lines }
    ensures piece { gatherer.old.reader.last ≤ S.last source.old → gatherer.new.reader.last ≤ S.last source.new }
    ensures names { gatherer.new.names.now ≡ gatherer.old.names.now }
    ensures cause { HasCauseIn LabelFault.ReadFault (S.faults source.old) (S.faults source.new) result }
    ensures stays { S.stands_on source.new ≡ S.stands_on source.old }
{
    stretch.clear(gatherer.reader.number());
    'window: while gather_more(gatherer, source, stretch)? {
        if stretch.is_full(ENOUGH) || stretch.size() >= ENOUGH_BYTES {
            return Ok(true);
        }
    }
    Ok(false)
}

// Reads lines into a window more, until that is full, or returns `false` at the end of the source.
fn gather_more<S: Source>(
    gatherer: &mut Gatherer<'_>,
    source: &mut S,
    stretch: &mut Stretch,
) -> Result<bool, LabelFault>
    requires most { stretch.old.most ≡ window_lines }
    requires started { (given : List (List ℕ)) × (taken : List ℕ) × HasRead gatherer.old.reader (S.left source.old) given taken }
    ensures gathers { (lines : List (List ℕ)) × OnOk result (stretch.new.windows ≡ stretch.old.windows ++ lines ∷ [])
        × Gathers gatherer.old.names.now gatherer.old.reader gatherer.new.reader (S.left source.old) (S.left source.new) lines result }
    ensures first { stretch.new.first ≡ stretch.old.first }
    ensures most { stretch.new.most ≡ window_lines }
    ensures piece { gatherer.old.reader.last ≤ S.last source.old → gatherer.new.reader.last ≤ S.last source.new }
    ensures names { gatherer.new.names.now ≡ gatherer.old.names.now }
    ensures cause { HasCauseIn LabelFault.ReadFault (S.faults source.old) (S.faults source.new) result }
    ensures stays { S.stands_on source.new ≡ S.stands_on source.old }
{
    let mut window = LabelledWindow::of(gatherer.alloc, gatherer.names, stretch.spare()?);
    let full = gather_window(&mut gatherer.reader, &mut window, source)?;
    stretch.push(window.into_window())?;
    Ok(full)
}
