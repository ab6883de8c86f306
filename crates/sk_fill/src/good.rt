//! Whether a unit may be fed.
ghost use Rattle.std.specs.Prelude.{◌≡◌, ◌<◌, length, true, false, IsNone};
ghost use Rattle.sk_read.specs.Items.{item_of, IsGood};

use sk_read::Kind;

/// Whether a unit is empty or an item.
#[inline(always)]
pub fn is_good(kind: Kind, unit: &[u8]) -> bool
    ensures good { result ≡ true → IsGood kind unit.now }
    ensures bad { result ≡ false → (0 < length unit.now) × IsNone (item_of kind unit.now) }
{
    match kind {
        Kind::Hash(_) => true,
        Kind::Raw => unit.is_empty() || kind.has_item(unit),
    }
}
