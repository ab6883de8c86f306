//! The names of tenants, which all desks share.
ghost use Rattle.std.specs.Prelude.{◌≡◌, ℕ, ◌+◌, ◌<◌, ◌≤◌, true, Some, length, map, slice_get, slice_range, IfOk, IfSome, IfNone, Contains};
ghost use Rattle.sk_tenant.specs.Names.{place_of, bytes_of, most_tenants, AreDifferent, HasNoSpace, IsFirstTwice};

use crate::answers::TenantStop;
use crate::ends::{END, Ends, Reach};
use crate::guesses::{Guess, Guesses, place_by};
use indexmap::IndexSet;
use sk_model::OutOfMemory;
use std::alloc::Global;
use std::marker::Model;
use std::sync::Arc;

/// The most tenants.
pub const MOST_TENANTS: usize = 64;

/// The names of tenants, no two of them equal. All desks share one table, by which a name is found.
#[derive(Drop)]
pub struct Names {
    table: Arc<Table, Global>,
}

// Names, and where one is sought first.
#[derive(Drop)]
struct Table {
    names: IndexSet<Vec<u8>>,
    guesses: Guesses,
}

impl Model for Names {
    ghost use Rattle.std.specs.Prelude.{ℕ, ◌≤◌, List, map, length};
    ghost use Rattle.std.specs.Arc.{arc_value};
    ghost use Rattle.sk_tenant.specs.Names.{most_tenants, AreDifferent};
    ghost use Rattle.sk_tenant.specs.Guesses.{AreGuesses};

    ghost Value = { List (List ℕ) };

    ghost view = { λ n. map (λ name. name.items) (arc_value n.table).names.keys };

    ghost invariant = { λ n. (length (arc_value n.table).names.keys ≤ most_tenants)
        × AreDifferent (map (λ name. name.items) (arc_value n.table).names.keys)
        × AreGuesses (map (λ name. name.items) (arc_value n.table).names.keys) (arc_value n.table).guesses.by_mark.items };
}

impl Names {
    /// These names, in order.
    pub(crate) fn of(alloc: Global, names: Vec<String>) -> Result<Names, TenantStop>
        requires few { length names.items ≤ most_tenants }
        ensures names { IfOk result (λ n. n ≡ bytes_of names.items) }
        ensures twice { (i : ℕ) → result ≡ Err (TenantStop.Twice i) → IsFirstTwice (bytes_of names.items) i }
    {
        let names = set_of(alloc, names)?;
        let guesses = Guesses::of(alloc, &names)?;
        match Arc::new(alloc, Table { names, guesses }) {
            Ok(table) => Ok(Names { table }),
            Err(_) => Err(TenantStop::OutOfMemory),
        }
    }

    /// The same names, for a further desk.
    pub(crate) fn share(&self) -> Result<Names, OutOfMemory>
        ensures { IfOk result (λ n. n ≡ self.now) }
    {
        Ok(Names {
            table: Arc::try_clone(&self.table)?,
        })
    }

    /// The place of the tenant with this name.
    #[inline(always)]
    pub fn place(&self, name: &[u8]) -> Option<u32>
        ensures value { result ≡ place_of self.now name.now }
        ensures found { IfSome result (λ t. slice_get self.now t ≡ Some name.now) }
        ensures none { IfNone result (¬ Contains self.now name.now) }
    {
        let table: &Table = &self.table;
        match table.guesses.place(&table.names, name) {
            Some(t) => Some(t),
            None => sought(&table.names, name),
        }
    }

    /// What finds the places of names of `len` bytes.
    #[inline(always)]
    pub fn finder(&self, len: usize) -> Finder<'_>
        ensures names { result.names ≡ self.now }
        ensures len { result.len ≡ len }
    {
        let table: &Table = &self.table;
        Finder {
            names: self,
            by_mark: table.guesses.as_slice(),
            mixer: table.guesses.mixer(),
            reach: Reach::of(len),
        }
    }

    /// The name of the tenant at place t.
    pub fn name(&self, t: u32) -> &[u8]
        requires place { t < length self.now }
        ensures { slice_get self.now t ≡ Some result.now }
    {
        match self.table.names.get_index(t as usize) {
            Some(name) => name.as_slice(),
            None => unreachable!(),
        }
    }

    /// How many tenants there are. Its clauses also say what is true of all names.
    pub fn len(&self) -> u32
        ensures value { result ≡ length self.now }
        ensures few { length self.now ≤ most_tenants }
        ensures different { AreDifferent self.now }
    {
        self.table.names.len() as u32
    }
}

/// What finds the places of names of one length, in bytes: where they are sought first is at hand.
#[derive(Drop)]
pub struct Finder<'n> {
    names: &'n Names,
    by_mark: &'n [Guess],
    mixer: u64,
    reach: Reach,
}

impl<'n> Model for Finder<'n> {
    ghost use Rattle.sk_tenant.specs.Names.{FinderState};
    ghost use Rattle.sk_tenant.specs.Guesses.{AreGuesses, IsReachOf};

    ghost Value = { FinderState };

    ghost view = { λ f. record { names = f.names.now; len = f.reach.len } };

    ghost invariant = { λ f. AreGuesses f.names.now f.by_mark.now × IsReachOf f.reach.len f.reach };
}

impl<'n> Finder<'n> {
    /// Whether a text has all bytes that are read from a place on: those of a name, and eight at least.
    #[inline(always)]
    pub fn reaches(&self, text: &[u8], at: usize) -> bool
        ensures within { result ≡ true → at + self.now.len ≤ length text.now }
        ensures room { result ≡ true → at + 8 ≤ length text.now }
        ensures exact { at + self.now.len ≤ length text.now → at + 8 ≤ length text.now → result ≡ true }
    {
        at <= text.len() && self.reach.len.max(END) <= text.len() - at
    }

    /// The place of the tenant whose name stands at a place of a text, if the name has no space. Mostly it is found without
    /// a look at all names.
    #[inline(always)]
    pub fn place(&self, text: &[u8], at: usize) -> Option<u32>
        requires within { at + self.now.len ≤ length text.now }
        requires room { at + 8 ≤ length text.now }
        ensures found { IfSome result (λ t. slice_get self.now.names t ≡ Some (slice_range text.now at (at + self.now.len))) }
        ensures plain { IfSome result (λ _. HasNoSpace (slice_range text.now at (at + self.now.len))) }
        ensures none { IfNone result (HasNoSpace (slice_range text.now at (at + self.now.len)) → ¬ Contains self.now.names (slice_range text.now at (at + self.now.len))) }
    {
        let names: &Names = self.names;
        let table: &Table = &names.table;
        let name = &text[at..at + self.reach.len];
        let ends = Ends::read(text, at, self.reach);
        match place_by(&table.names, self.by_mark, self.mixer, name, ends) {
            Some(t) => Some(t),
            None => sought_plain(&table.names, name),
        }
    }
}

// The place of a name, by its hash: of names that are known it is asked only if two of them have one mark.
#[cold]
#[inline(never)]
fn sought(names: &IndexSet<Vec<u8>>, name: &[u8]) -> Option<u32>
    requires few { length names.now.keys ≤ most_tenants }
    ensures { result ≡ place_of (map (λ own. own.items) names.now.keys) name.now }
{
    let place = names.get_index_of(name)?;
    Some(place as u32)
}

// The same of a name that has no space.
#[cold]
#[inline(never)]
fn sought_plain(names: &IndexSet<Vec<u8>>, name: &[u8]) -> Option<u32>
    requires few { length names.now.keys ≤ most_tenants }
    ensures found { IfSome result (λ t. slice_get (map (λ own. own.items) names.now.keys) t ≡ Some name.now) }
    ensures plain { IfSome result (λ _. HasNoSpace name.now) }
    ensures none { IfNone result (HasNoSpace name.now → ¬ Contains (map (λ own. own.items) names.now.keys) name.now) }
{
    if name.contains(&b' ') {
        None
    } else {
        sought(names, name)
    }
}

// A set of these names, in order.
fn set_of(alloc: Global, names: Vec<String>) -> Result<IndexSet<Vec<u8>>, TenantStop>
    requires few { length names.items ≤ most_tenants }
    ensures names { IfOk result (λ set. map (λ name. name.items) set.keys ≡ bytes_of names.items) }
    ensures different { IfOk result (λ set. AreDifferent (map (λ name. name.items) set.keys)) }
    ensures twice { (i : ℕ) → result ≡ Err (TenantStop.Twice i) → IsFirstTwice (bytes_of names.items) i }
{
    let Ok(mut set) = IndexSet::with_capacity(alloc, names.len()) else {
        return Err(TenantStop::OutOfMemory);
    };
    'name: for name in names {
        match set.insert(name.into_bytes()) {
            Ok(true) => {}
            Ok(false) => return Err(TenantStop::Twice(set.len() as u32)),
            Err(_) => return Err(TenantStop::OutOfMemory),
        }
    }
    Ok(set)
}
