//! Where a name is sought first.
ghost use Rattle.std.specs.Prelude.{◌≡◌, ◌<◌, ◌≤◌, ◌^◌, ℕ, List, true, Some, length, map, slice_get, IfOk, IfSome};
ghost use Rattle.sk_tenant.specs.Names.{most_tenants, HasNoSpace};
ghost use Rattle.sk_tenant.specs.Guesses.{AreEndsOf, AreGuesses};

use crate::ends::{BOTH_ENDS, Ends};
use indexmap::IndexSet;
use sk_model::OutOfMemory;
use std::alloc::Global;

// The ends of a name have one of this many marks.
const MARKS: usize = 2_048;

// An odd number without a pattern, whose powers are tried as mixers.
const MIXER: u64 = 0x9e37_79b9_7f4a_7c15;

// With 64 names one mixer in three gives no two of them one mark.
const MOST_TRIED: u32 = 64;

/// For each mark the ends of a name without a space that has it, and the place of that name. Of several names with the
/// same mark it is the last: a mixer is sought by which there are none.
#[derive(Drop)]
pub(crate) struct Guesses {
    by_mark: Vec<Guess>,
    mixer: u64,
}

/// The ends of a name, and its place.
#[derive(Clone, Copy)]
pub(crate) struct Guess {
    ends: Ends,
    place: u32,
}

impl Guesses {
    /// Those for at most 64 names.
    pub(crate) fn of(alloc: Global, names: &IndexSet<Vec<u8>>) -> Result<Guesses, OutOfMemory>
        requires few { length names.now.keys ≤ most_tenants }
        ensures { IfOk result (λ guesses. AreGuesses (map (λ own. own.items) names.now.keys) guesses.by_mark.items) }
    {
        let mut mixer = MIXER;
        'mixer: for _ in 1..MOST_TRIED {
            let guesses = Guesses::mixed_by(alloc, names, mixer)?;
            if guesses.find_all(names) {
                return Ok(guesses);
            }
            mixer = mixer.wrapping_mul(MIXER);
        }
        Guesses::mixed_by(alloc, names, mixer)
    }

    // The same by this mixer.
    fn mixed_by(
        alloc: Global,
        names: &IndexSet<Vec<u8>>,
        mixer: u64,
    ) -> Result<Guesses, OutOfMemory>
        requires few { length names.now.keys ≤ most_tenants }
        ensures { IfOk result (λ guesses. AreGuesses (map (λ own. own.items) names.now.keys) guesses.by_mark.items) }
    {
        let mut by_mark = no_guesses(alloc)?;
        'name: for place in 0..names.len() {
            if let Some(name) = names.get_index(place) {
                if !name.as_slice().contains(&b' ') {
                    put_guess(&mut by_mark, mixer, names, name.as_slice(), place as u32);
                }
            }
        }
        Ok(Guesses { by_mark, mixer })
    }

    // Whether each name that has no space is found.
    fn find_all(&self, names: &IndexSet<Vec<u8>>) -> bool
        requires { AreGuesses (map (λ own. own.items) names.now.keys) self.now.by_mark.items }
    {
        'name: for place in 0..names.len() {
            if let Some(name) = names.get_index(place) {
                let name = name.as_slice();
                if !name.contains(&b' ') && self.place(names, name).is_none() {
                    return false;
                }
            }
        }
        true
    }

    /// By which number marks are made.
    #[inline(always)]
    pub(crate) fn mixer(&self) -> u64 {
        self.mixer
    }

    /// All of them, by their marks.
    pub(crate) fn as_slice(&self) -> &[Guess]
        ensures { result.now ≡ self.now.by_mark.items }
    {
        self.by_mark.as_slice()
    }

    /// The place of this name, which has no space then, unless another one has its mark.
    #[inline(always)]
    pub(crate) fn place(&self, names: &IndexSet<Vec<u8>>, name: &[u8]) -> Option<u32>
        requires { AreGuesses (map (λ own. own.items) names.now.keys) self.now.by_mark.items }
        ensures place { IfSome result (λ t. slice_get (map (λ own. own.items) names.now.keys) t ≡ Some name.now) }
        ensures plain { IfSome result (λ _. HasNoSpace name.now) }
    {
        place_by(
            names,
            self.by_mark.as_slice(),
            self.mixer,
            name,
            Ends::of(name),
        )
    }
}

/// The same of the name that has these ends, by all guesses.
#[inline(always)]
pub(crate) fn place_by(
    names: &IndexSet<Vec<u8>>,
    by_mark: &[Guess],
    mixer: u64,
    name: &[u8],
    ends: Ends,
) -> Option<u32>
    requires guesses { AreGuesses (map (λ own. own.items) names.now.keys) by_mark.now }
    requires ends { AreEndsOf name.now ends }
    ensures place { IfSome result (λ t. slice_get (map (λ own. own.items) names.now.keys) t ≡ Some name.now) }
    ensures plain { IfSome result (λ _. HasNoSpace name.now) }
{
    let guess = &by_mark[ends.mark(mixer)];
    if !guess.ends.are(&ends) {
        return None;
    }
    if !is_confirmed(names, guess.place, name) {
        return None;
    }
    Some(guess.place)
}

// For each mark ends that no name has.
fn no_guesses(alloc: Global) -> Result<Vec<Guess>, OutOfMemory>
    ensures { IfOk result (λ by_mark. (names : List (List ℕ)) → AreGuesses names by_mark.items) }
{
    let unknown = Guess {
        ends: Ends::of_none(),
        place: 0,
    };
    Ok(vec![in alloc; unknown; MARKS]?)
}

// Puts the guess of the name at this place.
fn put_guess(
    by_mark: &mut Vec<Guess>,
    mixer: u64,
    names: &IndexSet<Vec<u8>>,
    name: &[u8],
    place: u32,
)
    requires guesses { AreGuesses (map (λ own. own.items) names.now.keys) by_mark.old.items }
    requires place { slice_get (map (λ own. own.items) names.now.keys) place ≡ Some name.now }
    requires plain { HasNoSpace name.now }
    ensures { AreGuesses (map (λ own. own.items) names.now.keys) by_mark.new.items }
{
    let ends = Ends::of(name);
    by_mark[ends.mark(mixer)] = Guess { ends, place };
}

// Whether the name at place t, which has the ends of this one, is this one: of at most 16 bytes it is.
#[inline(always)]
fn is_confirmed(names: &IndexSet<Vec<u8>>, t: u32, name: &[u8]) -> bool
    ensures is { result ≡ true → 16 < length name.now → slice_get (map (λ own. own.items) names.now.keys) t ≡ Some name.now }
    ensures size { length name.now < 2 ^ 63 }
{
    name.len() <= BOTH_ENDS || has_name(names, t, name)
}

// Whether the name at place t is this one.
#[inline(never)]
fn has_name(names: &IndexSet<Vec<u8>>, t: u32, name: &[u8]) -> bool
    ensures { result ≡ true → slice_get (map (λ own. own.items) names.now.keys) t ≡ Some name.now }
{
    match names.get_index(t as usize) {
        Some(own) => are_equal(own.as_slice(), name),
        None => false,
    }
}

fn are_equal(a: &[u8], b: &[u8]) -> bool
    ensures { result ≡ true → a.now ≡ b.now }
{
    a == b
}
