//! A name by its ends.
ghost use Rattle.std.specs.Prelude.{◌≡◌, ◌+◌, ◌-◌, ◌*◌, ◌<◌, ◌≤◌, ◌^◌, ℕ, length, take, min, slice_range, true};
ghost use Rattle.sk_tenant.specs.Guesses.{most_marks, AreEndsOf, IsReachOf};

/// How many bytes at each end of a name are compared at once.
pub(crate) const END: usize = 8;

/// Names of at most this many bytes are equal if their ends are.
pub(crate) const BOTH_ENDS: usize = 16;

// Marks have 11 bits.
const MARK_SHIFT: u32 = 53;

/// The first and the last eight bytes of a name, and how many it has. A shorter one is filled with zeros.
#[derive(Clone, Copy)]
pub(crate) struct Ends {
    first: [u8; END],
    last: [u8; END],
    len: usize,
}

impl Ends {
    /// Those of a name.
    #[inline(always)]
    pub(crate) fn of(name: &[u8]) -> Ends
        ensures { AreEndsOf name.now result }
    {
        if name.len() < END {
            Ends::of_few(name)
        } else {
            Ends::of_many(name)
        }
    }

    /// Those of a name of at least eight bytes.
    #[inline(always)]
    pub(crate) fn of_many(name: &[u8]) -> Ends
        requires many { 8 ≤ length name.now }
        ensures { AreEndsOf name.now result }
    {
        match (name.first_chunk::<END>(), name.last_chunk::<END>()) {
            (Some(first), Some(last)) => Ends {
                first: *first,
                last: *last,
                len: name.len(),
            },
            _ => unreachable!(),
        }
    }

    // Those of a name of fewer than eight bytes.
    #[inline(always)]
    fn of_few(name: &[u8]) -> Ends
        requires few { length name.now < 8 }
        ensures { AreEndsOf name.now result }
    {
        let word = filled(name);
        Ends {
            first: word,
            last: word,
            len: name.len(),
        }
    }

    /// Those of a name that stands at a place of a text.
    #[inline(always)]
    pub(crate) fn read(text: &[u8], at: usize, reach: Reach) -> Ends
        requires reach { IsReachOf reach.len reach }
        requires within { at + reach.len ≤ length text.now }
        requires room { at + 8 ≤ length text.now }
        ensures { AreEndsOf (slice_range text.now at (at + reach.len)) result }
    {
        Ends {
            first: cleared(text, at, reach.mask),
            last: cleared(text, at + reach.tail, reach.mask),
            len: reach.len,
        }
    }

    /// Ends that no name has.
    pub(crate) fn of_none() -> Ends
        ensures { 2 ^ 63 ≤ result.len }
    {
        Ends {
            first: [0; END],
            last: [0; END],
            len: usize::MAX,
        }
    }

    /// A number that is made of them by an odd one. Others may have the same.
    #[inline(always)]
    pub(crate) fn mark(&self, mixer: u64) -> usize
        ensures { result < most_marks }
    {
        // The first bytes count twice: in a name of eight they are the last, too.
        let first = u64::from_le_bytes(self.first).wrapping_mul(2);
        let both = u64::from_le_bytes(self.last).wrapping_add(first);
        (both.wrapping_mul(mixer) >> MARK_SHIFT) as usize
    }

    /// Whether these are the same.
    #[inline(always)]
    pub(crate) fn are(&self, others: &Ends) -> bool
        ensures first { result ≡ true → self.now.first ≡ others.now.first }
        ensures last { result ≡ true → self.now.last ≡ others.now.last }
        ensures len { result ≡ true → self.now.len ≡ others.now.len }
    {
        are_equal_words(self.first, others.first)
            && are_equal_words(self.last, others.last)
            && self.len == others.len
    }
}

/// Where the ends of all names of one length lie in a text.
#[derive(Clone, Copy)]
pub(crate) struct Reach {
    pub(crate) len: usize,
    // how many bytes are before the last eight: none in a shorter name
    tail: usize,
    // clears what comes after a name of fewer than eight bytes
    mask: u64,
}

impl Reach {
    /// That of names of `len` bytes.
    #[inline(always)]
    pub(crate) fn of(len: usize) -> Reach
        ensures { IsReachOf len result }
    {
        Reach {
            len,
            tail: len.saturating_sub(END),
            mask: mask_of(len),
        }
    }
}

// The bits of the first eight bytes, or of all that there are.
#[inline(always)]
fn mask_of(len: usize) -> u64
    ensures { result ≡ 2 ^ (8 * min 8 len) - 1 }
{
    if len < END {
        (1 << (8 * len)) - 1
    } else {
        u64::MAX
    }
}

// Eight bytes of a text, those that the mask does not have as zeros.
#[inline(always)]
fn cleared(text: &[u8], at: usize, mask: u64) -> [u8; END]
    requires { at + 8 ≤ length text.now }
    ensures { (n : ℕ) → n ≤ 8 → mask ≡ 2 ^ (8 * n) - 1 → take n result ≡ slice_range text.now at (at + n) }
{
    match text[at..at + END].first_chunk::<END>() {
        Some(word) => (u64::from_le_bytes(*word) & mask).to_le_bytes(),
        None => unreachable!(),
    }
}

// The bytes of a name of fewer than eight, and zeros after them.
#[inline(never)]
fn filled(name: &[u8]) -> [u8; END]
    requires few { length name.now < 8 }
    ensures { take (length name.now) result ≡ name.now }
{
    let mut word = [0; END];
    word[..name.len()].copy_from_slice(name);
    word
}

// Whether eight bytes are the same, by the numbers that they spell: so it is one comparison.
#[inline(always)]
fn are_equal_words(a: [u8; END], b: [u8; END]) -> bool
    ensures { result ≡ true → a ≡ b }
{
    u64::from_le_bytes(a) == u64::from_le_bytes(b)
}
