//! The sketch.
ghost use Rattle.std.specs.Prelude.{◌≡◌, ◌+◌, ◌*◌, ◌<◌, ◌≤◌, ◌^◌, ℕ, List, [], ◌∷◌, ◌++◌, length, slice_index, slice_set, fold, flat_map, All, IfOk, IsTrue, IsFalse};
ghost use Rattle.sk_cms.specs.Counts.{joined, no_counts, counted, raised, IsCountOf, IsMaskOf};
ghost use Rattle.sk_cms.specs.Estimate.{cell_of, least_of, times};
ghost use Rattle.sk_cms.specs.Limits.{most_counted, IsShape};
ghost use Rattle.sk_cms.specs.Places.{places_of, raised_once, ArePlacesOf};
ghost use Rattle.sk_cms.specs.Tallies.{put_all};

use crate::limits::MOST_COUNTED;
use crate::places::{Places, find_places};
use sk_hash::murmur128;
use sk_model::OutOfMemory;
use std::alloc::Global;
use std::marker::Model;

/// The Count-Min sketch of a list of items, after Cormode and Muthukrishnan (Journal of Algorithms 55, 2005):
/// rows of counts, each of which spreads the items by a hash of its own.
#[derive(Drop)]
pub struct CountMin {
    rows: u32,
    width: u32,
    // If the width is a power of two, one less than it. 0 stands for none.
    mask: u64,
    count: u64,
    // The count in a cell is its lower byte and 256 times how often that came round. The lower bytes lie close
    // together, so that most updates find them in the cache.
    low: Vec<u8>,
    high: Vec<u64>,
}

impl Model for CountMin {
    ghost use Rattle.sk_cms.specs.Counts.{Counts, shown_by, AreStored};

    ghost Value = { Counts };

    ghost view = { λ s. shown_by s.rows s.width s.count s.low.items s.high.items };

    ghost invariant = { λ s. AreStored s.rows s.width s.mask s.count s.low.items s.high.items };
}

impl CountMin {
    /// The sketch of the empty list. All its memory is taken here, 9 bytes a cell.
    pub fn new(alloc: Global, rows: u32, width: u32) -> Result<CountMin, OutOfMemory>
        requires { IsShape rows width }
        ensures value { IfOk result (λ s. s ≡ no_counts rows width) }
        ensures empty { IfOk result (λ s. IsCountOf s []) }
    {
        let size = rows as usize * width as usize;
        Ok(CountMin {
            rows,
            width,
            mask: mask_of(width),
            count: 0,
            low: vec![in alloc; 0; size]?,
            high: vec![in alloc; 0; size]?,
        })
    }

    /// Puts an item to the end of the list.
    #[inline(always)]
    pub fn update(&mut self, x: u64)
        requires { self.old.count < most_counted }
        ensures left { self.new ≡ counted self.old x }
        ensures list { (items : List ℕ) → IsCountOf self.old items
            → IsCountOf self.new (items ++ x ∷ []) }
    {
        raise(
            &mut self.low,
            &mut self.high,
            self.rows,
            u64::from(self.width),
            self.mask,
            x,
        );
        self.count += 1;
    }

    /// Puts items to the end of the list, in order.
    pub fn update_all(&mut self, items: &[u64])
        requires { self.old.count + length items.now ≤ most_counted }
        ensures left { self.new ≡ put_all self.old items.now }
        ensures list { (before : List ℕ) → IsCountOf self.old before
            → IsCountOf self.new (before ++ items.now) }
    {
        raise_all(
            &mut self.low,
            &mut self.high,
            self.rows,
            u64::from(self.width),
            self.mask,
            items,
        );
        self.count += items.len() as u64;
    }

    // Where the cells of items lie.
    pub(crate) fn find(&self, alloc: Global, items: &[u64]) -> Result<Places, OutOfMemory>
        ensures { IfOk result (λ p. ArePlacesOf p.rows p.width items.now p.places.items) }
    {
        let width = u64::from(self.width);
        Ok(Places {
            rows: self.rows,
            width: self.width,
            places: find_places(alloc, self.rows, width, self.mask, items)?,
        })
    }

    // Puts items to the end of the list, and returns whether it did: if their places are of a sketch of this shape, and
    // the count has room for all of them.
    pub(crate) fn update_at(&mut self, items: &[u64], found: &Places) -> bool
        requires found { ArePlacesOf found.now.rows found.now.width items.now found.now.places.items }
        ensures put { IsTrue result → self.new ≡ put_all self.old items.now }
        ensures none { IsFalse result → self.new ≡ self.old }
    {
        let more = items.len() as u64;
        if found.rows != self.rows
            || found.width != self.width
            || MOST_COUNTED - self.count < more
        {
            return false;
        }
        raise_each(&mut self.low, &mut self.high, found.places.as_slice());
        self.count += more;
        true
    }

    /// How often the item stands in the list, or more: the least of its counts in all rows.
    pub fn least(&self, x: u64) -> u64
        ensures value { (items : List ℕ) → IsCountOf self.now items
            → result ≡ least_of self.now.rows self.now.width x items }
        ensures over { (items : List ℕ) → IsCountOf self.now items → times x items ≤ result }
    {
        let width = u64::from(self.width);
        let mut least = self.count;
        'row: for r in 0..self.rows {
            let at = place(width, self.mask, r, x);
            let count = count_at(&self.low, &self.high, at);
            least = least.min(count);
        }
        least
    }

    /// How many items the list has.
    pub fn len(&self) -> u64
        ensures count { result ≡ self.now.count }
        ensures value { (items : List ℕ) → IsCountOf self.now items → result ≡ length items }
    {
        self.count
    }
}

// If the width is a power of two, one less than it, or else 0.
fn mask_of(width: u32) -> u64
    requires { 1 ≤ width }
    ensures { IsMaskOf width result }
{
    'power: for k in 0..32_u32 {
        if width == 1_u32 << k {
            return u64::from(width) - 1;
        }
    }
    0
}

// Puts one more into the cell of an item in each row.
#[inline(always)]
fn raise(low: &mut [u8], high: &mut [u64], rows: u32, width: u64, mask: u64, x: u64)
    requires shape { IsShape rows width }
    requires mask { IsMaskOf width mask }
    requires low { length low.old ≡ rows * width }
    requires high { length high.old ≡ rows * width }
    requires small { All (λ cell. cell < 2 ^ 47) (joined low.old high.old) }
    ensures cells { joined low.new high.new ≡ raised rows width x (joined low.old high.old) }
{
    'row: for r in 0..rows {
        let at = place(width, mask, r, x);
        raise_at(low, high, at);
    }
}

// Puts one more into the cells of each item. Four rows are common, and as a fixed number of turns they take less time
// than as any number.
fn raise_all(low: &mut [u8], high: &mut [u64], rows: u32, width: u64, mask: u64, items: &[u64])
    requires shape { IsShape rows width }
    requires mask { IsMaskOf width mask }
    requires low { length low.old ≡ rows * width }
    requires high { length high.old ≡ rows * width }
    requires few { length items.now ≤ most_counted }
    requires small { All (λ cell. cell ≤ most_counted) (joined low.old high.old) }
    ensures cells { joined low.new high.new ≡ fold raised_once (joined low.old high.old) (flat_map (places_of rows width) items.now) }
{
    if rows == 4 {
        raise_items(low, high, 4, width, mask, items);
    } else {
        raise_items(low, high, rows, width, mask, items);
    }
}

// The same by a loop.
#[inline(always)]
fn raise_items(low: &mut [u8], high: &mut [u64], rows: u32, width: u64, mask: u64, items: &[u64])
    requires shape { IsShape rows width }
    requires mask { IsMaskOf width mask }
    requires low { length low.old ≡ rows * width }
    requires high { length high.old ≡ rows * width }
    requires few { length items.now ≤ most_counted }
    requires small { All (λ cell. cell ≤ most_counted) (joined low.old high.old) }
    ensures cells { joined low.new high.new ≡ fold raised_once (joined low.old high.old) (flat_map (places_of rows width) items.now) }
{
    'item: for x in items {
        raise(low, high, rows, width, mask, *x);
    }
}

// Puts one more into the cell at each place. By fours the loop takes two thirds of the instructions.
fn raise_each(low: &mut [u8], high: &mut [u64], places: &[u32])
    requires within { All (λ at. at < length low.old) places.now }
    requires sizes { length high.old ≡ length low.old }
    requires few { length places.now < 2 ^ 62 }
    requires small { All (λ cell. cell ≤ most_counted) (joined low.old high.old) }
    ensures cells { joined low.new high.new ≡ fold raised_once (joined low.old high.old) places.now }
{
    let (fours, rest) = places.as_chunks::<4>();
    'four: for four in fours {
        raise_four(low, high, four);
    }
    raise_rest(low, high, rest);
}

// Puts one more into the cell at each of four places.
#[inline(always)]
fn raise_four(low: &mut [u8], high: &mut [u64], places: &[u32; 4])
    requires within { All (λ at. at < length low.old) places.now }
    requires sizes { length high.old ≡ length low.old }
    requires small { All (λ cell. cell ≤ most_counted + 2 ^ 62) (joined low.old high.old) }
    ensures cells { joined low.new high.new ≡ fold raised_once (joined low.old high.old) places.now }
{
    raise_at(low, high, places[0] as usize);
    raise_at(low, high, places[1] as usize);
    raise_at(low, high, places[2] as usize);
    raise_at(low, high, places[3] as usize);
}

// Puts one more into the cell at each of fewer than four places.
fn raise_rest(low: &mut [u8], high: &mut [u64], places: &[u32])
    requires within { All (λ at. at < length low.old) places.now }
    requires sizes { length high.old ≡ length low.old }
    requires few { length places.now < 4 }
    requires small { All (λ cell. cell ≤ most_counted + 2 ^ 62) (joined low.old high.old) }
    ensures cells { joined low.new high.new ≡ fold raised_once (joined low.old high.old) places.now }
{
    'place: for at in places {
        let place = *at as usize;
        raise_at(low, high, place);
    }
}

// Puts one more into a cell.
#[inline(always)]
fn raise_at(low: &mut [u8], high: &mut [u64], at: usize)
    requires within { at < length low.old }
    requires sizes { length high.old ≡ length low.old }
    requires small { slice_index (joined low.old high.old) at < 2 ^ 63 }
    ensures { joined low.new high.new ≡ slice_set (joined low.old high.old) at
        (slice_index (joined low.old high.old) at + 1) }
{
    let next = low[at].wrapping_add(1);
    low[at] = next;
    if next == 0 {
        high[at] += 1;
    }
}

// The count in a cell.
#[inline(always)]
fn count_at(low: &[u8], high: &[u64], at: usize) -> u64
    requires within { at < length low.now }
    requires sizes { length high.now ≡ length low.now }
    requires small { slice_index (joined low.now high.now) at < 2 ^ 47 }
    ensures { result ≡ slice_index (joined low.now high.now) at }
{
    u64::from(low[at]) + 256 * high[at]
}

// Where the cell of an item in a row lies.
#[inline(always)]
pub(crate) fn place(width: u64, mask: u64, r: u32, x: u64) -> usize
    requires some { 1 ≤ width }
    requires few { width < 2 ^ 32 }
    requires mask { IsMaskOf width mask }
    ensures { result ≡ r * width + cell_of width r x }
{
    let cell = cell(width, mask, r, x);
    (u64::from(r) * width + cell) as usize
}

// The cell of an item in a row. A remainder by a power of two takes no division.
#[inline(always)]
#[tactic(auto, unfolding(crate::specs::Estimate::cell_of))]
fn cell(width: u64, mask: u64, r: u32, x: u64) -> u64
    requires some { 1 ≤ width }
    requires mask { IsMaskOf width mask }
    ensures value { result ≡ cell_of width r x }
    ensures below { result < width }
{
    let hash = murmur128(r, &x.to_le_bytes()).0;
    if mask != 0 { hash & mask } else { hash % width }
}
