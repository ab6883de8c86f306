// How a line becomes an item.
ghost use Rattle.std.specs.Prelude.{◌≡◌, ◌+◌, ◌<◌, ◌≤◌, ℕ, length, slice_range, All, Some, is_some, option_map, IfSome, true};
ghost use Rattle.sk_model.specs.Numbers.{number_of};
ghost use Rattle.sk_model.specs.Lines.{lines_of};
ghost use Rattle.sk_lines.specs.Cutter.{IsOfWholeLines};
ghost use Rattle.sk_read.specs.Items.{item_of, IsGood};
ghost use Rattle.sk_model.specs.Width.{IsItem, number_end};

use crate::short_numbers::are_short_numbers;
use crate::wide::read_number_at;
use sk_hash::{hash63, hash63_at};
use sk_lines::{Span, are_digits, read_number};
use sk_model::limits::NUMBER_END;

/// How a line that is not empty becomes an item.
#[derive(Clone, Copy, Debug, PartialEq, Eq)]
pub enum Kind {
    /// By its hash under this seed.
    Hash(u32),
    /// By the number that it spells, digits only and below 2^63 - 1: the item is one more.
    Raw,
}

impl Kind {
    /// The item of a line, from 1 to 2^63 - 1, or `None` if it has to spell such a number and does not.
    #[inline(always)]
    pub fn item(self, line: &[u8]) -> Option<u64>
        ensures value { result ≡ item_of self line.now }
        ensures below { IfSome result IsItem }
    {
        match self {
            Kind::Hash(seed) => Some(hash63(seed, line)),
            Kind::Raw => item_of_number(read_number(line, NUMBER_END)),
        }
    }

    /// The item of the line that lies in a text.
    #[inline(always)]
    pub fn item_at(self, text: &[u8], span: Span) -> Option<u64>
        requires order { span.from ≤ span.to }
        requires within { span.to ≤ length text.now }
        ensures value { result ≡ item_of self (slice_range text.now span.from span.to) }
        ensures below { IfSome result IsItem }
    {
        match self {
            Kind::Hash(seed) => Some(hash63_at(seed, text, span.from, span.to)),
            Kind::Raw => item_of_number(read_number_at(text, span.from, span.to, NUMBER_END)),
        }
    }

    /// Whether a line that is not empty has an item.
    #[inline(always)]
    pub fn has_item(self, line: &[u8]) -> bool
        ensures { result ≡ is_some (item_of self line.now) }
    {
        match self {
            Kind::Hash(_) => true,
            Kind::Raw => is_short_number(line) || self.item(line).is_some(),
        }
    }

    /// Whether each line of a text of whole lines is empty or has an item. After `false` each may have one all the
    /// same.
    pub fn are_items(self, run: &[u8]) -> bool
        requires { IsOfWholeLines run.now }
        ensures { result ≡ true → All (IsGood self) (lines_of run.now) }
    {
        match self {
            Kind::Hash(_) => true,
            Kind::Raw => are_short_numbers(run),
        }
    }
}

// The item of a number: one more.
#[inline(always)]
fn item_of_number(number: Option<u64>) -> Option<u64>
    requires { IfSome number (λ n. n < number_end) }
    ensures value { result ≡ option_map (λ n. n + 1) number }
    ensures item { IfSome result IsItem }
{
    match number {
        Some(n) => Some(n + 1),
        None => None,
    }
}

// Whether a line is of digits that spell an item whatever they are: at most 18, or 19 of which the first is below 9.
#[inline(always)]
fn is_short_number(line: &[u8]) -> bool
    ensures { result ≡ true → (n : ℕ) × (number_of number_end line.now ≡ Some n) }
{
    match line.len() {
        1..=18 => are_digits(line),
        19 => line[0] < b'9' && are_digits(line),
        _ => false,
    }
}
