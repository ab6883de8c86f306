//! Schedules as text.
ghost use Rattle.std.specs.Prelude.{◌≡◌, ◌==◌, [], ◌∷◌, position, MatchOption, IfSome};
ghost use Rattle.sk_core.specs.Texts.{fields_of, event_of_one, event_of_two, event_of, number_from, machine_line_of, vacant_line_of};
ghost use Rattle.sk_model.specs.Limits.{least_k, most_k, most_size, most_updaters, IsFrom};

use crate::event::Event;
use sk_lines::read_number;
use sk_model::limits::{LEAST_K, MOST_K, MOST_SIZE, MOST_UPDATERS};
use sk_theta::ITEM_END;

/// The event that a line names: a word and one or two numbers, parted by one space. No line offers 0.
pub fn read_event(line: &[u8]) -> Option<Event>
    ensures { result ≡ event_of line.now }
{
    let (word, rest) = cut(line)?;
    match cut(rest) {
        None => event_of_one(word, read_number(rest, ITEM_END)?),
        Some((n, m)) => event_of_two(word, read_number(n, ITEM_END)?, read_number(m, ITEM_END)?),
    }
}

/// What a first line `machine K B N` says, where the three numbers are within their limits.
pub fn read_machine(line: &[u8]) -> Option<(u32, u32, u32)>
    ensures value { result ≡ machine_line_of line.now }
    ensures limits { IfSome result (λ m. IsFrom least_k most_k m.0 × IsFrom 1 most_size m.1 × IsFrom 1 most_updaters m.2) }
{
    let (word, rest) = cut(line)?;
    let (k, rest) = cut(rest)?;
    let (b, n) = cut(rest)?;
    if word != b"machine".as_slice() {
        return None;
    }
    Some((
        number(k, LEAST_K, MOST_K)?,
        number(b, 1, MOST_SIZE)?,
        number(n, 1, MOST_UPDATERS)?,
    ))
}

/// What a first line `vacant K N` says, where both numbers are within their limits.
pub fn read_vacant(line: &[u8]) -> Option<(u32, u32)>
    ensures value { result ≡ vacant_line_of line.now }
    ensures limits { IfSome result (λ m. IsFrom least_k most_k m.0 × IsFrom 1 most_updaters m.1) }
{
    let (word, rest) = cut(line)?;
    let (k, n) = cut(rest)?;
    if word != b"vacant".as_slice() {
        return None;
    }
    Some((number(k, LEAST_K, MOST_K)?, number(n, 1, MOST_UPDATERS)?))
}

// What stands before the first space of a text, and what stands after it.
fn cut(text: &[u8]) -> Option<(&[u8], &[u8])>
    ensures { MatchOption result (fields_of text.now ≡ text.now ∷ []) (λ parts. fields_of text.now ≡ parts.0.now ∷ fields_of parts.1.now) }
{
    match space_at(text) {
        None => None,
        Some(at) => Some((&text[..at], &text[at + 1..])),
    }
}

// The place of the first space.
fn space_at(text: &[u8]) -> Option<usize>
    ensures { result ≡ position (λ byte. byte == 32) text.now }
{
    text.iter().position(|byte| *byte == b' ')
}

// A number from `low` to `high`.
fn number(text: &[u8], low: u32, high: u32) -> Option<u32>
    ensures value { result ≡ number_from low high text.now }
    ensures limits { IfSome result (IsFrom low high) }
{
    let n = read_number(text, ITEM_END)?;
    if u64::from(low) <= n && n <= u64::from(high) {
        Some(n as u32)
    } else {
        None
    }
}

// The event that a word and one number name.
#[tactic(auto, unfolding(crate::specs::Texts::event_of_one))]
fn event_of_one(word: &[u8], n: u64) -> Option<Event>
    ensures { result ≡ event_of_one word.now n }
{
    match word {
        b"look" => Some(Event::Look(n)),
        b"swap" => Some(Event::Swap(n)),
        b"hand" => Some(Event::Hand(n)),
        b"find" => Some(Event::Find(n)),
        b"take" => Some(Event::Take(n)),
        b"publish" => Some(Event::Publish(n)),
        b"put" => Some(Event::Put(n)),
        b"return" => Some(Event::GiveBack(n)),
        b"ask" => Some(Event::Ask(n)),
        b"split" => Some(Event::Split(n)),
        b"note" => Some(Event::Note(n)),
        b"turn" => Some(Event::Turn(n)),
        b"yield" => Some(Event::YieldTurn(n)),
        _ => None,
    }
}

// The event that a word and two numbers name.
#[tactic(auto, unfolding(crate::specs::Texts::event_of_two))]
fn event_of_two(word: &[u8], n: u64, m: u64) -> Option<Event>
    ensures { result ≡ event_of_two word.now n m }
{
    match word {
        b"offer" if m > 0 => Some(Event::Offer(n, m)),
        b"join" => Some(Event::Join(n, m)),
        b"admit" => Some(Event::Admit(n, m)),
        _ => None,
    }
}
