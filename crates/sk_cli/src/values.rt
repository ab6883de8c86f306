//! What the value of an option spells: numbers, lists of them, and yes or no.
ghost use Rattle.std.specs.Prelude.{◌≡◌, ◌+◌, ◌^◌, ◌<◌, ◌≤◌, ◌∷◌, All, length, IfSome, option_copied};
ghost use Rattle.sk_model.specs.Limits.{IsFrom};
ghost use Rattle.sk_report.specs.Limits.{most_numbers};
ghost use Rattle.sk_cli.specs.Values.{number_from, number_list, parts_of, parts_in, yes_or_no};

use sk_lines::read_number;
use sk_report::Numbers;

/// The number from `low` to `high` that a word spells.
pub fn number_from(word: &[u8], low: u64, high: u64) -> Option<u64>
    requires { high + 1 < 2 ^ 64 }
    ensures value { result ≡ number_from low high word.now }
    ensures within { IfSome result (λ n. (low ≤ n) × (n ≤ high)) }
{
    let number = read_number(word, high + 1)?;
    if low <= number { Some(number) } else { None }
}

/// The first part of a word between its commas, and what stands after the comma, if there is one.
pub fn first_part(word: &str) -> (&str, Option<&str>)
    ensures { parts_of word.now ≡ result.0.now ∷ parts_in (option_copied result.1) }
{
    match word.split_once(',') {
        Some((part, rest)) => (part, Some(rest)),
        None => (word, None),
    }
}

/// The numbers from `low` to `high` that a word spells, joined by commas. `None` if they are more than `most`.
pub fn number_list(word: &str, most: usize, low: u64, high: u64) -> Option<Numbers>
    requires end { high + 1 < 2 ^ 64 }
    requires few { most ≤ most_numbers }
    ensures value { result ≡ number_list most low high word.now }
    ensures some { IfSome result (λ numbers. 1 ≤ length numbers) }
    ensures few { IfSome result (λ numbers. length numbers ≤ most) }
    ensures within { IfSome result (λ numbers. All (IsFrom low high) numbers) }
{
    let mut numbers = Numbers::new();
    let mut rest = Some(word);
    'part: while let Some(text) = rest {
        let (part, others) = first_part(text);
        let number = number_from(part.as_bytes(), low, high)?;
        if numbers.as_slice().len() == most {
            return None;
        }
        numbers.push(number);
        rest = others;
    }
    Some(numbers)
}

/// True at `yes`, false at `no`.
pub fn yes_or_no(word: &str) -> Option<bool>
    ensures { result ≡ yes_or_no word.now }
{
    match word {
        "yes" => Some(true),
        "no" => Some(false),
        _ => None,
    }
}
