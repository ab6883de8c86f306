// What words stand for, as people type them.
ghost use Rattle.std.specs.Prelude.{◌≡◌, ◌&&◌, ◌++◌, ◌∷◌, [], IfOk, OnOk, IfSome, IfNone, IsSome, is_some, flat_map, option_map};
ghost use Rattle.sk_cli.specs.Command.{request_of};
ghost use Rattle.sk_cli.specs.Options.{texts_of};
ghost use Rattle.sk_model.specs.Numbers.{number_of};
ghost use Rattle.sk_typed.specs.Meanings.{Words, meaning_of, meaning, otherwise, rounded_by, apart, help_asked, without_decimal, digits_first, found_of, writes_estimates};

use crate::spelling::verb_of;
use sk_cli::{Verb, is_request};
use sk_decimal::Digits;
use sk_lines::read_number;
use sk_model::OutOfMemory;
use std::alloc::Global;

/// What words stand for.
#[derive(Drop)]
pub enum Typed {
    /// Words of the program.
    Words(Vec<String>),
    /// Words of the program, and how many digits follow the point of each number that it writes in place of a fraction.
    Rounded(Digits, Vec<String>),
    /// A call for the help of one command.
    HelpOf(Verb),
}

impl Typed {
    /// What these words stand for. Words that the program takes as they are stand for themselves.
    pub fn of(alloc: Global, words: &[String]) -> Result<Typed, OutOfMemory>
        ensures themselves { IsSome (request_of (texts_of words.now)) → IfOk result (λ typed. meaning_of typed ≡ Words (texts_of words.now)) }
        ensures value { IfOk result (λ typed. meaning_of typed ≡ meaning (texts_of words.now)) }
    {
        if is_request(words) {
            Ok(Typed::Words(copied(alloc, words)?))
        } else {
            otherwise(alloc, words)
        }
    }
}

// What words stand for that the program does not take as they are.
fn otherwise(alloc: Global, words: &[String]) -> Result<Typed, OutOfMemory>
    ensures { IfOk result (λ typed. meaning_of typed ≡ otherwise (texts_of words.now) (help_asked (texts_of words.now))) }
{
    match help_asked(words) {
        Some(verb) => Ok(Typed::HelpOf(verb)),
        None => rounded(alloc, taken_apart(alloc, words)?),
    }
}

// What words stand for, by what `--decimal` asks for in them.
fn rounded(alloc: Global, parts: Vec<String>) -> Result<Typed, OutOfMemory>
    ensures { IfOk result (λ typed. meaning_of typed ≡ rounded_by (texts_of parts.items) (without_decimal (texts_of parts.items))) }
{
    match without_decimal(alloc, &parts)? {
        Some(Found { digits, words }) if are_rounded(&words) => Ok(Typed::Rounded(digits, words)),
        _ => Ok(Typed::Words(parts)),
    }
}

// Whether these are words of a command that writes estimates.
fn are_rounded(words: &[String]) -> bool
    ensures { result ≡ writes_estimates (texts_of words.now) && is_some (request_of (texts_of words.now)) }
{
    writes_estimates(words) && is_request(words)
}

// The command whose help two words ask for.
fn help_asked(words: &[String]) -> Option<Verb>
    ensures { result ≡ help_asked (texts_of words.now) }
{
    let (first, behind) = words.split_first()?;
    let (second, rest) = behind.split_first()?;
    if !rest.is_empty() {
        None
    } else if second.as_str() == "--help" {
        verb_of(first)
    } else if first.as_str() == "help" {
        verb_of(second)
    } else {
        None
    }
}

// The words, each a text of its own.
fn copied(alloc: Global, words: &[String]) -> Result<Vec<String>, OutOfMemory>
    ensures { IfOk result (λ copies. texts_of copies.items ≡ texts_of words.now) }
{
    let mut copies = Vec::new(alloc);
    'word: for word in words {
        copies.push(String::from_str(alloc, word)?)?;
    }
    Ok(copies)
}

// The words that each of these stands for.
fn taken_apart(alloc: Global, words: &[String]) -> Result<Vec<String>, OutOfMemory>
    ensures { IfOk result (λ parts. texts_of parts.items ≡ flat_map apart (texts_of words.now)) }
{
    let mut parts = Vec::new(alloc);
    'word: for word in words {
        push_apart(alloc, &mut parts, word)?;
    }
    Ok(parts)
}

// Adds the words that a word stands for.
fn push_apart(alloc: Global, parts: &mut Vec<String>, word: &str) -> Result<(), OutOfMemory>
    ensures { OnOk result (texts_of parts.new.items ≡ texts_of parts.old.items ++ apart word.now) }
{
    match halves(word) {
        Some((name, value)) => {
            parts.push(String::from_str(alloc, name)?)?;
            parts.push(String::from_str(alloc, value)?)?;
        }
        None => parts.push(String::from_str(alloc, word)?)?,
    }
    Ok(())
}

// The name and the value of a word that has both.
fn halves(word: &str) -> Option<(&str, &str)>
    ensures some { IfSome result (λ both. apart word.now ≡ both.0.now ∷ both.1.now ∷ []) }
    ensures none { IfNone result (apart word.now ≡ word.now ∷ []) }
{
    if word.as_bytes().starts_with(b"--") {
        word.split_once('=')
    } else {
        None
    }
}

// How many digits are asked for, and the words without that.
#[derive(Drop)]
struct Found {
    digits: Digits,
    words: Vec<String>,
}

// How many digits `--decimal` asks for, and the words without it and its value.
fn without_decimal(alloc: Global, words: &[String]) -> Result<Option<Found>, OutOfMemory>
    ensures { IfOk result (λ found. option_map found_of found ≡ without_decimal (texts_of words.now)) }
{
    let mut rest = Vec::new(alloc);
    let mut ahead = words;
    'word: while let Some((word, behind)) = ahead.split_first() {
        if word.as_str() == "--decimal" {
            return with_digits(alloc, rest, behind);
        }
        rest.push(String::from_str(alloc, word)?)?;
        ahead = behind;
    }
    Ok(None)
}

// The digits that the first of these words spells, and the words before the option's name with those after its value.
fn with_digits(
    alloc: Global,
    before: Vec<String>,
    behind: &[String],
) -> Result<Option<Found>, OutOfMemory>
    ensures { IfOk result (λ found. option_map found_of found
        ≡ option_map (λ first. (first.0, texts_of before.items ++ first.1)) (digits_first (texts_of behind.now))) }
{
    let Some((value, others)) = behind.split_first() else {
        return Ok(None);
    };
    let Some(digits) = digits_of(value) else {
        return Ok(None);
    };
    let mut words = before;
    'word: for word in others {
        words.push(String::from_str(alloc, word)?)?;
    }
    Ok(Some(Found { digits, words }))
}

// How many digits a word asks for.
fn digits_of(word: &str) -> Option<Digits>
    ensures { option_map (λ digits. digits.count) result ≡ number_of 7 word.now }
{
    let number = read_number(word.as_bytes(), 7)?;
    Digits::new(number as u32)
}

// Whether the first of these words is a command that writes estimates, and nothing else that is a fraction.
fn writes_estimates(words: &[String]) -> bool
    ensures { result ≡ writes_estimates (texts_of words.now) }
{
    let Some((verb, _)) = words.split_first() else {
        return false;
    };
    match verb.as_str() {
        "count" | "join" | "make" | "tenants" | "window" => true,
        _ => false,
    }
}
