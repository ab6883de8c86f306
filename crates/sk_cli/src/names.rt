// Names that a word joins by commas.
ghost use Rattle.std.specs.Prelude.{◌≡◌, ◌+◌, ◌<◌, ◌≤◌, ◌&&◌, nat_le, not, ℕ, List, length, map, option_copied, IfOk, string_bytes};
ghost use Rattle.sk_cli.specs.Names.{most_names, is_name, is_among, are_names, names_of};
ghost use Rattle.sk_cli.specs.Values.{Word, parts_of, parts_in};

use crate::values::first_part;
use sk_model::OutOfMemory;
use std::alloc::Global;
use std::marker::Model;

// How many names a word joins at most.
const MOST_NAMES: usize = 64;

// Whether a word has a byte, and no space.
fn is_name(word: &[u8]) -> bool
    ensures { result ≡ is_name word.now }
{
    !word.is_empty() && !word.contains(&b' ')
}

// Whether a word is one of those that another joins.
fn is_among(word: &str, others: Option<&str>) -> bool
    ensures { result ≡ is_among word.now (parts_in (option_copied others.entry)) }
{
    let mut rest = others;
    'other: while let Some(text) = rest {
        let (part, others) = first_part(text);
        if part == word {
            return true;
        }
        rest = others;
    }
    false
}

// Whether a part is a name that no other part is.
fn is_new(part: &str, others: Option<&str>) -> bool
    ensures { result ≡ (is_name part.now && not (is_among part.now (parts_in (option_copied others.entry)))) }
{
    is_name(part.as_bytes()) && !is_among(part, others)
}

// Whether a word joins names, no two of them equal, and not too many.
fn joins_names(word: &str) -> bool
    ensures { result ≡ (nat_le (length (parts_of word.now)) most_names && are_names (parts_of word.now)) }
{
    let mut count: usize = 0;
    let mut rest = Some(word);
    'part: while let Some(text) = rest {
        let (part, others) = first_part(text);
        if count == MOST_NAMES || !is_new(part, others) {
            return false;
        }
        count += 1;
        rest = others;
    }
    true
}

/// Names that a word joins by commas: at most 64, all different, none of them empty, and none with a space.
#[derive(Drop)]
pub struct NameList<'a> {
    word: &'a str,
}

impl<'a> Model for NameList<'a> {
    ghost use Rattle.std.specs.Prelude.{List, ℕ};
    ghost use Rattle.sk_cli.specs.Names.{AreTenantNames};
    ghost use Rattle.sk_cli.specs.Values.{Word, parts_of};

    ghost Value = { List Word };

    ghost view = { λ names. parts_of names.word.now };

    ghost invariant = { λ names. AreTenantNames (parts_of names.word.now) };
}

impl<'a> NameList<'a> {
    /// The names that a word joins. `None` if one of them is no name, two are equal, or they are too many.
    pub fn of(word: &'a str) -> Option<NameList<'a>>
        ensures { result ≡ names_of word.now }
    {
        if joins_names(word) {
            Some(NameList { word })
        } else {
            None
        }
    }

    /// The names, each a text of its own.
    pub fn texts(&self, alloc: Global) -> Result<Vec<String>, OutOfMemory>
        ensures { IfOk result (λ texts. map string_bytes texts.items ≡ self.now) }
    {
        let mut texts = Vec::new(alloc);
        let mut rest = Some(self.word);
        'part: while let Some(text) = rest {
            let (part, others) = first_part(text);
            texts.push(String::from_str(alloc, part)?)?;
            rest = others;
        }
        Ok(texts)
    }
}
