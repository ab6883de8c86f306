// The help of one command.
ghost use Rattle.std.specs.Prelude.{ℕ, List, ◌++◌, codes, IfSome, OnOk};
ghost use Rattle.std.specs.Io.KnownBytes.{Appends};
ghost use Rattle.sk_cli.specs.declared.commands.about.TheConstants.{HELP};
ghost use Rattle.sk_typed.specs.Parts.{IsPartOf};

use crate::spelling::verb_word;
use sk_cli::{HELP, Verb};
use sk_io::{Failed, Sink, write_all};

// What stands before the options of a command.
const USE: &str = "\n  sketchd ";

// The part of a text about the command of this name.
fn part_of<'a>(text: &'a str, word: &str) -> Option<&'a str>
    ensures { IfSome result (λ part. IsPartOf text.now part.now) }
{
    let mut rest = text;
    'part: while let Some((_, behind)) = rest.split_once(USE) {
        if begins(behind, word) {
            return Some(first_part(behind));
        }
        rest = behind;
    }
    None
}

// Whether a text begins with a word and a blank.
fn begins(text: &str, word: &str) -> bool {
    match text.strip_prefix(word) {
        Some(behind) => behind.starts_with(' '),
        None => false,
    }
}

// A text up to where the next command begins.
fn first_part(text: &str) -> &str
    ensures { IsPartOf text.now result.now }
{
    match text.split_once(USE) {
        Some((part, _)) => part,
        None => text,
    }
}

/// The part of the help about one command: its options in brackets, what it does, and a line for each
/// option. It follows the word `sketchd` and a blank, and has no line end at its end.
pub fn help_of(verb: Verb) -> &'static str
    ensures { IsPartOf HELP.now result.now }
{
    match part_of(HELP, verb_word(verb)) {
        Some(part) => part,
        None => HELP,
    }
}

/// Writes the part of the help about one command.
pub fn show_help<O: Sink>(verb: Verb, out: &mut O) -> Result<(), Failed>
    ensures { OnOk result ((part : List ℕ) × IsPartOf HELP.now part
        × Appends (O.written out.old) (O.written out.new) (codes "usage: sketchd " ++ part ++ codes "\n")) }
{
    write_all(out, b"usage: sketchd ")?;
    write_all(out, help_of(verb).as_bytes())?;
    write_all(out, b"\n")
}
