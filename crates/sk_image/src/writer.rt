// Images to text.
ghost use Rattle.std.specs.Prelude.{◌≡◌, ◌≤◌, ◌<◌, ◌+◌, ◌++◌, ◌∷◌, [], OnOk, OnErr, IfOk, IsErrOf, string_bytes, codes, decimal, length, take};
ghost use Rattle.std.specs.Io.KnownBytes.{Appends};
ghost use Rattle.sk_model.specs.Causes.{HasCauseIn, AppendsPart};
ghost use Rattle.sk_image.specs.Written.{image_text};
ghost use Rattle.sk_image.specs.Images.{first_line, hash_text, last_line};

use crate::image::Image;
use crate::lines::MOST_LINE;
use crate::version::digits_of;
use sk_io::{Failed, Sink, write_all};
use sk_lines::{hash_line, put_decimal, put_text};
use sk_model::OutOfMemory;
use sk_model::limits::ITEM_DIGITS;
use std::alloc::{AllocError, Global};

/// Why an image was not written, or only in part.
#[derive(Clone, Copy, Debug, PartialEq, Eq)]
pub enum WriteStop {
    /// A write failed.
    Failed,
    /// No memory was left.
    OutOfMemory,
}

impl From<Failed> for WriteStop {
    ghost use Rattle.sk_image.specs.declared.writer.WriteStop.TheVariants as stop;

    ghost from_gives = { λ _ e. e ≡ stop.Failed };

    fn from(_: Failed) -> Self {
        WriteStop::Failed
    }
}

impl From<OutOfMemory> for WriteStop {
    ghost use Rattle.sk_image.specs.declared.writer.WriteStop.TheVariants as stop;

    ghost from_gives = { λ _ e. e ≡ stop.OutOfMemory };

    fn from(_: OutOfMemory) -> Self {
        WriteStop::OutOfMemory
    }
}

/// Writes the text of an image, all of it made in memory first. If a write fails, a part of the text
/// was written; if memory is out, nothing.
pub fn write<O: Sink>(alloc: Global, out: &mut O, image: &Image) -> Result<(), WriteStop>
    ensures ok { OnOk result (Appends (O.written out.old) (O.written out.new) (image_text image.now)) }
    ensures failed { IsErrOf result WriteStop.Failed →
        AppendsPart (O.written out.old) (O.written out.new) (image_text image.now) }
    ensures cause { HasCauseIn WriteStop.Failed (O.faults out.old) (O.faults out.new) result }
    ensures memory { IsErrOf result WriteStop.OutOfMemory → out.new ≡ out.old }
{
    let text = text(alloc, image)?;
    write_all(out, &text)?;
    Ok(())
}

// The text of an image.
fn text(alloc: Global, image: &Image) -> Result<Vec<u8>, OutOfMemory>
    ensures { IfOk result (λ text. text.items ≡ image_text image.now) }
{
    let mut text = Vec::new(alloc);
    let mut first = [0u8; MOST_LINE];
    let len = put_first_line(&mut first, image.version, image.k, image.seed);
    push_line(&mut text, &first[..len])?;
    'hash: for hash in &image.hashes {
        push_hash(&mut text, image.version, *hash)?;
    }
    push_line(&mut text, last(alloc, image.hashes.len())?.as_bytes())?;
    Ok(text)
}

fn push_line(text: &mut Vec<u8>, line: &[u8]) -> Result<(), OutOfMemory>
    ensures { OnOk result (text.new.items ≡ text.old.items ++ (line.now ++ codes "\n")) }
{
    text.extend_from_slice(line)?;
    text.push(b'\n')?;
    Ok(())
}

// Appends the line of a hash: the last digits of the longer line of any hash.
fn push_hash(text: &mut Vec<u8>, version: u32, hash: u64) -> Result<(), OutOfMemory>
    ensures { OnOk result (text.new.items ≡ text.old.items ++ (hash_text version hash ++ codes "\n")) }
{
    let line = hash_line(hash);
    text.extend_from_slice(&line[ITEM_DIGITS - digits_of(version)..])?;
    Ok(())
}

/// Writes the first line of an image to the start of `into`, without LF, and returns its length.
#[tactic(auto, unfolding(crate::specs::Images::first_line))]
pub fn put_first_line(into: &mut [u8; MOST_LINE], version: u32, k: u32, seed: u32) -> usize
    ensures text { take result into.new ≡ first_line version k seed }
    ensures most { result ≤ 44 }
{
    let at = put_word(into, 0, b"theta", version);
    let at = put_word(into, at, b" k=", k);
    put_word(into, at, b" seed=", seed)
}

// Writes a name and a number after the first `at` bytes, and returns how many bytes there are then.
fn put_word(into: &mut [u8; MOST_LINE], at: usize, name: &[u8], number: u32) -> usize
    requires { at + length name.now + 10 ≤ 64 }
    ensures text { take result into.new ≡ take at into.old ++ (name.now ++ decimal number) }
    ensures most { result ≤ at + length name.now + 10 }
{
    let end = at + put_text(&mut into[at..], name);
    end + put_decimal(&mut into[end..], u64::from(number))
}

#[tactic(auto, unfolding(crate::specs::Images::last_line))]
fn last(alloc: Global, count: usize) -> Result<String, AllocError>
    ensures { IfOk result (λ line. string_bytes line ≡ last_line count) }
{
    format!(in alloc; "end {count}")
}
