// The words of a command line.
ghost use Rattle.std.specs.Prelude.{◌≤◌, IfOk, length, take};
ghost use Rattle.std.specs.String.{string_bytes};
ghost use Rattle.sk_io.specs.Texts.{IsTextOf};

use sk_model::OutOfMemory;
use std::alloc::Global;
use std::env::FillError;
use std::rt::Env;
use std::str;

/// These bytes as a text. Bytes that are not UTF-8 are no text, and give the empty one.
pub fn text_or_empty(alloc: Global, bytes: &[u8]) -> Result<String, OutOfMemory>
    ensures { IfOk result (λ text. IsTextOf bytes.now (string_bytes text)) }
{
    match str::from_utf8(bytes) {
        Ok(text) => Ok(String::from_str(alloc, text)?),
        Err(_) => Ok(String::new(alloc)),
    }
}

// The word that the first `len` bytes of a buffer are.
fn word_in(alloc: Global, buffer: &[u8], len: usize) -> Result<String, OutOfMemory>
    requires { len ≤ length buffer.now }
    ensures { IfOk result (λ word. IsTextOf (take len buffer.now) (string_bytes word)) }
{
    text_or_empty(alloc, &buffer[..len])
}

// The word at a place of the command line, if there is one.
fn word_at(rt: &impl Env, alloc: Global, place: usize) -> Result<Option<String>, OutOfMemory> {
    let mut buffer = Vec::new(alloc);
    let mut room: usize = 256;
    'grow: for _ in 0..usize::BITS {
        buffer.resize(room, 0u8)?;
        match rt.arg(place, &mut buffer) {
            Ok(len) => return Ok(Some(word_in(alloc, &buffer, len)?)),
            Err(FillError::NotPresent) => return Ok(None),
            Err(FillError::TooLong) => room = room.saturating_mul(2),
        }
    }
    Err(OutOfMemory)
}

/// The words of a command line after the program's name. One that is no text is empty.
pub fn words_of(rt: &impl Env, alloc: Global) -> Result<Vec<String>, OutOfMemory> {
    let mut words = Vec::new(alloc);
    'words: for place in 1..usize::MAX {
        match word_at(rt, alloc, place)? {
            Some(word) => words.push(word)?,
            None => break,
        }
    }
    Ok(words)
}
