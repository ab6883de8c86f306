// What the lines taken so far hold of an image.
ghost use Rattle.sk_image.specs.Images.{IsImage, hash_text};
ghost use Rattle.std.specs.Prelude.{◌≡◌, ◌≢◌, ◌↔◌, ◌+◌, ℕ, List, [], ◌∷◌, ◌++◌, Some, Err, IfOk, IfErr, length};

use crate::image::Image;
use crate::lines::{is_last, read_first, read_hash_text};
use crate::stop::ReadStop;
use std::alloc::Global;

/// The lines taken so far.
#[derive(Drop)]
pub enum Part {
    /// There was none.
    Nothing,
    /// The first line, and those of these hashes.
    Open(Image),
    /// All lines of this image.
    Whole(Image),
}

impl Part {
    ghost use Rattle.sk_image.specs.Inside.{Holds, Adds, Refuses};

    /// The number of the next line, counted from 1.
    pub fn next_line(&self) -> u64
        ensures { (lines : List (List ℕ)) → Holds self.now lines → result ≡ length lines + 1 }
    {
        match self {
            Part::Nothing => 1,
            Part::Open(image) => image.hashes.len() as u64 + 2,
            Part::Whole(image) => image.hashes.len() as u64 + 3,
        }
    }

    /// The lines with one more.
    pub fn with_line(self, alloc: Global, line: &[u8]) -> Result<Part, ReadStop>
        ensures ok { IfOk result (λ part. Adds self part line.now) }
        ensures bad { (n : ℕ) → result ≡ Err (ReadStop.BadImage n) → Refuses self line.now n }
        ensures only { (result ≢ Err ReadStop.ReadFault) × (result ≢ Err ReadStop.TooMuch) }
    {
        let number = self.next_line();
        match self {
            Part::Nothing => match read_first(line) {
                Some(first) => Ok(Part::Open(Image {
                    version: first.version,
                    k: first.k,
                    seed: first.seed,
                    hashes: Vec::new(alloc),
                })),
                None => Err(ReadStop::BadImage(number)),
            },
            Part::Open(image) => Part::of_next(image, line),
            Part::Whole(_image) => Err(ReadStop::BadImage(number)),
        }
    }

    // The lines with one more, after the first and those of hashes.
    fn of_next(image: Image, line: &[u8]) -> Result<Part, ReadStop>
        ensures ok { IfOk result (λ part. Adds (Part.Open image) part line.now) }
        ensures bad { (n : ℕ) → result ≡ Err (ReadStop.BadImage n) → Refuses (Part.Open image) line.now n }
        ensures only { (result ≢ Err ReadStop.ReadFault) × (result ≢ Err ReadStop.TooMuch) }
    {
        if is_last(line, image.hashes.len()) {
            return Ok(Part::Whole(image));
        }
        match next_hash(&image, line) {
            Some(hash) => Ok(Part::Open(with_hash(image, hash)?)),
            None => Err(ReadStop::BadImage(image.hashes.len() as u64 + 2)),
        }
    }
}

// The hash that a line adds to those of an image.
fn next_hash(image: &Image, line: &[u8]) -> Option<u64>
    ensures { (hash : ℕ) → (result ≡ Some hash ↔ (line.now ≡ hash_text image.now.version hash)
        × IsImage image.now.version image.now.k image.now.seed (image.now.hashes.items ++ hash ∷ [])) }
{
    let hash = read_hash_text(image.version, line)?;
    let rises = match image.hashes.last() {
        Some(last) => *last < hash,
        None => true,
    };
    if rises && image.hashes.len() < image.k as usize {
        Some(hash)
    } else {
        None
    }
}

// An image with one more hash.
fn with_hash(image: Image, hash: u64) -> Result<Image, ReadStop>
    requires { IsImage image.version image.k image.seed (image.hashes.items ++ hash ∷ []) }
    ensures version { IfOk result (λ more. more.version ≡ image.version) }
    ensures k { IfOk result (λ more. more.k ≡ image.k) }
    ensures seed { IfOk result (λ more. more.seed ≡ image.seed) }
    ensures hashes { IfOk result (λ more. more.hashes.items ≡ image.hashes.items ++ hash ∷ []) }
    ensures err { IfErr result (λ stop. stop ≡ ReadStop.OutOfMemory) }
{
    let Image {
        version,
        k,
        seed,
        mut hashes,
    } = image;
    hashes.push(hash)?;
    Ok(Image {
        version,
        k,
        seed,
        hashes,
    })
}
