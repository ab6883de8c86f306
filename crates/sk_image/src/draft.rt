// An image as far as its bytes were taken.
ghost use Rattle.std.specs.Prelude.{◌≡◌, ◌≢◌, ℕ, List, [], ◌∷◌, ◌++◌, Err, IfOk, IfErr};

use crate::image::Image;
use crate::lines::MOST_LINE;
use crate::part::Part;
use crate::stop::ReadStop;
use std::alloc::Global;

/// The lines taken so far, and a piece of the next.
#[derive(Drop)]
pub struct Draft {
    pub part: Part,
    pub line: Vec<u8>,
}

impl Draft {
    ghost use Rattle.sk_image.specs.Written.{image_text};
    ghost use Rattle.sk_image.specs.Reading.{IsBadAt};
    ghost use Rattle.sk_image.specs.Inside.{HasTaken, Takes, Spoils};

    pub fn new(alloc: Global) -> Draft
        ensures { HasTaken result [] }
    {
        Draft {
            part: Part::Nothing,
            line: Vec::new(alloc),
        }
    }

    /// Takes bytes more.
    pub fn with_bytes(self, alloc: Global, bytes: &[u8]) -> Result<Draft, ReadStop>
        ensures ok { IfOk result (λ draft. Takes self draft bytes.now) }
        ensures bad { (n : ℕ) → result ≡ Err (ReadStop.BadImage n) → Spoils self bytes.now n }
        ensures only { (result ≢ Err ReadStop.ReadFault) × (result ≢ Err ReadStop.TooMuch) }
    {
        let mut draft = self;
        'byte: for byte in bytes {
            draft = draft.with_byte(alloc, *byte)?;
        }
        Ok(draft)
    }

    // Takes one byte more.
    fn with_byte(self, alloc: Global, byte: u8) -> Result<Draft, ReadStop>
        ensures ok { IfOk result (λ draft. Takes self draft (byte ∷ [])) }
        ensures bad { (n : ℕ) → result ≡ Err (ReadStop.BadImage n) → Spoils self (byte ∷ []) n }
        ensures only { (result ≢ Err ReadStop.ReadFault) × (result ≢ Err ReadStop.TooMuch) }
    {
        let Draft { part, mut line } = self;
        if byte == b'\n' {
            let part = part.with_line(alloc, &line)?;
            line.clear();
            return Ok(Draft { part, line });
        }
        if line.len() == MOST_LINE {
            return Err(ReadStop::BadImage(part.next_line()));
        }
        line.push(byte)?;
        Ok(Draft { part, line })
    }

    /// The image, if the text ends here.
    pub fn end(self) -> Result<Image, ReadStop>
        ensures ok { IfOk result (λ image. (text : List ℕ) → HasTaken self text → text ≡ image_text image) }
        ensures bad { IfErr result (λ stop. (n : ℕ) × (stop ≡ ReadStop.BadImage n)
            × ((text : List ℕ) → HasTaken self text → IsBadAt n text)) }
    {
        let Draft { part, line } = self;
        let number = part.next_line();
        match part {
            Part::Whole(image) if line.is_empty() => Ok(image),
            Part::Whole(_image) => Err(ReadStop::BadImage(number)),
            Part::Open(_image) => Err(ReadStop::BadImage(number)),
            Part::Nothing => Err(ReadStop::BadImage(number)),
        }
    }
}
