// The command that joins two images.
ghost use Rattle.std.specs.Prelude.{◌≡◌, ◌≢◌, ◌⊎◌, [], ◌∷◌, false, Err, OnOk, IfOk, IfErr, IsErrAnd, IsErrOf, MatchResult};
ghost use Rattle.std.specs.Io.KnownBytes.{Appends, IsAtEnd};
ghost use Rattle.std.specs.Option.{option_map};
ghost use Rattle.sk_model.specs.Causes.{HasCause, HasCauseIn, AppendsPart};
ghost use Rattle.sk_io.specs.Files.{told_file, IsMissing, Opens};
ghost use Rattle.sk_cli.specs.commands.Join.{images_of, images_by, image_or_line, IsFileOf, EndsFile, WritesBoth, EndsBoth, JoinsSo, OpensBoth, stamp_of};

use crate::commands::image::write_image;
use crate::fault::{Fault, Stamp};
use crate::options::{Name, Options};
use crate::write::write_text;
use sk_image::{Image, JoinStop, read};
use sk_io::{OpenFile, Shelf, Sink, Source};
use sk_lines::{ESTIMATE_LINE_LEN, put_estimate_line};
use std::alloc::Global;

/// Which images are joined, and whether the joined image is written in place of its estimate.
#[derive(Clone, Copy)]
pub struct JoinPlan<'a> {
    pub left: &'a str,
    pub right: &'a str,
    pub as_image: bool,
}

impl<'a> JoinPlan<'a> {
    /// The plan that the options spell. `None` if a name is not given, or is empty.
    pub fn of(options: &Options<'a>) -> Option<JoinPlan<'a>>
        ensures { option_map images_of result ≡ images_by options.now }
    {
        let left = options.word(Name::Left)?;
        let right = options.word(Name::Right)?;
        let as_image = options.has(Name::AsImage);
        Some(JoinPlan {
            left,
            right,
            as_image,
        })
    }
}

// Reads a source to its end as the image in the file of this number.
fn examine<S: Source>(alloc: Global, number: u64, most: u64, source: &mut S) -> Result<Image, Fault>
    ensures image { IfOk result (λ image. IsFileOf most image (S.left source.old)) }
    ensures end { OnOk result (IsAtEnd (S.left source.new)) }
    ensures err { IfErr result (EndsFile most number (S.left source.old) (S.left source.new)) }
    ensures opened { result ≢ Err Fault.OpenFault }
    ensures cause { HasCauseIn Fault.ReadFault (S.faults source.old) (S.faults source.new) result }
    ensures stays { S.stands_on source.new ≡ S.stands_on source.old }
{
    match read(alloc, source, most) {
        Ok(image) => Ok(image),
        Err(stop) => Err(Fault::of_image(number, stop)),
    }
}

// Opens a file and reads it to its end as the image of this number.
fn read_image<F: Shelf>(
    alloc: Global,
    number: u64,
    name: &str,
    most: u64,
    shelf: &mut F,
) -> Result<Image, Fault>
    ensures image { IfOk result (λ image. IsFileOf most image (told_file (F.files shelf.old) name.now)) }
    ensures end { OnOk result (IsAtEnd (F.rest shelf.new)) }
    ensures err { IfErr result (EndsFile most number (told_file (F.files shelf.old) name.now) (F.rest shelf.new)) }
    ensures missing { IsMissing (F.files shelf.old) name.now → result ≡ Err Fault.OpenFault }
    ensures opens { HasCauseIn Fault.OpenFault (F.open_faults shelf.old) (F.open_faults shelf.new) result }
    ensures reads { HasCauseIn Fault.ReadFault (F.read_faults shelf.old) (F.read_faults shelf.new) result }
    ensures files { F.files shelf.new ≡ F.files shelf.old }
    ensures opened { Opens (F.opened shelf.old) (F.opened shelf.new) (name.now ∷ []) }
{
    match OpenFile::open(shelf, name) {
        Ok(mut file) => examine(alloc, number, most, &mut file),
        Err(_refused) => Err(Fault::OpenFault),
    }
}

// Writes the line of an image's estimate.
fn write_estimate<O: Sink>(image: &Image, out: &mut O) -> Result<(), Fault>
    ensures ok { OnOk result (Appends (O.written out.old) (O.written out.new) (image_or_line false image.now)) }
    ensures part { IsErrOf result Fault.WriteFault → AppendsPart (O.written out.old) (O.written out.new) (image_or_line false image.now) }
    ensures cause { HasCause (O.faults out.old) (O.faults out.new) result }
    ensures err { IfErr result (λ fault. fault ≡ Fault.WriteFault) }
{
    let (n, d) = image.fraction();
    let mut line = [0u8; ESTIMATE_LINE_LEN];
    let len = put_estimate_line(&mut line, n, d);
    write_text(out, &line[..len])
}

// Writes the text of an image, or the line of its estimate.
fn write_joined<O: Sink>(
    alloc: Global,
    as_image: bool,
    image: &Image,
    out: &mut O,
) -> Result<(), Fault>
    ensures ok { OnOk result (Appends (O.written out.old) (O.written out.new) (image_or_line as_image image.now)) }
    ensures part { IsErrOf result Fault.WriteFault → AppendsPart (O.written out.old) (O.written out.new) (image_or_line as_image image.now) }
    ensures memory { IsErrOf result Fault.OutOfMemory → out.new ≡ out.old }
    ensures cause { HasCauseIn Fault.WriteFault (O.faults out.old) (O.faults out.new) result }
    ensures err { IfErr result (λ fault. (fault ≡ Fault.WriteFault) ⊎ (fault ≡ Fault.OutOfMemory)) }
{
    if as_image {
        write_image(alloc, image, out)
    } else {
        write_estimate(image, out)
    }
}

// Writes the estimate of two images that were read, or the image that they join to.
fn write_both<O: Sink>(
    alloc: Global,
    as_image: bool,
    left: &Image,
    right: &Image,
    out: &mut O,
) -> Result<(), Fault>
    ensures done { MatchResult result (λ _. WritesBoth as_image (O.written out.old) (O.written out.new) left.now right.now)
        (EndsBoth as_image (O.written out.old) (O.written out.new) left.now right.now) }
    ensures quiet { IfErr result (λ fault. fault ≢ Fault.WriteFault → out.new ≡ out.old) }
    ensures cause { HasCauseIn Fault.WriteFault (O.faults out.old) (O.faults out.new) result }
{
    match sk_image::join(alloc, left, right) {
        Ok(joined) => write_joined(alloc, as_image, &joined, out),
        Err(JoinStop::Mixed) => Err(Fault::Mixed(stamp_of(left), stamp_of(right))),
        Err(JoinStop::OutOfMemory) => Err(Fault::OutOfMemory),
    }
}

// The numbers of an image's first line.
fn stamp_of(image: &Image) -> Stamp
    ensures { result ≡ stamp_of image.now }
{
    Stamp {
        version: image.version,
        k: image.k,
        seed: image.seed,
    }
}

/// Opens the left file and reads it to its end, then the right one, and writes the estimate of both images as
/// one, or the image that they join to.
pub fn join<O: Sink, F: Shelf>(
    alloc: Global,
    plan: &JoinPlan<'_>,
    most: u64,
    out: &mut O,
    shelf: &mut F,
) -> Result<(), Fault>
    ensures done { JoinsSo (images_of plan.now) most (F.files shelf.old) (F.rest shelf.new) (O.written out.old) (O.written out.new) result }
    ensures last { IfErr result (λ fault. fault ≢ Fault.WriteFault → out.new ≡ out.old) }
    ensures missing { (IsMissing (F.files shelf.old) plan.now.left.now → result ≡ Err Fault.OpenFault)
        × (IsMissing (F.files shelf.old) plan.now.right.now
        → IsErrAnd result (EndsFile most 1 (told_file (F.files shelf.old) plan.now.left.now) (F.rest shelf.new))) }
    ensures opens { HasCauseIn Fault.OpenFault (F.open_faults shelf.old) (F.open_faults shelf.new) result }
    ensures reads { HasCauseIn Fault.ReadFault (F.read_faults shelf.old) (F.read_faults shelf.new) result }
    ensures writes { HasCauseIn Fault.WriteFault (O.faults out.old) (O.faults out.new) result }
    ensures files { (F.files shelf.new ≡ F.files shelf.old)
        × OpensBoth (images_of plan.now) most (F.files shelf.old) (F.opened shelf.old) (F.opened shelf.new) }
{
    let left = read_image(alloc, 1, plan.left, most, shelf)?;
    let right = read_image(alloc, 2, plan.right, most, shelf)?;
    write_both(alloc, plan.as_image, &left, &right, out)
}
