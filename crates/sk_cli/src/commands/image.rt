// The command that writes the image of a text's items.
ghost use Rattle.std.specs.Prelude.{◌≡◌, ◌≢◌, ◌⊎◌, ◌≤◌, ℕ, List, OnOk, IfErr, IfOk, IfSome, IsErrOf};
ghost use Rattle.std.specs.Io.KnownBytes.{Appends};
ghost use Rattle.sk_model.specs.Causes.{HasCauseIn, AppendsPart};
ghost use Rattle.sk_model.specs.Limits.{source_limit};
ghost use Rattle.sk_model.specs.Sketch.{k_smallest};
ghost use Rattle.sk_theta.specs.Kept.{StandsFor};
ghost use Rattle.sk_image.specs.Images.{text_of};
ghost use Rattle.sk_image.specs.Versions.{newest_version};
ghost use Rattle.sk_image.specs.Written.{image_text};
ghost use Rattle.sk_cli.specs.Beside.{Beside};
ghost use Rattle.sk_cli.specs.Outside.{streams_of};
ghost use Rattle.sk_cli.specs.Run.{Executes, HasCauses};
ghost use Rattle.sk_cli.specs.commands.Image.{plan_by, IsWithin, imaging};

use crate::commands::count::What;
use crate::fault::Fault;
use crate::options::Options;
use sk_heap::HeapTheta;
use sk_image::{Image, NEWEST_VERSION, WriteStop, write};
use sk_io::{Sink, Source};
use sk_model::OutOfMemory;
use sk_read::{Intake, read_items};
use std::alloc::Global;

/// What is read into an image, and the seed that it names.
#[derive(Clone, Copy)]
pub struct ImagePlan {
    pub what: What,
    pub seed: u32,
}

impl ImagePlan {
    /// The plan that the options spell. `None` if a number is out of its limits.
    pub fn of(options: &Options<'_>) -> Option<ImagePlan>
        ensures value { result ≡ plan_by options.now }
        ensures limits { IfSome result IsWithin }
    {
        let what = What::of(options)?;
        let seed = options.seed()?;
        Some(ImagePlan { what, seed })
    }
}

// The image of what a sketch keeps.
#[tactic(auto, unfolding(sk_image::specs::Versions::end_of, sk_image::specs::Versions::least_hash_of, sk_image::specs::Versions::most_k_of))]
fn image_by(seed: u32, sketch: &HeapTheta) -> Result<Image, OutOfMemory>
    ensures version { IfOk result (λ image. image.version ≡ newest_version) }
    ensures k { IfOk result (λ image. image.k ≡ sketch.now.k) }
    ensures seed { IfOk result (λ image. image.seed ≡ seed) }
    ensures hashes { (items : List ℕ) → StandsFor sketch.now items → IfOk result (λ image. image.hashes.items ≡ k_smallest sketch.now.k items) }
{
    let hashes = sketch.list()?;
    Ok(Image {
        version: NEWEST_VERSION,
        k: sketch.k(),
        seed,
        hashes,
    })
}

/// Writes the text of an image, or a part of it at a write fault, or nothing if memory is out.
pub fn write_image<O: Sink>(alloc: Global, image: &Image, out: &mut O) -> Result<(), Fault>
    ensures ok { OnOk result (Appends (O.written out.old) (O.written out.new) (image_text image.now)) }
    ensures part { IsErrOf result Fault.WriteFault → AppendsPart (O.written out.old) (O.written out.new) (image_text image.now) }
    ensures memory { IsErrOf result Fault.OutOfMemory → out.new ≡ out.old }
    ensures cause { HasCauseIn Fault.WriteFault (O.faults out.old) (O.faults out.new) result }
    ensures err { IfErr result (λ fault. (fault ≡ Fault.WriteFault) ⊎ (fault ≡ Fault.OutOfMemory)) }
{
    match write(alloc, out, image) {
        Ok(()) => Ok(()),
        Err(WriteStop::Failed) => Err(Fault::WriteFault),
        Err(WriteStop::OutOfMemory) => Err(Fault::OutOfMemory),
    }
}

// Writes the image of what a sketch keeps, for each list that it stands for.
fn write_sketch<O: Sink>(
    alloc: Global,
    seed: u32,
    sketch: &HeapTheta,
    out: &mut O,
) -> Result<(), Fault>
    ensures ok { (items : List ℕ) → StandsFor sketch.now items
        → OnOk result (Appends (O.written out.old) (O.written out.new) (text_of newest_version sketch.now.k seed (k_smallest sketch.now.k items))) }
    ensures part { (items : List ℕ) → StandsFor sketch.now items → IsErrOf result Fault.WriteFault
        → AppendsPart (O.written out.old) (O.written out.new) (text_of newest_version sketch.now.k seed (k_smallest sketch.now.k items)) }
    ensures memory { IsErrOf result Fault.OutOfMemory → out.new ≡ out.old }
    ensures cause { HasCauseIn Fault.WriteFault (O.faults out.old) (O.faults out.new) result }
    ensures err { IfErr result (λ fault. (fault ≡ Fault.WriteFault) ⊎ (fault ≡ Fault.OutOfMemory)) }
{
    let image = image_by(seed, sketch)?;
    write_image(alloc, &image, out)
}

/// Reads the items of a source as `count` does, on one thread, and once it has ended writes their image.
pub fn image<S: Source, O: Sink>(
    alloc: Global,
    plan: &ImagePlan,
    most: u64,
    source: &mut S,
    out: &mut O,
) -> Result<(), Fault>
    requires within { IsWithin plan.now }
    requires bound { most ≤ source_limit }
    ensures done { (from to : Beside) → let old = streams_of S.Source O.Sink source.old out.old in
        let new = streams_of S.Source O.Sink source.new out.new in Executes (imaging plan.now) most from to old new result }
    ensures causes { let old = streams_of S.Source O.Sink source.old out.old in
        let new = streams_of S.Source O.Sink source.new out.new in HasCauses old new result }
    ensures last { IfErr result (λ fault. fault ≢ Fault.WriteFault → out.new ≡ out.old) }
    ensures stays { S.stands_on source.new ≡ S.stands_on source.old }
{
    let what = plan.what;
    let mut sketch = HeapTheta::new(alloc, what.k)?;
    let intake = Intake::of_items(what.kind, what.column, most);
    match read_items(alloc, &intake, source, &mut sketch) {
        Ok(_units) => write_sketch(alloc, plan.seed, &sketch, out),
        Err(fault) => Err(Fault::of_reading(what.column, fault)),
    }
}
