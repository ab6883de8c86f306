// The command that writes the hash of each line.
ghost use Rattle.std.specs.Prelude.{◌≡◌, ◌≤◌};
ghost use Rattle.sk_model.specs.Limits.{source_limit};
ghost use Rattle.sk_cli.specs.Beside.{Beside};
ghost use Rattle.sk_cli.specs.Outside.{streams_of};
ghost use Rattle.sk_cli.specs.Run.{Executes, HasCauses};
ghost use Rattle.sk_cli.specs.commands.Hash.{plan_by, hash_text, hashing};

use crate::answering::{Answerer, answer_lines};
use crate::fault::Fault;
use crate::options::Options;
use sk_hash::hash63;
use sk_io::{Sink, Source};
use sk_lines::hash_line;
use sk_model::OutOfMemory;
use sk_read::LineReader;
use std::alloc::Global;

/// How lines are hashed.
#[derive(Clone, Copy, Debug, PartialEq, Eq)]
pub struct HashPlan {
    pub seed: u32,
}

impl HashPlan {
    /// The plan that the options spell. `None` if the seed is out of its limits.
    pub fn of(options: &Options<'_>) -> Option<HashPlan>
        ensures { result ≡ plan_by options.now }
    {
        Some(HashPlan {
            seed: options.seed()?,
        })
    }
}

impl Answerer for HashPlan {
    ghost how = { λ plan. hashing plan };

    ghost due = { λ plan lines text. text ≡ hash_text plan.seed lines };

    ghost led = { λ plan lines text. text ≡ hash_text plan.seed lines };

    ghost refuses = { λ lines line. ⊥ };

    ghost is_due = { λ plan lines text is. is };

    fn answer(&mut self, line: &[u8], text: &mut Vec<u8>) -> Result<bool, OutOfMemory> {
        if line.is_empty() {
            return Ok(true);
        }
        text.extend_from_slice(&hash_line(hash63(self.seed, line)))?;
        Ok(true)
    }
}

/// Writes the hash of each line that is not empty, before more is read.
pub fn hash<S: Source, O: Sink>(
    alloc: Global,
    plan: &HashPlan,
    most: u64,
    source: &mut S,
    out: &mut O,
) -> Result<(), Fault>
    requires bound { most ≤ source_limit }
    ensures done { (from to : Beside) → let old = streams_of S.Source O.Sink source.old out.old in
        let new = streams_of S.Source O.Sink source.new out.new in Executes (hashing plan.now) most from to old new result }
    ensures causes { let old = streams_of S.Source O.Sink source.old out.old in
        let new = streams_of S.Source O.Sink source.new out.new in HasCauses old new result }
    ensures stays { S.stands_on source.new ≡ S.stands_on source.old }
{
    let mut reader = LineReader::new(alloc, most)?;
    let mut hasher = *plan;
    answer_lines(alloc, &mut reader, &mut hasher, source, out)
}
