// What an image has.
ghost use Rattle.std.specs.Prelude.{◌≡◌, ◌≤◌};
ghost use Rattle.sk_model.specs.Sketch.{estimate_to};
ghost use Rattle.sk_image.specs.Images.{IsImage};
ghost use Rattle.sk_image.specs.Versions as versions;

use crate::version::end_of;

/// What a sketch keeps, with the numbers that shaped it.
#[derive(Debug, PartialEq, Eq, Drop)]
pub struct Image {
    /// 1 for hashes of 48 bits, 2 for hashes of 63.
    pub version: u32,
    /// How many hashes the sketch keeps at most.
    pub k: u32,
    /// The seed of the hash.
    pub seed: u32,
    /// The kept hashes, rising.
    pub hashes: Vec<u64>,
    pub ghost whole: { IsImage version k seed hashes.items },
}

impl Image {
    /// The estimate that the hashes give, as a numerator and a denominator, not reduced.
    pub fn fraction(&self) -> (u128, u64)
        ensures value { result ≡ estimate_to (versions.end_of self.now.version) self.now.k self.now.hashes.items }
        ensures positive { 1 ≤ result.1 }
    {
        let k = self.k as usize;
        if self.hashes.len() < k {
            return (self.hashes.len() as u128, 1);
        }
        let theta = self.hashes[k - 1];
        (
            u128::from(self.k - 1) * u128::from(end_of(self.version)),
            theta,
        )
    }
}
