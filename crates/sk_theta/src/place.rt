//! A hash goes to its place in a rising array.
ghost use Rattle.std.specs.Prelude.{◌≡◌, ◌≢◌, ◌↔◌, ◌<◌, ◌≤◌, length, take, slice_index, IsTrue, IfOk, IfErr, vec_len, vec_capacity};
ghost use Rattle.std.specs.List.Sorted.{IsStrictlyIncreasing};
ghost use Rattle.sk_model.specs.Sketch.{placed};
ghost use Rattle.sk_theta.specs.Kept.{theta_kept};
ghost use Rattle.sk_theta.specs.Place.{IsPlace};

// Whether a hash is kept, or where it would stand.
fn find(kept: &[u64], hash: u64) -> Result<usize, usize>
    requires { IsStrictlyIncreasing kept.now }
    ensures found { IfOk result (λ at. placed hash kept.now ≡ kept.now) }
    ensures absent { IfErr result (λ at. IsPlace hash kept.now at) }
{
    kept.binary_search(&hash)
}

// Puts a hash in its place among the k smallest, and returns whether they changed.
pub fn put_among(kept: &mut Vec<u64>, k: usize, hash: u64) -> bool
    requires rises { IsStrictlyIncreasing kept.old.items }
    requires within { vec_len kept.old ≤ k }
    requires room { k ≤ vec_capacity kept.old }
    ensures items { kept.new.items ≡ take k (placed hash kept.old.items) }
    ensures changed { IsTrue result ↔ (kept.new.items ≢ kept.old.items) }
    ensures room { vec_capacity kept.new ≡ vec_capacity kept.old }
{
    let Err(at) = find(kept.as_slice(), hash) else {
        return false;
    };
    if at >= k {
        return false;
    }
    kept.truncate(k - 1);
    kept.insert(at, hash).unwrap();
    true
}
