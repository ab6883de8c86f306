//! Laws of images. Each function is empty: its contract is the law.

ghost use Rattle.std.specs.Prelude.{◌≡◌, ◌+◌, ℕ, List, ◌∷◌, ◌++◌, length, map};
ghost use Rattle.sk_image.specs.Images.{IsImage, first_line, hash_text, joined, text_of};
ghost use Rattle.sk_image.specs.Reading.{IsBadAt};
ghost use Rattle.sk_model.specs.Sketch.{k_smallest, estimate_to};

pub mod worked;

/// No two images have one text.
pub fn one_image()
    ensures { (version version' k k' seed seed' : ℕ) (hashes hashes' : List ℕ)
        → IsImage version k seed hashes → IsImage version' k' seed' hashes'
        → text_of version k seed hashes ≡ text_of version' k' seed' hashes'
        → (version ≡ version') × (k ≡ k') × (seed ≡ seed') × (hashes ≡ hashes') }
{}

/// No other line of a text is the first that is not as its place requires.
pub fn one_bad_line()
    ensures { (m n : ℕ) (text : List ℕ) → IsBadAt m text → IsBadAt n text → m ≡ n }
{}

/// If the last line of an image is missing, it is the first bad one.
pub fn the_last_line_is_missed()
    ensures { (version k seed : ℕ) (hashes : List ℕ) → IsImage version k seed hashes
        → IsBadAt (length hashes + 2) (joined (first_line version k seed ∷ map (hash_text version) hashes)) }
{}

/// What is joined of the images of two lists is the image of the one after the other. So any tree of joins
/// gives the one image of all lists, in any order.
pub fn joins_are_one()
    ensures one { (k : ℕ) (a b : List ℕ) → k_smallest k (k_smallest k a ++ k_smallest k b) ≡ k_smallest k (a ++ b) }
    ensures either_first { (k : ℕ) (a b : List ℕ) → k_smallest k (a ++ b) ≡ k_smallest k (b ++ a) }
{}

/// The hashes of an image have the estimate of the list that it is of, by whichever end.
pub fn an_image_estimates()
    ensures { (end k : ℕ) (hashes : List ℕ) → estimate_to end k (k_smallest k hashes) ≡ estimate_to end k hashes }
{}
