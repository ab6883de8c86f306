//! What is left of a run of a counting hub.

use sk_heap::HeapTheta;
use sk_hub::{Heart, Token};

/// The handles of the hub that counted.
#[derive(Drop)]
pub struct Remains {
    pub heart: Option<Heart<HeapTheta>>,
    pub token: Option<Token<HeapTheta>>,
}
