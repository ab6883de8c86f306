//! The laws on which the interface rests, each the contract of an empty function.

pub mod kept;

pub use sk_model::laws::missing::missing_adds_up;
pub use sk_model::laws::sketch::{
    idle_changes_nothing, idle_stays, packed_reads_back, theta_of_full,
};
