//! Sketches by versions, for readers in parallel with a writer.
#![tactic(auto)]

mod history;
mod kind;
mod quant;
mod query;
mod reader;
mod rule;
mod sequential;
mod theta;
mod version;
mod versioned;

pub use history::Known;
pub use quant::{Below, QuantReader, QuantSetup, Rank, VersionedQuant};
pub use query::Query;
pub use reader::VersionReader;
pub use sequential::Sequential;
pub use sk_model::OutOfMemory;
pub use theta::{JoinInto, ThetaReader, VersionedTheta};
pub use versioned::Versioned;
