//! What is asked of a command over tenants.

/// By which sketches the items of tenants are counted, and by how many updaters in parallel.
#[derive(Clone, Copy, Debug, PartialEq, Eq)]
pub struct Plan {
    /// How many hashes the sketch of a tenant keeps.
    pub k: u32,
    /// How many items a buffer of each updater holds, 512 at least.
    pub size: u32,
    /// By which seed an item is hashed.
    pub seed: u32,
    /// How many updaters each tenant has, and how many desks there are.
    pub updaters: u32,
}
