// The commands, each with its plan and what it does.
pub mod about;
pub mod count;
pub mod hash;
pub mod image;
pub mod join;
pub mod make;
pub mod quantile;
pub mod replay;
pub mod serve;
pub mod tally;
pub mod tenants;
pub mod window;
