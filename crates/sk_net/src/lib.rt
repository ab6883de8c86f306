//! Links and a door over TCP on 127.0.0.1.
#![tactic(auto)]

mod listening;
mod replies;
mod sends;
mod tcp_door;
mod tcp_link;

pub use tcp_door::{ClosedLink, TcpDoor};
pub use tcp_link::TcpLink;

#[cfg(test)]
mod tests;
