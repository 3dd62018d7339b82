// What one server of the ring keeps, and how the calls of the ring change it in place.
#![tactic(auto)]

mod cell;
mod changes;
mod questions;
mod server;

pub use cell::Cell;
pub use server::Server;
