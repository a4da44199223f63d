//! A world without members: clients, and the one group, whose history each request enters at once.
#![tactic(auto)]

mod clients;
mod committing;
mod copying;
mod event;
mod handing;
mod reusing;
mod turn;
mod world;

pub use turn::Turn;
pub use world::World;
