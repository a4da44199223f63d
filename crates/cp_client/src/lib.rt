//! A client: what it does at a call, at an answer and when its clock moves.
#![tactic(auto)]

mod answering;
mod asking;
mod call;
mod client;
mod going;
mod holds;
mod output;
mod sessions;
mod threads;
mod ticking;

pub use client::Client;
pub use output::{Asked, ClientOut};
