//! A store whose acknowledged commits outlive a stop: a core over stores that bring each write to where it lasts, and a journal of what it
//! installed.
#![tactic(auto)]

mod durable;
mod fault;
pub mod laws;
mod opening;

pub use durable::Durable;
pub use fault::{DurableFault, Unopened};
