//! The running dispatcher: the calls, each with what it leads to, on the present state and on node memory.
#![tactic(auto)]

mod book;
mod calls;
mod clock;
mod dispatcher;
mod making;
mod memory;
mod obey;
mod questions;
mod runner;

pub use dispatcher::Dispatcher;
pub use making::nodes_needed;
pub use runner::run;
