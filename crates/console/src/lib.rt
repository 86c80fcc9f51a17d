//! The clerk's console: what a line of the day asks for, and what it is answered.
#![tactic(auto)]

mod command;
mod desk;
mod refusal;
mod reply;
mod tally;

pub use command::{Command, Rule, read_command};
pub use desk::{Desk, Site};
pub use refusal::Refusal;
pub use reply::Reply;
pub use tally::Tally;
