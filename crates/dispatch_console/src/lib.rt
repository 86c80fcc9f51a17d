//! The console of a dispatcher's day: what a line asks for beside what a day without one knows, and what it is answered.
#![tactic(auto)]

mod command;
mod desk;
mod not_begun;
mod reply;
mod session;
mod word;

pub use command::{Command, Size, read_command};
pub use desk::{Desk, Site, Step};
pub use not_begun::NotBegun;
pub use reply::Reply;
pub use session::Session;
