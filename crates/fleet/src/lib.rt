//! The present state of a fleet of vans, the calls on it and their checks, and what an accepted call changes.
#![tactic(auto)]

mod booking;
mod call;
mod quote;
mod refusal;
mod serving;
mod slots;
mod state;

pub use call::{Answer, Booked, Call, Offer, Report};
pub use refusal::Refusal;
pub use slots::{Slots, find_booking, insert_booking, remove_booking, serve_booking};
pub use state::{State, Van, holder};
