//! The kinetic tree in node memory: it is grown, pruned and surveyed where it is stored, by one text for all roads and
//! stowage rules.
#![tactic(auto)]

use roads::Roads;
use stowage::Stowage;

mod grow;
mod guide;
mod memory;
mod tally;
mod walk;

pub use guide::Fresh;
pub use memory::{Slabs, clear, prune, regrow, slabs_of};
pub use tally::{Tally, survey};
pub use walk::{Position, departure, fits};

/// Roads and a stowage rule, lent together.
#[derive_where(Clone, Copy)]
pub struct Ground<'a, R, S> {
    pub roads: &'a R,
    pub rule: &'a S,
}
