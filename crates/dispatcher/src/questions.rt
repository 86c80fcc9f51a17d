//! The questions: the plan of a van, and the order at an index, read from its slab.
ghost use Rattle.std.specs.Prelude.{◌≡◌, length};
ghost use Rattle.growth.specs.Grounds.{rules_of};
ghost use Rattle.fleet.specs.States.{open_bookings};
ghost use Rattle.outcomes.specs.Settled.{Settled};
ghost use Rattle.outcomes.specs.Offers.{idle as idle_order, plan_in, order_in};
ghost use Rattle.outcomes.specs.Outcomes.{with_nodes, plan_call, order_call, plan_read, order_read};

use crate::Dispatcher;
use fleet::{Refusal, Van};
use orders::Node;
use roads::Roads;
use stowage::Stowage;
use van_slab::{Itinerary, Visit, cheapest_order, order_at};

/// The order of a van with nothing open.
const IDLE: Itinerary = Itinerary {
    cost: 0,
    stops: 0,
    visits: [Visit::UNUSED; 8],
};

/// The plan of a van, as its slab tells it.
pub(crate) fn plan_in(van: Van, slab: &[Node]) -> Option<Itinerary>
    ensures { result ≡ plan_in (open_bookings van) slab.now }
{
    if van.open_count() == 0 {
        Some(IDLE)
    } else {
        cheapest_order(slab)
    }
}

/// The order of a van at an index, as its slab tells it.
fn order_in(van: Van, slab: &[Node], index: u32) -> Option<Itinerary>
    ensures { result ≡ order_in (open_bookings van) slab.now index }
{
    if van.open_count() > 0 {
        order_at(slab, index)
    } else {
        (index == 0).then_some(IDLE)
    }
}

impl<'a, R: Roads, S: Stowage> Dispatcher<'a, R, S> {
    /// The plan of a van: its valid order of least cost, the first among equals.
    pub fn plan(&self, nodes: &[Node], van: u32) -> Result<Itinerary, Refusal>
        ensures read { result ≡ with_nodes self.now.state (length nodes.now) (plan_read self.now.state nodes.now van) }
        ensures settled { Settled (rules_of R.Roads S.Stowage self.now.ground) self.now.state nodes.now → result ≡ plan_call (rules_of R.Roads S.Stowage self.now.ground) self.now.state van }
    {
        self.require_nodes(nodes)?;
        let w = self.state.on_duty(van)?;
        plan_in(w, self.slab(nodes, van)).ok_or(Refusal::NoOrder)
    }

    /// The valid order of a van at an index from 0, ascending.
    pub fn order(&self, nodes: &[Node], van: u32, index: u32) -> Result<Itinerary, Refusal>
        ensures read { result ≡ with_nodes self.now.state (length nodes.now) (order_read self.now.state nodes.now van index) }
        ensures settled { Settled (rules_of R.Roads S.Stowage self.now.ground) self.now.state nodes.now → result ≡ order_call (rules_of R.Roads S.Stowage self.now.ground) self.now.state van index }
    {
        self.require_nodes(nodes)?;
        let w = self.state.on_duty(van)?;
        order_in(w, self.slab(nodes, van), index).ok_or(Refusal::NoOrder)
    }
}
