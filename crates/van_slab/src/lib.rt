//! The slabs that hold the vans' trees: how large they are, and which orders stand in one.
#![tactic(auto)]

ghost use Rattle.std.specs.Prelude.{◌≡◌, Decides};
ghost use Rattle.std.specs.Cmp.{IsEquivalence, partial_equiv_from_equiv};
ghost use Rattle.orders.specs.Rules.{rules};
ghost use Rattle.van_slab.specs.Equality.{same_itinerary};
ghost use Rattle.van_slab.specs.EqualityLemmas.{same_itinerary_laws};
ghost use Rattle.van_slab.specs.Trails.{visit_of, kind_told};
ghost use Rattle.van_slab.specs.Laws.{ExactReading, BoundedReading};

use orders::{Node, StopKind};
use roads::Roads;
use stowage::Stowage;

mod limit;
mod reading;
mod trail;

pub use limit::OpenLimit;
pub use reading::{cheapest_order, order_at};

/// The most stops of an order.
const MOST_STOPS: usize = 8;

/// A stop of an itinerary: its booking, 0 for a pickup or 1 for a drop-off, and its second of service.
#[derive(Clone, Copy, PartialEq, Eq, Debug)]
pub struct Visit {
    pub booking: u32,
    // Kept: node memory may hold anything, and a visit tells what its node says.
    pub kind: u32,
    pub second: u32,
}

impl Visit {
    /// A visit that is not used.
    pub const UNUSED: Visit = Visit {
        booking: 0,
        kind: 0,
        second: 0,
    };

    /// The kind of the stop, as its number tells it: what is not 0 is a drop-off.
    pub fn stop_kind(self) -> StopKind
        ensures { result ≡ kind_told self.kind }
    {
        if self.kind == 0 {
            StopKind::Pickup
        } else {
            StopKind::DropOff
        }
    }
}

/// What a node tells of its stop.
impl From<Node> for Visit {
    ghost from_gives = { λ node visit. visit ≡ visit_of node };

    fn from(node: Node) -> Visit {
        Visit {
            booking: node.booking,
            kind: node.kind,
            second: node.second,
        }
    }
}

/// An order as a van drives it: its cost, how many stops it has, and these in turn; visits that are not used are all zeros.
#[derive(Clone, Copy, Debug)]
pub struct Itinerary {
    pub cost: u32,
    // Kept: a small plain array passed by value, so that an answer is `Copy`.
    pub stops: u32,
    pub visits: [Visit; MOST_STOPS],
}

/// Itineraries are equal where all their parts are.
// Kept: not derived, since who calls a derived `==` is not told that it decides equality.
impl PartialEq for Itinerary {
    ghost eq = { same_itinerary };

    ghost laws = { partial_equiv_from_equiv same_itinerary_laws };

    fn eq(&self, other: &Itinerary) -> bool
        ensures test { result ≡ same_itinerary self.now other.now }
        ensures decides { Decides result (self.now ≡ other.now) }
    {
        if self.cost != other.cost || self.stops != other.stops {
            return false;
        }
        self.visits == other.visits
    }
}

impl Eq for Itinerary {
    ghost laws = { same_itinerary_laws };
}

/// Whether two itineraries tell the same: all their parts are equal. The test is an equivalence.
#[tactic(auto, using(crate::specs::EqualityLemmas::same_itinerary_laws))]
pub fn is_same(itinerary: &Itinerary, other: &Itinerary) -> bool
    ensures test { result ≡ same_itinerary itinerary.now other.now }
    ensures decides { Decides result (itinerary.now ≡ other.now) }
    ensures laws { IsEquivalence same_itinerary }
{
    *itinerary == *other
}

/// A slab that holds the tree of a van with one to four open bookings lists just the van's valid orders, and each as it is
/// driven: the cheapest is the van's plan, and the one at an index the valid order there.
pub fn reading_is_exact<R: Roads, S: Stowage>(roads: &R, rule: &S)
    ensures { ExactReading (rules R.Roads S.Stowage roads.now rule.now) }
{}

/// Whatever the nodes of a slab hold, an itinerary that is read from it has one to eight stops.
pub fn reading_is_bounded()
    ensures { BoundedReading }
{}
