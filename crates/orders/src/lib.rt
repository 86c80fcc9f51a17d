//! The valid orders of a van's open stops and the kinetic tree that holds them: what they are, in specs/, and the laws
//! that everything above rests on, each named by the contract of a function.
#![tactic(auto)]

ghost use Rattle.std.specs.Prelude.{◌≡◌};
ghost use Rattle.orders.specs.Bookings.{number_of, next_stop, kind_of, kind_number};
ghost use Rattle.orders.specs.Rules.{rules};
ghost use Rattle.orders.specs.Laws.{ExactOrders, ExactNodes, ExactSeconds, Thins, Moves, Guides, FitsSlab, FillsSlab, Numbers, Determined, OneWinner};

use roads::Roads;
use stowage::{Load, Stowage, Window};

/// A stop: its place, and the time window in which it is served.
#[derive(Clone, Copy, PartialEq, Eq, Debug)]
pub struct Stop {
    pub place: u32,
    pub window: Window,
}

/// Whether a booking is picked up at a stop, or dropped off.
#[derive(Clone, Copy, PartialEq, Eq, Debug)]
pub enum StopKind {
    Pickup,
    DropOff,
}

impl StopKind {
    /// The number by which node memory tells the kind: 0 for a pickup, 1 for a drop-off.
    pub fn number(self) -> u32
        ensures { result ≡ kind_number self }
    {
        match self {
            StopKind::Pickup => 0,
            StopKind::DropOff => 1,
        }
    }
}

/// What a booking asks for from its pickup on: its drop-off, its load, and the most seconds that its ride may take.
#[derive(Clone, Copy, PartialEq, Eq, Debug)]
pub struct Journey {
    pub number: u32,
    pub dropoff: Stop,
    pub load: Load,
    pub ride_limit: u32,
}

/// An open booking waits for its pickup, or is aboard since the van had driven so many seconds.
#[derive(Clone, Copy, PartialEq, Eq, Debug)]
pub enum Booking {
    Waiting { pickup: Stop, journey: Journey },
    Aboard { since: u32, journey: Journey },
}

impl Booking {
    /// The booking's number.
    pub fn number(self) -> u32
        ensures { result ≡ number_of self }
    {
        match self {
            Booking::Waiting { journey, .. } | Booking::Aboard { journey, .. } => journey.number,
        }
    }

    /// The kind of the booking's next stop.
    pub fn kind(self) -> StopKind
        ensures { result ≡ kind_of self }
    {
        match self {
            Booking::Waiting { .. } => StopKind::Pickup,
            Booking::Aboard { .. } => StopKind::DropOff,
        }
    }

    /// The booking's next stop: its pickup while it waits, its drop-off once it is aboard.
    pub fn next_stop(self) -> Stop
        ensures { result ≡ next_stop self }
    {
        match self {
            Booking::Waiting { pickup, .. } => pickup,
            Booking::Aboard { journey, .. } => journey.dropoff,
        }
    }
}

/// A stop in a tree: its booking, 0 for a pickup or 1 for a drop-off, its depth from 1, the number of nodes that are it
/// or stand below it, its second of service and the cost so far. A blank node is all zeros.
#[derive(Clone, Copy, PartialEq, Eq, Default, Debug)]
pub struct Node {
    pub booking: u32,
    // Kept: node memory may hold anything, so the kind is a number.
    pub kind: u32,
    pub depth: u32,
    pub span: u32,
    pub second: u32,
    pub cost: u32,
}

impl Node {
    /// A node that is not used.
    pub const BLANK: Node = Node {
        booking: 0,
        kind: 0,
        depth: 0,
        span: 0,
        second: 0,
        cost: 0,
    };
}

/// The tree's nodes list exactly the valid orders, each once and ascending, and there is one node for each beginning of a
/// valid order, with the second of service and the cost of the walk to it, spanning itself and all below it.
pub fn exactness<R: Roads, S: Stowage>(roads: &R, rule: &S)
    ensures orders { ExactOrders (rules R.Roads S.Stowage roads.now rule.now) }
    ensures nodes { ExactNodes (rules R.Roads S.Stowage roads.now rule.now) }
    ensures seconds { ExactSeconds (rules R.Roads S.Stowage roads.now rule.now) }
{}

/// An order that is valid with one more booking is valid without that booking's stops, and costs no more; so a price is
/// never below 0, and a van without a valid order has none with another booking either.
pub fn thinning<R: Roads, S: Stowage>(roads: &R, rule: &S)
    ensures { Thins (rules R.Roads S.Stowage roads.now rule.now) }
{}

/// The clock and `bound` let no order in, and a stop served on time and within its limit leaves just the tails of the
/// orders that began with it.
pub fn moves_let_no_order_in<R: Roads, S: Stowage>(roads: &R, rule: &S)
    ensures { Moves (rules R.Roads S.Stowage roads.now rule.now) }
{}

/// Along the old tree the same tree grows as anew: for one more booking, and for none after a move.
pub fn guided_growth<R: Roads, S: Stowage>(roads: &R, rule: &S)
    ensures { Guides (rules R.Roads S.Stowage roads.now rule.now) }
{}

/// With at most four open bookings the tree fits into the slab of as many.
pub fn slab_suffices<R: Roads, S: Stowage>(roads: &R, rule: &S)
    ensures { FitsSlab (rules R.Roads S.Stowage roads.now rule.now) }
{}

/// Some tree fills each slab.
pub fn slab_is_filled()
    ensures { FillsSlab }
{}

/// Along a walk of at most eight stops from a van in range, valid or not, all numbers fit into 32 bits.
pub fn numbers_fit<R: Roads, S: Stowage>(roads: &R, rule: &S)
    ensures { Numbers (rules R.Roads S.Stowage roads.now rule.now) }
{}

/// A van has one plan at most, the first cheapest order that its tree lists, and a booking has one price on it.
pub fn plan_and_price_are_determined<R: Roads, S: Stowage>(roads: &R, rule: &S)
    ensures { Determined (rules R.Roads S.Stowage roads.now rule.now) }
{}

/// Among offers there is one winner at most.
pub fn winner_is_determined()
    ensures { OneWinner }
{}
