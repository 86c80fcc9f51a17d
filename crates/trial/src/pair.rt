//! A van with bookings 7 and 8, alone in node memory.
ghost use Rattle.std.specs.Prelude.{◌≡◌, ◌≤◌, length};
ghost use Rattle.orders.specs.Bookings.{number_of};
ghost use Rattle.growth.specs.Positions.{compact, Sound};

use growth::{Fresh, Ground, Position, Slabs, prune, regrow};
use orders::{Booking, Journey, Node, Stop};
use roads::Roads;
use stowage::{Load, Stowage, Window};

/// The nodes of a slab for two open bookings.
const SIZE: usize = 18;

/// The nodes of two such slabs.
const NODES: usize = 36;

/// The van's slab, and the working slab behind it.
const SLABS: Slabs = Slabs {
    own: 0,
    work: SIZE,
    size: SIZE,
};

/// What is booked.
#[derive(Clone, Copy)]
pub struct Ride {
    pub pickup: Stop,
    pub dropoff: Stop,
    pub load: Load,
    pub ride_limit: u32,
}

/// A stop with its time window.
pub fn stop(place: u32, opens: u32, closes: u32) -> Stop {
    Stop {
        place,
        window: Window { opens, closes },
    }
}

fn journey(number: u32, ride: Ride) -> Journey
    ensures { result.number ≡ number }
{
    Journey {
        number,
        dropoff: ride.dropoff,
        load: ride.load,
        ride_limit: ride.ride_limit,
    }
}

pub fn waiting(number: u32, ride: Ride) -> Booking
    ensures { number_of result ≡ number }
{
    Booking::Waiting {
        pickup: ride.pickup,
        journey: journey(number, ride),
    }
}

fn aboard(number: u32, ride: Ride, since: u32) -> Booking
    ensures { number_of result ≡ number }
{
    Booking::Aboard {
        since,
        journey: journey(number, ride),
    }
}

/// The van at a place, where it is at a second and has driven as many, with these bookings.
fn van_at(place: u32, second: u32, bookings: [Option<Booking>; 4]) -> Position
    ensures { result ≡ record { place = place; second = second; driven = second; cost = 0; bookings = bookings } }
{
    Position {
        place,
        second,
        driven: second,
        cost: 0,
        bookings,
    }
}

/// A van's day with bookings 7 and 8, in memory of two slabs.
#[derive(Drop)]
pub struct Day<'a, R: Roads, S: Stowage> {
    ground: Ground<'a, R, S>,
    seven: Ride,
    eight: Ride,
    nodes: [Node; NODES],
}

impl<'a, R: Roads, S: Stowage> Day<'a, R, S> {
    /// The day before any booking.
    pub fn new(ground: Ground<'a, R, S>, seven: Ride, eight: Ride) -> Day<'a, R, S> {
        Day {
            ground,
            seven,
            eight,
            nodes: [Node::BLANK; NODES],
        }
    }

    /// The van's slab.
    pub fn slab(&self) -> &[Node] {
        &self.nodes[..SIZE]
    }

    /// The slab gets the tree of a position with at most two bookings.
    fn regrow(&mut self, position: Position, fresh: Fresh) -> usize
        requires sound { Sound position }
        requires few { length (compact position.bookings) ≤ 2 }
    {
        regrow(self.ground, &mut self.nodes, SLABS, position, fresh)
    }

    /// Booking 7 comes to the van at place 0.
    pub fn first(&mut self) -> usize {
        let position = van_at(0, 0, [Some(waiting(7, self.seven)), None, None, None]);
        self.regrow(position, Fresh::Only(7))
    }

    /// Booking 8 comes too.
    pub fn second(&mut self) -> usize {
        let bookings = [
            Some(waiting(7, self.seven)),
            Some(waiting(8, self.eight)),
            None,
            None,
        ];
        self.regrow(van_at(0, 0, bookings), Fresh::Only(8))
    }

    /// The van comes to the pickup of 7, 100 seconds away.
    pub fn bound(&mut self) -> usize {
        let bookings = [
            Some(waiting(7, self.seven)),
            Some(waiting(8, self.eight)),
            None,
            None,
        ];
        let position = van_at(self.seven.pickup.place, 100, bookings);
        self.regrow(position, Fresh::Nobody)
    }

    /// Booking 7 is picked up there, on time: the slab gets what stood below its pickup.
    pub fn picked_up(&mut self) -> usize {
        let bookings = [
            Some(aboard(7, self.seven, 100)),
            Some(waiting(8, self.eight)),
            None,
            None,
        ];
        let position = van_at(self.seven.pickup.place, 100, bookings);
        prune(self.ground, &mut self.nodes, SLABS, position, 7)
    }

    /// Booking 8 is cancelled: the tree grows anew.
    pub fn cancelled(&mut self) -> usize {
        let bookings = [Some(aboard(7, self.seven, 100)), None, None, None];
        let position = van_at(self.seven.pickup.place, 100, bookings);
        self.regrow(position, Fresh::Everybody)
    }
}
