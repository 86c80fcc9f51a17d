//! The road seconds from place to place.
#![tactic(auto)]

ghost use Rattle.std.specs.Prelude.{◌≡◌, ℕ};
ghost use Rattle.roads.specs.Roads.{Lawful, between};
ghost use Rattle.roads.specs.Faults.{fault_number, fault_detail};

mod any;
mod grid;
mod table;

pub use any::AnyRoads;
pub use grid::Grid;
pub use table::RoadTable;

/// The most places that roads may have.
const MOST_PLACES: u32 = 64;

/// Roads between places that are numbered from 0.
pub trait Roads {
    // How many places there are.
    ghost places: { Self → ℕ };

    // The seconds from one place to another; only places below `places` count.
    ghost trip: { Self → ℕ → ℕ → ℕ };

    /// How many places there are.
    fn places(&self) -> u32
        ensures { result ≡ places self.now };

    /// The seconds of the trip, or `None` where either is no place.
    fn seconds(&self, from: u32, to: u32) -> Option<u32>
        ensures { result ≡ between (places self.now) (trip self.now) from to };

    // 1 to 64 places, no trip above four hours, no time from a place to itself, and no way
    // round that is shorter than the trip.
    ghost lawful: { (r : Self) → Lawful (places r) (trip r) };
}

/// Why roads are refused.
#[derive(Clone, Copy, PartialEq, Eq, Debug)]
pub enum RoadFault {
    /// The number of places, or of entries, is wrong.
    Size,
    /// An entry of a table is too long a trip, or leads from a place to itself and is not 0.
    Entry { position: u32 },
    /// The seconds of a step east are out of range.
    East,
    /// The seconds of a step south are out of range.
    South,
    /// The way through `via` is shorter than the trip.
    Detour { from: u8, via: u8, to: u8 },
}

impl RoadFault {
    /// The kind of the refusal.
    pub fn number(self) -> u32
        ensures { result ≡ fault_number self }
    {
        match self {
            RoadFault::Size => 4,
            RoadFault::Entry { .. } | RoadFault::East | RoadFault::South => 5,
            RoadFault::Detour { .. } => 6,
        }
    }

    /// Where the fault is: the position of an entry, 1 for a step east and 2 for one south, or
    /// the three places as digits in base 64.
    pub fn detail(self) -> u32
        ensures { result ≡ fault_detail self }
    {
        match self {
            RoadFault::Size => 0,
            RoadFault::Entry { position } => position,
            RoadFault::East => 1,
            RoadFault::South => 2,
            RoadFault::Detour { from, via, to } => {
                u32::from(from) * 4096 + u32::from(via) * 64 + u32::from(to)
            }
        }
    }
}
