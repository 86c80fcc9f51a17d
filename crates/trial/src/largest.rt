//! The largest tree: four bookings that may be served in any order, and roads that show each question.
ghost use Rattle.std.specs.Prelude.{◌≡◌, ◌≤◌, length};
ghost use Rattle.growth.specs.Positions.{compact, Sound};
ghost use Rattle.std.proofs.Common.{rules};

use crate::pair::{Ride, stop, waiting};
use growth::{Fresh, Ground, Position, Slabs, Tally, regrow, survey};
use orders::Node;
use roads::Roads;
use stowage::{Load, Parcels};

/// The nodes of a slab for four open bookings.
pub const SIZE: usize = 7_364;

/// The van's slab and the working slab behind it.
const SLABS: Slabs = Slabs {
    own: 0,
    work: SIZE,
    size: SIZE,
};

/// Roads of one place, which print a dot whenever they are asked.
#[derive(Drop)]
pub struct DottedRoads {
    pub rt: HostRuntime,
}

impl Roads for DottedRoads {
    ghost places = { λ _. 1 };

    ghost trip = { λ _ _ _. 0 };

    ghost lawful = { Prim.search rules };

    fn places(&self) -> u32 {
        1
    }

    fn seconds(&self, from: u32, to: u32) -> Option<u32> {
        let _ = self.rt.print(".");
        if from < 1 && to < 1 { Some(0) } else { None }
    }
}

/// A parcel that may be taken at any time.
fn any_time() -> Ride {
    Ride {
        pickup: stop(0, 0, 604_800),
        dropoff: stop(0, 0, 604_800),
        load: Load {
            first: 1,
            second: 1,
        },
        ride_limit: 604_800,
    }
}

/// The van at the one place with the first so many of four bookings.
fn position(count: u32) -> Position
    requires { count ≤ 4 }
    ensures sound { Sound result }
    ensures few { length (compact result.bookings) ≤ 4 }
{
    let ride = any_time();
    let fourth = (count == 4).then(|| waiting(4, ride));
    Position {
        place: 0,
        second: 0,
        driven: 0,
        cost: 0,
        bookings: [
            Some(waiting(1, ride)),
            Some(waiting(2, ride)),
            Some(waiting(3, ride)),
            fourth,
        ],
    }
}

/// The slab gets the tree of three bookings, grown anew.
pub fn grow_three(ground: Ground<DottedRoads, Parcels>, nodes: &mut [Node]) -> usize
    requires { length nodes.old ≡ 14728 }
{
    regrow(ground, nodes, SLABS, position(3), Fresh::Everybody)
}

/// The tally of the tree with the fourth booking, guided by the slab.
pub fn survey_four(ground: Ground<DottedRoads, Parcels>, nodes: &[Node]) -> Tally
    requires { length nodes.now ≡ 14728 }
{
    survey(ground, nodes, SLABS, position(4), Fresh::Only(4))
}
