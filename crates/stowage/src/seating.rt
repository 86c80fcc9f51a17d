//! The hold of a passenger van.
ghost use Rattle.std.specs.Prelude.{T};
ghost use Rattle.stowage.specs.Limits.{seating_room};

/// Seats and wheelchairs taken.
// Kept: each rule has a hold of its own, since what they count and the form of their limits differ.
#[derive(Clone, Copy, PartialEq, Eq, Debug)]
pub struct Seating {
    pub seats: u32,
    pub wheelchairs: u32,
    ghost room: { T (seating_room seats wheelchairs) },
}
