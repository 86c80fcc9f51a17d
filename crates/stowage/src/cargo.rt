//! The hold of a parcel van.
ghost use Rattle.std.specs.Prelude.{T};
ghost use Rattle.stowage.specs.Limits.{cargo_room};

/// Litres and kilograms aboard.
// Kept: each rule has a hold of its own, since what they count and the form of their limits differ.
#[derive(Clone, Copy, PartialEq, Eq, Debug)]
pub struct Cargo {
    pub litres: u32,
    pub kilograms: u32,
    ghost room: { T (cargo_room litres kilograms) },
}
