//! How many bookings a van may have open at once.
ghost use Rattle.std.specs.Prelude.{◌≤◌};

mod sizes;

/// An open limit of 1 to 4 bookings.
#[derive(Clone, Copy, PartialEq, Eq, Debug)]
pub struct OpenLimit {
    value: u8,
    ghost within: { (1 ≤ value) × (value ≤ 4) },
}
