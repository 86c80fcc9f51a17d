//! A table of trips.
ghost use Rattle.std.specs.Prelude.{◌≡◌, ℕ, ◌+◌, ◌*◌, ◌<◌, ◌≤◌, vec_len};
ghost use Rattle.roads.specs.Tables.{table_trip};

mod build;
mod square;

/// The seconds from each place to each, row by row.
#[derive(Drop)]
pub struct RoadTable {
    places: u32,
    seconds: Vec<u32>,
    ghost few: { (1 ≤ places) × (places ≤ 64) },
    ghost full: { vec_len seconds ≡ places * places },
    ghost short: { (a b : ℕ) → (a < places) × (b < places) → table_trip places seconds.items a b ≤ 14400 },
    ghost here: { (a : ℕ) → a < places → table_trip places seconds.items a a ≡ 0 },
    ghost direct: { (a b c : ℕ) → (a < places) × (b < places) × (c < places) → table_trip places seconds.items a c ≤ table_trip places seconds.items a b + table_trip places seconds.items b c },
}
