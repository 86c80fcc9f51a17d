//! A grid of streets.
ghost use Rattle.std.specs.Prelude.{◌*◌, ◌≤◌};

mod build;

/// Places in rows, numbered row * columns + column, with equal steps east and equal steps south.
#[derive(Clone, Copy)]
pub struct Grid {
    columns: u32,
    rows: u32,
    east: u32,
    south: u32,
    ghost few: { (1 ≤ columns * rows) × (columns * rows ≤ 64) },
    ghost east_step: { (1 ≤ east) × (east ≤ 200) },
    ghost south_step: { (1 ≤ south) × (south ≤ 200) },
}
