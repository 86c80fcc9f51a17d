//! How a grid is made, and its roads.
ghost use Rattle.std.specs.Prelude.{◌≡◌, Some, MatchResult};
ghost use Rattle.roads.specs.GridOf.{GridOf, grid_places, grid_seconds};
ghost use Rattle.roads.specs.Grids.{grid_fault};
ghost use Rattle.roads.specs.Laws.{lawful_grid};

use super::Grid;
use crate::{MOST_PLACES, RoadFault, Roads};

/// The most seconds that a step may take.
const LONGEST_STEP: u32 = 200;

impl Grid {
    /// A grid of `columns` by `rows` places, 1 to 64 in all, where a step east takes `east`
    /// seconds and a step south `south`, each 1 to 200. Refused with the first that is not so.
    pub fn new(columns: u32, rows: u32, east: u32, south: u32) -> Result<Grid, RoadFault>
        ensures { MatchResult result (GridOf columns rows east south) (λ f. grid_fault columns rows east south ≡ Some f) }
    {
        let Some(1..=MOST_PLACES) = columns.checked_mul(rows) else {
            return Err(RoadFault::Size);
        };
        if !matches!(east, 1..=LONGEST_STEP) {
            return Err(RoadFault::East);
        }
        if !matches!(south, 1..=LONGEST_STEP) {
            return Err(RoadFault::South);
        }
        Ok(Grid {
            columns,
            rows,
            east,
            south,
        })
    }
}

impl Roads for Grid {
    ghost places = { grid_places };

    ghost trip = { grid_seconds };

    ghost lawful = { lawful_grid };

    fn places(&self) -> u32 {
        self.columns * self.rows
    }

    fn seconds(&self, from: u32, to: u32) -> Option<u32> {
        let places = self.places();
        (from < places && to < places).then(|| {
            let columns = (from % self.columns).abs_diff(to % self.columns);
            let rows = (from / self.columns).abs_diff(to / self.columns);
            self.east * columns + self.south * rows
        })
    }
}
