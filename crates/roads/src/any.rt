//! Roads whose kind is chosen as the program runs.
ghost use Rattle.roads.specs.AnyOf.{any_places, any_seconds};
ghost use Rattle.roads.specs.declared.any.AnyRoads.TheVariants.{Table, Grid};
ghost use Rattle.roads.specs.Laws.{lawful_grid, lawful_table};

use crate::{Grid, RoadTable, Roads};

/// A table or a grid.
#[derive(Drop)]
pub enum AnyRoads {
    Table(RoadTable),
    Grid(Grid),
}

impl Roads for AnyRoads {
    ghost places = { any_places };

    ghost trip = { any_seconds };

    ghost lawful = { elim [ Table t ↦ lawful_table t | Grid g ↦ lawful_grid g ] };

    fn places(&self) -> u32 {
        match self {
            AnyRoads::Table(table) => table.places(),
            AnyRoads::Grid(grid) => grid.places(),
        }
    }

    fn seconds(&self, from: u32, to: u32) -> Option<u32> {
        match self {
            AnyRoads::Table(table) => table.seconds(from, to),
            AnyRoads::Grid(grid) => grid.seconds(from, to),
        }
    }
}
