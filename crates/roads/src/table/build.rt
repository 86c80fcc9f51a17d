//! How a table is made, and its roads.
ghost use Rattle.std.specs.Prelude.{◌≡◌, MatchResult};
ghost use Rattle.roads.specs.TableFaults.{Refuses, OneFault, NoFault};
ghost use Rattle.roads.specs.TableOf.{TableOf, table_places, table_entries, table_seconds};
ghost use Rattle.std.proofs.Common.{rules, arith};

use super::RoadTable;
use super::square::{SquareTable, check_table};
use crate::{RoadFault, Roads};

impl RoadTable {
    /// The table of `seconds`, the entries from each of 1 to 64 places to each, row by row.
    /// Refused with the first fault of its size, else of an entry, else of a detour.
    #[tactic(auto, using(crate::proofs::TableFaults::no_fault))]
    pub fn new(places: u32, seconds: Vec<u32>) -> Result<RoadTable, RoadFault>
        ensures made { MatchResult result (TableOf places seconds.items) (Refuses places seconds.items) }
        ensures one_fault { OneFault places seconds.items }
        ensures no_fault { NoFault places seconds.items }
    {
        check_table(places, &seconds)?;
        Ok(RoadTable { places, seconds })
    }

    /// The table as it was checked.
    fn square(&self) -> SquareTable<'_>
        ensures places { result.places ≡ table_places self.now }
        ensures seconds { result.seconds.now ≡ table_entries self.now }
    {
        SquareTable {
            places: self.places,
            seconds: &self.seconds,
        }
    }
}

impl Roads for RoadTable {
    ghost places = { table_places };

    ghost trip = { table_seconds };

    ghost lawful = { first_of (Prim.search rules, Prim.grind (arith, Self.row.coded.inj)) };

    fn places(&self) -> u32 {
        self.places
    }

    fn seconds(&self, from: u32, to: u32) -> Option<u32> {
        (from < self.places && to < self.places).then(|| self.square().trip(from, to))
    }
}
