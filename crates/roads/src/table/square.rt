//! The checks of a table of trips, and the first fault that they find.
ghost use Rattle.std.specs.Prelude.{◌≡◌, ◌<◌, length, MatchResult};
ghost use Rattle.roads.specs.Tables.{Square, LawfulTable, NoneBad, bad_entry, shortcut, table_trip};
ghost use Rattle.roads.specs.TableFaults.{Refuses};

use crate::{MOST_PLACES, RoadFault};

/// The most seconds that a trip may take.
// Kept: stowage rules have this number too, and neither crate knows the other.
const LONGEST_TRIP: u32 = 14_400;

/// A table of 1 to 64 places, with the seconds from each to each, row by row.
#[derive(Clone, Copy)]
pub(super) struct SquareTable<'a> {
    pub(super) places: u32,
    pub(super) seconds: &'a [u32],
    ghost square: { Square places seconds.now },
}

impl<'a> SquareTable<'a> {
    /// The table of these entries; refused where there are not 1 to 64 places, and an entry from each to each.
    fn new(places: u32, seconds: &'a [u32]) -> Result<SquareTable<'a>, RoadFault>
        ensures { MatchResult result (λ t. (t.places ≡ places) × (t.seconds.now ≡ seconds.now)) (Refuses places seconds.now) }
    {
        if matches!(places, 1..=MOST_PLACES) && seconds.len() == (places * places) as usize {
            Ok(SquareTable { places, seconds })
        } else {
            Err(RoadFault::Size)
        }
    }

    /// The seconds from one place to another.
    pub(super) fn trip(self, from: u32, to: u32) -> u32
        requires from_within { from < self.places }
        requires to_within { to < self.places }
        ensures { result ≡ table_trip self.entry.places self.entry.seconds.now from to }
    {
        self.seconds[from as usize * self.places as usize + to as usize]
    }

    /// Whether the seconds at a position are too many for a trip, or lead from a place to itself and are not 0.
    fn is_bad_entry(self, position: usize, seconds: u32) -> bool
        ensures { result ≡ bad_entry self.entry.places position seconds }
    {
        let places = self.places as usize;
        let stays = position / places == position % places;
        seconds > LONGEST_TRIP || (stays && seconds > 0)
    }

    /// Refuses the first bad entry.
    fn check_entries(self) -> Result<(), RoadFault>
        ensures { MatchResult result (λ _. NoneBad self.entry.places self.entry.seconds.now (length self.entry.seconds.now)) (Refuses self.entry.places self.entry.seconds.now) }
    {
        for (position, entry) in self.seconds.iter().enumerate() {
            if self.is_bad_entry(position, *entry) {
                let position = position as u32;
                return Err(RoadFault::Entry { position });
            }
        }
        Ok(())
    }

    /// Whether the way through `via` is shorter than the trip.
    fn is_shortcut(self, from: u32, via: u32, to: u32) -> bool
        requires none_bad { NoneBad self.places self.seconds.now (length self.seconds.now) }
        requires from_within { from < self.places }
        requires via_within { via < self.places }
        requires to_within { to < self.places }
        ensures { result ≡ shortcut (table_trip self.entry.places self.entry.seconds.now) from via to }
    {
        self.trip(from, via) + self.trip(via, to) < self.trip(from, to)
    }

    /// Refuses the first shortcut, by `from`, then `via`, then `to`, of a table with no bad entry.
    #[tactic(auto, using(crate::proofs::Tables::all_lawful))]
    fn check_detours(self) -> Result<(), RoadFault>
        requires { NoneBad self.places self.seconds.now (length self.seconds.now) }
        ensures { MatchResult result (λ _. LawfulTable self.entry.places self.entry.seconds.now) (Refuses self.entry.places self.entry.seconds.now) }
    {
        let mut detour = Ok(());
        // Kept: three loops left from the innermost by a label, so that the triple at which they stop is the one that is told.
        'triples: for from in 0..self.places {
            for via in 0..self.places {
                for to in 0..self.places {
                    if self.is_shortcut(from, via, to) {
                        detour = Err(RoadFault::Detour {
                            from: from as u8,
                            via: via as u8,
                            to: to as u8,
                        });
                        break 'triples;
                    }
                }
            }
        }
        detour
    }
}

/// Refuses a table that is not lawful with its first fault: of its size, else of an entry, else of a detour.
pub(super) fn check_table(places: u32, seconds: &[u32]) -> Result<(), RoadFault>
    ensures { MatchResult result (λ _. LawfulTable places seconds.now) (Refuses places seconds.now) }
{
    let table = SquareTable::new(places, seconds)?;
    table.check_entries()?;
    table.check_detours()
}
