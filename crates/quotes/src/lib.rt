//! What a booking would be promised.
#![tactic(auto)]

ghost use Rattle.std.specs.Prelude.{◌≡◌};
ghost use Rattle.quotes.specs.Quotes.{quoted, figure_fault};

use roads::Roads;
use stowage::{BadFigure, Promise, Stowage};

/// Why nothing can be promised.
#[derive(Clone, Copy, PartialEq, Eq, Debug)]
pub enum QuoteFault {
    /// The first of the two that is no place.
    Place(u32),
    /// The position, from 1, of the first figure that is out of its range.
    Figure(u32),
}

impl From<BadFigure> for QuoteFault {
    ghost from_gives = { λ bad fault. fault ≡ figure_fault bad };

    fn from(bad: BadFigure) -> QuoteFault {
        QuoteFault::Figure(bad.position)
    }
}

/// What a booking with these figures would be promised, or the first fault of its places, then of its figures.
// Kept: the calls name places and figures one by one.
pub fn quote<R: Roads, S: Stowage>(
    roads: &R,
    rule: &S,
    from: u32,
    to: u32,
    figures: [u32; 6],
) -> Result<Promise, QuoteFault>
    ensures { result ≡ quoted (R.Roads.places roads.now) (R.Roads.trip roads.now) (S.Stowage.promise rule.now) from to figures }
{
    let Some(direct) = roads.seconds(from, to) else {
        let place = if from < roads.places() { to } else { from };
        return Err(QuoteFault::Place(place));
    };
    Ok(rule.promise(figures, direct)?)
}
