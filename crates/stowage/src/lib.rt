//! Stowage rules: what fits into a van together, and what a booking may be promised.
#![tactic(auto)]

ghost use Rattle.std.specs.Prelude.{◌≡◌, ℕ, List, Option as Maybe, Result as Answer};
ghost use Rattle.stowage.specs.declared.BadFigure.{BadFigure as Bad};
ghost use Rattle.stowage.specs.declared.Load.{Load as Weight};
ghost use Rattle.stowage.specs.declared.Promise.{Promise as Promised};
ghost use Rattle.stowage.specs.Figures.{required};
ghost use Rattle.stowage.specs.Laws.{Exchange, Keeps};
ghost use Rattle.stowage.specs.Together.{StowsAll};

mod cargo;
mod parcels;
mod passengers;
mod seating;

pub use cargo::Cargo;
pub use parcels::Parcels;
pub use passengers::Passengers;
pub use seating::Seating;

/// The seconds of a week: no time window and no ride limit goes beyond.
pub const WEEK: u32 = 604_800;

/// No road takes longer than this; direct seconds above it count as this many.
pub const LONGEST_TRIP: u32 = 14_400;

/// What a booking brings aboard, as its rule reads the two numbers.
#[derive(Clone, Copy, PartialEq, Eq, Debug)]
pub struct Load {
    pub first: u16,
    pub second: u16,
}

/// A time window: a stop is served from its opening to its closing, both included.
#[derive(Clone, Copy, PartialEq, Eq, Debug)]
pub struct Window {
    pub opens: u32,
    pub closes: u32,
}

/// What a booking is promised.
#[derive(Clone, Copy, PartialEq, Eq, Debug)]
pub struct Promise {
    pub load: Load,
    pub pickup: Window,
    pub dropoff: Window,
    pub ride_limit: u32,
}

/// The first figure of a booking that is out of its range, by its position from 1.
#[derive(Clone, Copy, PartialEq, Eq, Debug)]
pub struct BadFigure {
    pub position: u32,
}

/// A stowage rule: its holds, and its promises.
pub trait Stowage {
    type Hold: Copy;

    ghost empty: { Self → Self.Hold };

    ghost stow: { Self → Self.Hold → Weight → Maybe Self.Hold };

    ghost promise: { Self → List ℕ → ℕ → Answer Promised Bad };

    /// A hold with nothing in it.
    fn empty(&self) -> Self::Hold
        ensures { result ≡ empty self.now };

    /// The hold with the load too, or none where it does not fit.
    fn stow(&self, hold: Self::Hold, load: Load) -> Option<Self::Hold>
        ensures { result ≡ stow self.now hold load };

    /// What a booking with these figures is promised, over so many direct road seconds.
    fn promise(&self, figures: [u32; 6], direct: u32) -> Result<Promise, BadFigure>
        ensures { result ≡ promise self.now figures direct };

    ghost exchange: { (s : Self) → Exchange (stow s) };

    ghost keeps: { (s : Self) → Keeps (promise s) };
}

/// Goes on where a check passes.
pub fn require<E: Drop>(passes: bool, error: E) -> Result<(), E>
    ensures { result ≡ required passes error }
{
    if passes { Ok(()) } else { Err(error) }
}

/// Goes on where the figure at this position is good.
fn require_figure(good: bool, position: u32) -> Result<(), BadFigure>
    ensures { result ≡ required good (record { position = position }) }
{
    require(good, BadFigure { position })
}

/// The hold with all the loads, if they fit together. No order of them fits to another end, and any part of what fits
/// together fits too.
pub fn stow_all<S: Stowage>(rule: &S, loads: &[Load]) -> Option<S::Hold>
    ensures { StowsAll (S.Stowage.stow rule.now) (S.Stowage.empty rule.now) loads.now result }
{
    let mut hold = rule.empty();
    // Kept: by `try_fold` the equation stayed open.
    for load in loads {
        hold = rule.stow(hold, *load)?;
    }
    Some(hold)
}
