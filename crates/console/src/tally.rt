//! The calls of a day, counted.
ghost use Rattle.std.specs.Prelude.{◌≡◌, Some};
ghost use Rattle.console.specs.Tallies.{no_calls, counted, tally_text};

use std::fmt;

/// The calls of a day, counted; no count goes beyond 64 bits.
#[derive(Clone, Copy, Default, PartialEq, Eq, Debug)]
pub struct Tally {
    pub calls: u64,
    pub accepted: u64,
    pub refused: u64,
    /// Calls that office and depot answered alike.
    pub alike: u64,
}

impl Tally {
    /// No call yet.
    pub fn new() -> Tally
        ensures { result ≡ no_calls }
    {
        Tally::default()
    }

    /// One more call, accepted or refused.
    pub fn count(&mut self, accepted: bool)
        ensures { self.new ≡ counted accepted self.old }
    {
        self.calls = self.calls.saturating_add(1);
        if accepted {
            self.accepted = self.accepted.saturating_add(1);
        } else {
            self.refused = self.refused.saturating_add(1);
        }
    }
}

impl fmt::Display for Tally {
    ghost output = { λ t. Some (tally_text t) };

    fn fmt<W: fmt::Write>(&self, f: &mut fmt::Formatter<W>) -> fmt::Result {
        write!(
            f,
            "{} calls: {} accepted, {} refused; office and depot alike on {}",
            self.calls, self.accepted, self.refused, self.alike
        )
    }
}
