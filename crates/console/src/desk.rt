//! The desk at which a day is set up.
ghost use Rattle.std.specs.Prelude.{◌≡◌};
ghost use Rattle.std.specs.Option.{option_map};
ghost use Rattle.console.specs.Desks.{laid, setting, unset, standing, stands, Obeys, quoted_there};
ghost use Rattle.console.specs.Meaning.{meaning};
ghost use Rattle.console.specs.Replies.{or_refused};

use crate::{Command, Refusal, Reply, Rule};
use quotes::{QuoteFault, quote};
use roads::{AnyRoads, Grid, RoadTable};
use stowage::{Parcels, Passengers, Promise};

/// The roads and the rule that stand, as far as they were given.
#[derive(Default, Drop)]
pub struct Desk {
    roads: Option<AnyRoads>,
    rule: Option<Rule>,
}

/// Roads and a rule that stand.
#[derive(Clone, Copy)]
pub struct Site<'a> {
    pub roads: &'a AnyRoads,
    pub rule: Rule,
}

impl Site<'_> {
    /// What a booking would be promised here.
    pub fn quote(self, from: u32, to: u32, figures: [u32; 6]) -> Result<Promise, QuoteFault>
        ensures { result ≡ quoted_there (standing self.entry) from to figures }
    {
        // Kept: each rule has a type of hold of its own, so that no `dyn` stands for both.
        match self.rule {
            Rule::Passengers => quote(self.roads, &Passengers, from, to, figures),
            Rule::Parcels => quote(self.roads, &Parcels, from, to, figures),
        }
    }
}

impl Desk {
    /// A desk with nothing on it.
    pub fn new() -> Desk
        ensures { setting result ≡ unset }
    {
        Desk::default()
    }

    /// The roads, once they stand.
    pub fn roads(&self) -> Option<&AnyRoads>
        ensures { option_map (λ r. laid r.now) result ≡ (setting self.now).roads }
    {
        self.roads.as_ref()
    }

    /// The roads and the rule, once both stand.
    pub fn site(&self) -> Option<Site<'_>>
        ensures { option_map standing result ≡ stands (setting self.now) }
    {
        Some(Site {
            roads: self.roads()?,
            rule: self.rule?,
        })
    }

    /// Does what a line asks for, and answers it.
    pub fn obey(&mut self, command: Command) -> Reply
        ensures { Obeys (setting self.old) (meaning command) (setting self.new) result }
    {
        self.carry_out(command).unwrap_or_else(Reply::Refused)
    }

    /// Does what a line asks for, unless it is refused.
    fn carry_out(&mut self, command: Command) -> Result<Reply, Refusal>
        ensures { Obeys (setting self.old) (meaning command) (setting self.new) (or_refused result) }
    {
        Ok(match command {
            Command::Nothing => Reply::Nothing,
            Command::Unclear => Reply::NotUnderstood,
            Command::Table { places, seconds } => {
                self.roads = Some(AnyRoads::Table(RoadTable::new(places, seconds)?));
                Reply::Done
            }
            Command::Grid {
                columns,
                rows,
                east,
                south,
            } => {
                self.roads = Some(AnyRoads::Grid(Grid::new(columns, rows, east, south)?));
                Reply::Done
            }
            Command::Rule(rule) => {
                self.rule = Some(rule);
                Reply::Done
            }
            Command::Quote { from, to, figures } => match self.site() {
                Some(site) => site.quote(from, to, figures).into(),
                None => Reply::NotUnderstood,
            },
        })
    }
}
