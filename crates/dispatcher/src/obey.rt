//! Any call, and its answer.
ghost use Rattle.std.specs.Prelude.{◌≡◌};
ghost use Rattle.fleet.specs.Terms.{terms_of};
ghost use Rattle.outcomes.specs.Runs.{Does};

use crate::Dispatcher;
use fleet::{Answer, Call, Report};
use orders::Node;
use roads::Roads;
use stowage::Stowage;

impl<'a, R: Roads, S: Stowage> Dispatcher<'a, R, S> {
    /// Does what a call asks for, and answers it.
    pub fn obey(&mut self, nodes: &mut [Node], call: Call) -> Answer
        ensures ground { self.new.ground ≡ self.old.ground }
        ensures does { Does (terms_of R.Roads S.Stowage self.old.ground) call self.old.state nodes.old result self.new.state nodes.new }
    {
        match call {
            Call::Clock { time } => self.clock(nodes, time).map(|()| Report::Done),
            Call::Join { van, place, time } => {
                self.join(nodes, van, place, time).map(|()| Report::Done)
            }
            Call::Leave { van } => self.leave(nodes, van).map(|()| Report::Done),
            Call::Book {
                number,
                from,
                to,
                figures,
            } => self
                .book(nodes, number, from, to, figures)
                .map(Report::Booked),
            Call::Bound { van, place, time } => {
                self.bound(nodes, van, place, time).map(|()| Report::Done)
            }
            Call::Served { van, number, time } => self
                .served(nodes, van, number, time)
                .map(|(kind, late, over)| Report::Served { kind, late, over }),
            Call::Cancel { number } => self.cancel(nodes, number).map(|()| Report::Done),
            Call::Plan { van } => self.plan(nodes, van).map(Report::Listed),
            Call::Order { van, index } => self.order(nodes, van, index).map(Report::Listed),
        }
    }
}
