//! How a running day begins, and what its lines lead to.
ghost use Rattle.std.specs.Prelude.{◌≡◌, replicate, IfOk, MatchResult};
ghost use Rattle.orders.specs.Slabs.{blank};
ghost use Rattle.fleet.specs.Terms.{terms_of};
ghost use Rattle.growth.specs.Grounds.{rules_of};
ghost use Rattle.outcomes.specs.Outcomes.{Made};
ghost use Rattle.console.specs.Tallies.{no_calls};
ghost use Rattle.console.specs.Meaning.{meaning as plain_meaning};
ghost use Rattle.dispatch_console.specs.Meaning.{meaning};
ghost use Rattle.dispatch_console.specs.Sessions.{moment, Attends, attended, Called, nodes_given, Prevents};

use super::Session;
use crate::{Command, NotBegun, Reply, Size};
use console::Tally;
use dispatcher::{Dispatcher, nodes_needed};
use fleet::Call;
use growth::Ground;
use orders::Node;
use quotes::quote;
use roads::Roads;
use std::alloc::{AllocError, Global};
use stowage::Stowage;

/// How many nodes a dispatcher is handed: those that were asked for, else just enough.
fn node_count(asked: Option<u32>, size: Size) -> usize
    ensures { result ≡ nodes_given asked size }
{
    match asked {
        Some(count) => count as usize,
        None => nodes_needed(size.vans, size.open_limit),
    }
}

/// So many blank nodes.
fn blank_nodes(heap: Global, count: usize) -> Result<Vec<Node>, AllocError>
    ensures { IfOk result (λ v. v.items ≡ replicate count blank) }
{
    vec![in heap; Node::BLANK; count]
}

impl<'a, R: Roads, S: Stowage> Session<'a, R, S> {
    /// Makes a dispatcher with node memory of its own, or tells why there is none.
    pub fn begin(
        heap: Global,
        ground: Ground<'a, R, S>,
        nodes: Option<u32>,
        size: Size,
    ) -> Result<Session<'a, R, S>, NotBegun>
        ensures { MatchResult result
            (λ s. (s.lent ≡ ground.entry) × Made (rules_of R.Roads S.Stowage ground.entry) size.vans size.open_limit (replicate (nodes_given nodes size) blank) (moment s).state (moment s).memory × ((moment s).tally ≡ no_calls))
            (λ why. Prevents size (nodes_given nodes size) why) }
    {
        let mut memory = blank_nodes(heap, node_count(nodes, size))?;
        let dispatcher = Dispatcher::new(ground, size.vans, size.open_limit, &mut memory)?;
        Ok(Session {
            lent: ground,
            dispatcher,
            nodes: memory,
            tally: Tally::new(),
        })
    }

    /// Does what a line asks for, and answers it.
    pub fn obey(&mut self, command: Command) -> Reply
        ensures lent { self.new.lent ≡ self.old.lent }
        ensures attends { Attends (terms_of R.Roads S.Stowage self.old.lent) (moment self.old) (meaning command) (moment self.new) result }
    {
        match command {
            Command::Plain(command) => self.attend(command).into(),
            Command::Help => Reply::Help,
            Command::Nodes(_) | Command::Make(_) => console::Reply::NotUnderstood.into(),
            Command::Call(call) => self.call(call),
        }
    }

    /// Answers what a day without a dispatcher is asked too.
    fn attend(&self, command: console::Command) -> console::Reply
        ensures { result ≡ attended (terms_of R.Roads S.Stowage self.now.lent) (plain_meaning command) }
    {
        match command {
            console::Command::Nothing => console::Reply::Nothing,
            console::Command::Quote { from, to, figures } => quote(
                self.lent.roads,
                self.lent.rule,
                from,
                to,
                figures,
            ).into(),
            console::Command::Unclear
            | console::Command::Table { .. }
            | console::Command::Grid { .. }
            | console::Command::Rule(_) => console::Reply::NotUnderstood,
        }
    }

    /// Gives a call to the dispatcher, and counts it.
    fn call(&mut self, call: Call) -> Reply
        ensures lent { self.new.lent ≡ self.old.lent }
        ensures called { Called (terms_of R.Roads S.Stowage self.old.lent) call (moment self.old) (moment self.new) result }
    {
        let answer = self.dispatcher.obey(&mut self.nodes, call);
        self.tally.count(answer.is_ok());
        answer.into()
    }

    /// The calls so far, counted.
    pub fn tally(&self) -> Tally
        ensures { result ≡ self.now.tally }
    {
        self.tally
    }
}
