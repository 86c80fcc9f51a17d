//! A day from the time on that its dispatcher runs.
ghost use Rattle.std.specs.Prelude.{◌≡◌};

use console::Tally;
use dispatcher::Dispatcher;
use growth::Ground;
use orders::Node;

mod lines;

/// A running dispatcher with its node memory, and the calls that it was given, counted.
#[derive(Drop)]
pub struct Session<'a, R, S> {
    lent: Ground<'a, R, S>,
    dispatcher: Dispatcher<'a, R, S>,
    nodes: Vec<Node>,
    tally: Tally,
    ghost one: { dispatcher.ground ≡ lent },
}
