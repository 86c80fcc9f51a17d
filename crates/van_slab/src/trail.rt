//! The way from a root of a tree down to the node that was read last.
ghost use Rattle.std.specs.Prelude.{◌≡◌, ◌≤◌, true, [], length, take};
ghost use Rattle.van_slab.specs.Trails.{follows, trail_to, trail_cost, visit_at, told};

use crate::{Itinerary, MOST_STOPS, Visit};
use orders::Node;
use std::array;

/// The nodes from a root down to the node that was read last: the first `stops` of these.
// Kept: an array with a length beside it. A vector of fixed capacity makes blank what it cuts off, and reading a slab took
// twice as long with it.
#[derive(Clone, Copy)]
pub(crate) struct Trail {
    nodes: [Node; MOST_STOPS],
    stops: usize,
    ghost within: { (length nodes ≡ 8) × (stops ≤ 8) },
}

impl Trail {
    /// Before any node is read.
    pub(crate) fn new() -> Trail
        ensures { take result.stops result.nodes ≡ [] }
    {
        Trail {
            nodes: [Node::BLANK; MOST_STOPS],
            stops: 0,
        }
    }

    /// Goes on to the next node, and says whether it can follow the one before it.
    pub(crate) fn enter(&mut self, node: Node) -> bool
        ensures answer { result ≡ follows (take self.old.stops self.old.nodes) node }
        ensures moved { result ≡ true → take self.new.stops self.new.nodes ≡ trail_to (take self.old.stops self.old.nodes) node }
    {
        let depth = node.depth as usize;
        if node.span == 0 || depth == 0 || depth > self.stops + 1 || depth > MOST_STOPS {
            return false;
        }
        self.nodes[depth - 1] = node;
        self.stops = depth;
        true
    }

    /// The nodes so far.
    fn walked(&self) -> &[Node]
        ensures { result.now ≡ take self.now.stops self.now.nodes }
    {
        &self.nodes[..self.stops]
    }

    /// The cost so far, that of the last node.
    fn cost(&self) -> u32
        ensures { result ≡ trail_cost (take self.now.stops self.now.nodes) }
    {
        self.walked().last().map_or(0, |node| node.cost)
    }

    /// What the node at an index tells, and from the trail's end on a visit that is not used.
    fn visit(&self, index: usize) -> Visit
        ensures { result ≡ visit_at (take self.now.stops self.now.nodes) index }
    {
        self.walked()
            .get(index)
            .map_or(Visit::UNUSED, |node| Visit::from(*node))
    }

    /// The trail as an itinerary.
    pub(crate) fn itinerary(&self) -> Itinerary
        ensures { result ≡ told (take self.now.stops self.now.nodes) }
    {
        Itinerary {
            cost: self.cost(),
            stops: self.stops as u32,
            visits: array::from_fn(|index| self.visit(index)),
        }
    }
}
