//! Which orders stand in a slab. Reading ends at the first node that cannot follow the one before it: a blank, or in a slab
//! that is no tree a node at depth 0, more than one deeper, or deeper than an order has stops.
ghost use Rattle.std.specs.Prelude.{◌≡◌, ◌==◌, []};
ghost use Rattle.std.specs.Iterator.{item_count};
ghost use Rattle.van_slab.specs.Trails.{trails, beats, cheapest_order, order_at};
ghost use Rattle.van_slab.specs.Reading.{trails_left, GoesOn};

use crate::Itinerary;
use crate::trail::Trail;
use orders::Node;

/// The orders that a slab lists, in its sequence: the trail to the node that was read last, and the nodes behind it. An item
/// is the cost of the next order, to whose end the trail then leads: an order is told only where that is asked for.
#[derive(Drop)]
struct Orders<'a> {
    trail: Trail,
    nodes: &'a [Node],
}

impl<'a> Orders<'a> {
    /// All that a slab lists.
    fn listed(slab: &'a [Node]) -> Orders<'a>
        ensures { trails_left result ≡ trails [] slab.now }
    {
        Orders {
            trail: Trail::new(),
            nodes: slab,
        }
    }
}

impl Iterator for Orders<'_> {
    type Item = u32;

    ghost next_gives = { GoesOn };

    ghost remaining = { item_count trails_left };

    fn next(&mut self) -> Option<u32> {
        let mut nodes = self.nodes;
        while let Some((node, behind)) = nodes.split_first() {
            if !self.trail.enter(*node) {
                break;
            }
            nodes = behind;
            if ends_order(node) {
                self.nodes = nodes;
                return Some(node.cost);
            }
        }
        self.nodes = &[];
        None
    }
}

/// The order of least cost in a slab, among equals the first, or `None` where it lists none.
pub fn cheapest_order(slab: &[Node]) -> Option<Itinerary>
    ensures { result ≡ cheapest_order slab.now }
{
    let mut orders = Orders::listed(slab);
    let mut best = None;
    // Kept: `min_by_key` does the same, and made an itinerary of each order.
    while let Some(cost) = orders.next() {
        if is_cheaper(cost, &best) {
            best = Some(orders.trail.itinerary());
        }
    }
    best
}

/// The order at an index from 0 in the sequence of the slab, which ascends by booking number, or `None` from their number on.
pub fn order_at(slab: &[Node], index: u32) -> Option<Itinerary>
    ensures { result ≡ order_at slab.now index }
{
    let mut orders = Orders::listed(slab);
    let mut left = index;
    // Kept: `nth` does the same and took half as long again.
    while let Some(_cost) = orders.next() {
        if left == 0 {
            return Some(orders.trail.itinerary());
        }
        left -= 1;
    }
    None
}

/// Whether an order ends at a node: it spans itself alone.
fn ends_order(node: &Node) -> bool
    ensures { result ≡ (node.now.span == 1) }
{
    node.span == 1
}

/// Whether a cost is below that of the best order so far, or there is none.
fn is_cheaper(cost: u32, best: &Option<Itinerary>) -> bool
    ensures { result ≡ beats cost best.now }
{
    best.is_none_or(|order| cost < order.cost)
}
