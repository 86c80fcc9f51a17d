//! The slabs of node memory: a van's slab takes over the tree that was grown in the working slab.
ghost use Rattle.std.specs.Prelude.{◌≡◌, ◌+◌, ◌*◌, ◌<◌, ◌≤◌, List, length, replicate};
ghost use Rattle.orders.specs.Slabs.{slab_size, blank};
ghost use Rattle.orders.specs.Laws.{below_root};
ghost use Rattle.growth.specs.Grounds.{rules_of};
ghost use Rattle.growth.specs.declared.guide.Fresh.TheVariants.{Nobody};
ghost use Rattle.growth.specs.Positions.{compact, walk_of, Sound};
ghost use Rattle.growth.specs.Guides.{row, grown_row};
ghost use Rattle.growth.specs.Changes.{Suffices};
ghost use Rattle.growth.specs.Memory.{pasted};
ghost use Rattle.growth.specs.Slabs.{slabs_at, own_slab, Laid, Roomy, Replaced, Holds};
ghost use Rattle.van_slab.specs.Limits.{open_limit};

use crate::guide::find_child;
use crate::tally::Growth;
use crate::{Fresh, Ground, Position};
use orders::Node;
use roads::Roads;
use stowage::Stowage;
use van_slab::OpenLimit;

/// Where a van's own slab and the working slab behind it begin, and how many nodes each has.
// Kept: that they lie in node memory is asked by each call, since the memory is handed to each anew.
#[derive(Clone, Copy)]
pub struct Slabs {
    pub own: usize,
    pub work: usize,
    pub size: usize,
}

impl Slabs {
    /// The nodes of the own slab.
    pub(crate) fn own_nodes(self, nodes: &[Node]) -> &[Node]
        requires { self.own + self.size ≤ length nodes.now }
        ensures { result.now ≡ own_slab nodes.now self }
    {
        &nodes[self.own..self.own + self.size]
    }

    /// The first nodes of the working slab go into the own slab, then blanks; the working slab is blank again.
    fn take_over(self, nodes: &mut [Node], count: usize)
        requires laid { Laid nodes.old self }
        requires fits { count ≤ self.size }
        ensures { Replaced nodes.old self (row nodes.old self.work (self.work + count)) nodes.new }
    {
        nodes.copy_within(self.work..self.work + count, self.own);
        clear(nodes, self.own + count, self.size - count);
        clear(nodes, self.work, self.size);
    }
}

/// The slabs of a van, counted from 0, in a memory that has one slab for each van and the working slab behind them all.
pub fn slabs_of(van: u32, vans: u32, limit: OpenLimit) -> Slabs
    ensures places { result ≡ slabs_at van vans (slab_size (open_limit limit)) }
    ensures laid { (memory : List Node) → van < vans → (vans + 1) * slab_size (open_limit limit) ≤ length memory → Laid memory result }
{
    let size = limit.slab_size();
    Slabs {
        own: van as usize * size,
        work: vans as usize * size,
        size,
    }
}

/// Makes so many nodes blank.
pub fn clear(nodes: &mut [Node], at: usize, count: usize)
    requires { at + count ≤ length nodes.old }
    ensures { nodes.new ≡ pasted nodes.old at (replicate count blank) }
{
    nodes[at..at + count].fill(Node::BLANK);
}

/// A van has one booking more, the clock has run on, it is bound elsewhere, or its tree is to grow anew: its slab gets the
/// new tree, guided by the old one.
pub fn regrow<R: Roads, S: Stowage>(
    ground: Ground<R, S>,
    nodes: &mut [Node],
    slabs: Slabs,
    position: Position,
    fresh: Fresh,
) -> usize
    requires sound { Sound position }
    requires laid { Laid nodes.old slabs }
    requires roomy { Roomy slabs.size (compact position.bookings) }
    ensures replaced { Replaced nodes.old slabs (grown_row (rules_of R.Roads S.Stowage ground.entry) fresh (own_slab nodes.old slabs) (walk_of position)) nodes.new }
    ensures count { result ≡ length (grown_row (rules_of R.Roads S.Stowage ground.entry) fresh (own_slab nodes.old slabs) (walk_of position)) }
    ensures exact { Suffices (rules_of R.Roads S.Stowage ground.entry) fresh (own_slab nodes.old slabs) (walk_of position) → Holds (rules_of R.Roads S.Stowage ground.entry) nodes.new slabs (walk_of position) }
{
    let (vans, work) = nodes.split_at_mut(slabs.work);
    let tree = Growth {
        ground,
        old: slabs.own_nodes(vans),
        fresh,
        position,
    };
    let count = tree.write(work);
    slabs.take_over(nodes, count);
    count
}

// Kept: this differs from `regrow` in where it looks on; a closure for that would be lent nodes of the memory that is written.
/// A van has served the next stop of a booking, on time and within its limit: its slab gets what stood below that stop, as
/// far as that is still valid.
pub fn prune<R: Roads, S: Stowage>(
    ground: Ground<R, S>,
    nodes: &mut [Node],
    slabs: Slabs,
    position: Position,
    served: u32,
) -> usize
    requires sound { Sound position }
    requires laid { Laid nodes.old slabs }
    requires roomy { Roomy slabs.size (compact position.bookings) }
    ensures replaced { Replaced nodes.old slabs (grown_row (rules_of R.Roads S.Stowage ground.entry) Nobody (below_root served (own_slab nodes.old slabs)) (walk_of position)) nodes.new }
    ensures count { result ≡ length (grown_row (rules_of R.Roads S.Stowage ground.entry) Nobody (below_root served (own_slab nodes.old slabs)) (walk_of position)) }
    ensures exact { Suffices (rules_of R.Roads S.Stowage ground.entry) Nobody (below_root served (own_slab nodes.old slabs)) (walk_of position) → Holds (rules_of R.Roads S.Stowage ground.entry) nodes.new slabs (walk_of position) }
{
    let (vans, work) = nodes.split_at_mut(slabs.work);
    let own = slabs.own_nodes(vans);
    let tree = Growth {
        ground,
        old: find_child(own, served).unwrap_or(&[]),
        fresh: Fresh::Nobody,
        position,
    };
    let count = tree.write(work);
    slabs.take_over(nodes, count);
    count
}
