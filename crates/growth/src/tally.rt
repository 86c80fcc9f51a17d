//! The size of a tree and the least cost of its orders, told without storing it.
ghost use Rattle.std.specs.Prelude.{◌≡◌, ◌<◌, Some};
ghost use Rattle.growth.specs.Grounds.{rules_of};
ghost use Rattle.growth.specs.Positions.{compact, walk_of, Sound};
ghost use Rattle.growth.specs.Changes.{Suffices};
ghost use Rattle.growth.specs.Roots.{Branches, Grows};
ghost use Rattle.growth.specs.Slabs.{own_slab, Laid};
ghost use Rattle.growth.specs.Surveys.{none_open, lesser, Tallies, Surveys};

use crate::walk::{Visit, step};
use crate::{Fresh, Ground, Position, Slabs};
use orders::{Booking, Node};
use roads::Roads;
use stowage::Stowage;

/// How many nodes a tree has, and the least cost of its orders, if it has any.
#[derive(Clone, Copy)]
pub struct Tally {
    pub count: u32,
    pub least: Option<u32>,
}

/// A tree to grow: on a ground, along the nodes of an old tree, to which some bookings are new, from a position on.
// Kept: that the position is sound is asked by each call: as a ghost field it needs a proof that it has one proof, and
// takes away `..self`.
#[derive_where(Clone, Copy)]
pub(crate) struct Growth<'a, R, S> {
    pub ground: Ground<'a, R, S>,
    pub old: &'a [Node],
    pub fresh: Fresh,
    pub position: Position,
}

/// A stop to go on with: the visit to it, and where to look on in the old tree.
#[derive(Clone, Copy)]
pub(crate) struct Branch<'a> {
    pub visit: Visit,
    pub old: &'a [Node],
}

/// A root of a tree: its booking and the visit to it, where to look on in the old tree, how many nodes stand below it, and
/// the least cost of the orders that begin with it.
#[derive(Clone, Copy)]
pub(crate) struct Root<'a> {
    pub booking: Booking,
    pub visit: Visit,
    pub old: &'a [Node],
    pub below: u32,
    pub least: u32,
}

/// Whether no booking is open.
fn nothing_open(bookings: &[Option<Booking>]) -> bool
    ensures { result ≡ none_open (compact bookings.now) }
{
    bookings.iter().all(Option::is_none)
}

/// The lesser of the least cost so far and another.
fn least_with(least: Option<u32>, cost: u32) -> Option<u32>
    ensures { result ≡ lesser least (Some cost) }
{
    Some(least.map_or(cost, |known| known.min(cost)))
}

impl<'a, R: Roads, S: Stowage> Growth<'a, R, S> {
    /// The next stop of the i-th booking, if the old tree has it and it may be served next.
    fn branch(&self, i: usize) -> Option<Branch<'a>>
        requires sound { Sound self.now.position }
        requires within { i < 4 }
        ensures { Branches (rules_of R.Roads S.Stowage self.now.ground) self.now.fresh self.now.old.now self.now.position i result }
    {
        let booking = self.position.bookings[i]?;
        let old = self.fresh.look_on(self.old, booking.number())?;
        let visit = step(self.ground, &self.position, i)?;
        Some(Branch { visit, old })
    }

    /// The next stop of the i-th booking, if the old tree has it, it may be served next, and an order goes on from it.
    pub(crate) fn try_next(&self, i: usize) -> Option<Root<'a>>
        requires sound { Sound self.now.position }
        requires within { i < 4 }
        ensures { Grows (rules_of R.Roads S.Stowage self.now.ground) self.now.fresh self.now.old.now self.now.position i result }
    {
        let booking = self.position.bookings[i]?;
        let Branch { visit, old } = self.branch(i)?;
        let tree = Growth {
            old,
            position: visit.position,
            ..*self
        };
        let below = tree.tally();
        let least = below.least?;
        Some(Root {
            booking,
            visit,
            old,
            below: below.count,
            least,
        })
    }

    /// The tally of the tree.
    pub(crate) fn tally(&self) -> Tally
        requires { Sound self.now.position }
        ensures { Tallies (rules_of R.Roads S.Stowage self.now.ground) self.now.fresh self.now.old.now (walk_of self.now.position) result }
    {
        if nothing_open(&self.position.bookings) {
            return Tally {
                count: 0,
                least: Some(self.position.cost),
            };
        }
        let mut count = 0;
        let mut least = None;
        // Kept: the number of a booking's place is what `branch` takes, since serving its stop is a write to that place.
        for i in 0..4 {
            // By `branch` and not `try_next`: what only a writer needs is not handed up from each stop.
            if let Some(branch) = self.branch(i) {
                let tree = Growth {
                    old: branch.old,
                    position: branch.visit.position,
                    ..*self
                };
                let below = tree.tally();
                if let Some(cost) = below.least {
                    count += 1 + below.count;
                    least = least_with(least, cost);
                }
            }
        }
        Tally { count, least }
    }
}

/// The tally of a van's tree, guided by its slab: with one booking more, for its price; nothing is stored.
pub fn survey<R: Roads, S: Stowage>(
    ground: Ground<R, S>,
    nodes: &[Node],
    slabs: Slabs,
    position: Position,
    fresh: Fresh,
) -> Tally
    requires sound { Sound position }
    requires laid { Laid nodes.now slabs }
    ensures tallies { Tallies (rules_of R.Roads S.Stowage ground.entry) fresh (own_slab nodes.now slabs) (walk_of position) result }
    ensures exact { Suffices (rules_of R.Roads S.Stowage ground.entry) fresh (own_slab nodes.now slabs) (walk_of position) → Surveys (rules_of R.Roads S.Stowage ground.entry) (walk_of position) result }
{
    let tree = Growth {
        ground,
        old: slabs.own_nodes(nodes),
        fresh,
        position,
    };
    tree.tally()
}
