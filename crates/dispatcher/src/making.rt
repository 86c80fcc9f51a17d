//! How a dispatcher is made.
ghost use Rattle.std.specs.Prelude.{◌≡◌, ◌+◌, ◌*◌, ◌&&◌, leb, length, if◌then◌else◌, Err, MatchResult, nat_le};
ghost use Rattle.orders.specs.Slabs.{slab_size};
ghost use Rattle.van_slab.specs.Limits.{open_limit};
ghost use Rattle.growth.specs.Grounds.{rules_of};
ghost use Rattle.outcomes.specs.Outcomes.{make_call, Made};

use crate::Dispatcher;
use fleet::{Refusal, State};
use growth::{Ground, clear};
use orders::Node;
use roads::Roads;
use stowage::{Stowage, require};
use van_slab::OpenLimit;

/// The most vans.
const MOST_VANS: u32 = 32;

/// Whether so many vans can be had.
fn is_van_count(vans: u32) -> bool
    ensures { result ≡ nat_le 1 vans && nat_le vans 32 }
{
    1 <= vans && vans <= MOST_VANS
}

/// How many nodes so many vans need: one slab for each van and one more.
pub(crate) fn node_count(vans: u32, limit: OpenLimit) -> usize
    ensures { result ≡ (vans + 1) * slab_size (open_limit limit) }
{
    (vans as usize + 1) * limit.slab_size()
}

/// How many nodes a dispatcher needs: one slab for each van and one more. None where the numbers are out of range.
// Kept: 0 and no `Option`, since what could not fail still cannot.
pub fn nodes_needed(vans: u32, open_limit: u32) -> usize
    ensures { result ≡ (if leb 1 vans && nat_le vans 32 then (vans + 1) * slab_size open_limit else 0) }
{
    match OpenLimit::new(open_limit) {
        Some(limit) if is_van_count(vans) => node_count(vans, limit),
        _ => 0,
    }
}

impl<'a, R: Roads, S: Stowage> Dispatcher<'a, R, S> {
    /// A dispatcher of so many vans, all off duty, with an open limit, over one rule and one roads throughout. It makes blank
    /// the nodes that it needs.
    pub fn new(
        ground: Ground<'a, R, S>,
        vans: u32,
        open_limit: u32,
        nodes: &mut [Node],
    ) -> Result<Dispatcher<'a, R, S>, Refusal>
        ensures { MatchResult result
            (λ d. (d.ground ≡ ground.entry) × Made (rules_of R.Roads S.Stowage ground.entry) vans open_limit nodes.old d.state nodes.new)
            (λ f. (make_call vans open_limit (length nodes.old) ≡ Err f) × (nodes.new ≡ nodes.old)) }
    {
        require(is_van_count(vans), Refusal::VanCount)?;
        let Some(limit) = OpenLimit::new(open_limit) else {
            return Err(Refusal::OpenLimit);
        };
        let count = node_count(vans, limit);
        require(count <= nodes.len(), Refusal::TooFewNodes)?;
        clear(nodes, 0, count);
        let state = State {
            size: vans,
            open_limit,
            clock: 0,
            vans: [None; 32],
        };
        Ok(Dispatcher { ground, state })
    }
}
