//! The slabs of the vans: which nodes they are, and how a van's slab gets its new tree.
ghost use Rattle.std.specs.Prelude.{◌≡◌, ◌-◌, ◌≤◌, true, length, Some, IfOk, nat_le, nat_lt};
ghost use Rattle.stowage.specs.Figures.{required};
ghost use Rattle.orders.specs.Laws.{below_root};
ghost use Rattle.van_slab.specs.Limits.{open_limit};
ghost use Rattle.growth.specs.declared.guide.Fresh.TheVariants.{Nobody};
ghost use Rattle.growth.specs.Grounds.{rules_of};
ghost use Rattle.growth.specs.Slabs.{slabs_at};
ghost use Rattle.fleet.specs.declared.refusal.Refusal.TheVariants.{TooFewNodes as too_few};
ghost use Rattle.fleet.specs.declared.state.Van.{Van as OnDuty};
ghost use Rattle.fleet.specs.States.{is_van, van_at};
ghost use Rattle.outcomes.specs.Settled.{needed, slab_at, slab_nodes, has_tree, as_ordered, Regrown, RegrownIf, RegrownAfter};

use crate::Dispatcher;
use crate::making::node_count;
use fleet::Refusal;
use growth::{Fresh, Slabs, prune, regrow, slabs_of};
use orders::Node;
use roads::Roads;
use stowage::{Stowage, require};
use van_slab::OpenLimit;

// Kept: that a number is a van's, and that there are nodes enough, are facts of the state and of what each call is given; a type
// for them would borrow the dispatcher while its state changes.
impl<'a, R: Roads, S: Stowage> Dispatcher<'a, R, S> {
    /// The open limit.
    fn limit(&self) -> OpenLimit
        ensures { open_limit result ≡ self.now.state.open_limit }
    {
        OpenLimit::new(self.state.open_limit).unwrap()
    }

    /// Goes on where there is one slab for each van and one more.
    pub(crate) fn require_nodes(&self, nodes: &[Node]) -> Result<(), Refusal>
        ensures checks { result ≡ required (nat_le (needed self.now.state) (length nodes.now)) too_few }
        ensures enough { IfOk result (λ u. needed self.now.state ≤ length nodes.now) }
    {
        let count = node_count(self.state.size, self.limit());
        require(count <= nodes.len(), Refusal::TooFewNodes)
    }

    /// Where the slab of the van of this number lies, and the working slab.
    pub(crate) fn slabs(&self, van: u32) -> Slabs
        requires { is_van self.now.state van ≡ true }
        ensures { result ≡ slabs_at (van - 1) self.now.state.size (slab_nodes self.now.state) }
    {
        slabs_of(van - 1, self.state.size, self.limit())
    }

    /// The slab of the van of this number.
    pub(crate) fn slab<'n>(&self, nodes: &'n [Node], van: u32) -> &'n [Node]
        requires within { is_van self.now.state van ≡ true }
        requires room { needed self.now.state ≤ length nodes.now }
        ensures { result.now ≡ slab_at self.now.state nodes.now (van - 1) }
    {
        let slabs = self.slabs(van);
        &nodes[slabs.own..slabs.own + slabs.size]
    }

    /// The slab of a van gets its new tree: along its old one, but for bookings that are new to it.
    pub(crate) fn renew(&self, nodes: &mut [Node], van: u32, fresh: Fresh)
        requires within { is_van self.now.state van ≡ true }
        requires room { needed self.now.state ≤ length nodes.old }
        ensures { (w : OnDuty) → van_at self.now.state van ≡ Some w → Regrown (rules_of R.Roads S.Stowage self.now.ground) self.now.state (van - 1) fresh (slab_at self.now.state nodes.old (van - 1)) w nodes.old nodes.new }
    {
        if let Some(w) = self.state.van(van) {
            let _ = regrow(self.ground, nodes, self.slabs(van), w.position(), fresh);
        }
    }

    /// The slab of a van that has moved: its tree is pruned, if it has something open.
    pub(crate) fn prune_moved(&self, nodes: &mut [Node], van: u32)
        requires within { is_van self.now.state van ≡ true }
        requires room { needed self.now.state ≤ length nodes.old }
        ensures { (w : OnDuty) → van_at self.now.state van ≡ Some w → RegrownIf (rules_of R.Roads S.Stowage self.now.ground) self.now.state (van - 1) (has_tree w) w nodes.old nodes.new }
    {
        if let Some(w) = self.state.van(van) {
            if w.open_count() > 0 {
                self.renew(nodes, van, Fresh::Nobody);
            }
        }
    }

    // Kept: this differs from `renew` as `prune` does from `regrow`, in what is called.
    /// The slab of a van that has served a stop of this booking, on time and within its limit, gets what stood below it.
    fn renew_below(&self, nodes: &mut [Node], van: u32, booking: u32)
        requires within { is_van self.now.state van ≡ true }
        requires room { needed self.now.state ≤ length nodes.old }
        ensures { (w : OnDuty) → van_at self.now.state van ≡ Some w → Regrown (rules_of R.Roads S.Stowage self.now.ground) self.now.state (van - 1) Nobody (below_root booking (slab_at self.now.state nodes.old (van - 1))) w nodes.old nodes.new }
    {
        if let Some(w) = self.state.van(van) {
            let _ = prune(self.ground, nodes, self.slabs(van), w.position(), booking);
        }
    }

    /// Whether a van stands at a place that the roads know.
    fn is_on_roads(&self, van: u32) -> bool
        requires { is_van self.now.state van ≡ true }
        ensures { (w : OnDuty) → van_at self.now.state van ≡ Some w → result ≡ nat_lt w.place (R.Roads.places self.now.ground.roads.now) }
    {
        let places = self.ground.roads.places();
        self.state.van(van).is_some_and(|w| w.place < places)
    }

    /// The slab of a van that has served a stop of this booking: what stood below the stop, if it was served as an order may
    /// have it; else the tree grows anew, since late or over the limit other orders may have become valid.
    pub(crate) fn follow_service(
        &self,
        nodes: &mut [Node],
        van: u32,
        booking: u32,
        late: u32,
        over: u32,
    )
        requires within { is_van self.now.state van ≡ true }
        requires room { needed self.now.state ≤ length nodes.old }
        ensures { (w : OnDuty) → van_at self.now.state van ≡ Some w → RegrownAfter (rules_of R.Roads S.Stowage self.now.ground) self.now.state (van - 1) booking (as_ordered late over (nat_lt w.place (R.Roads.places self.now.ground.roads.now))) w nodes.old nodes.new }
    {
        if was_as_ordered(late, over, self.is_on_roads(van)) {
            self.renew_below(nodes, van, booking);
        } else {
            self.renew(nodes, van, Fresh::Everybody);
        }
    }
}

/// Whether a stop was served as an order may have it.
fn was_as_ordered(late: u32, over: u32, known: bool) -> bool
    ensures { result ≡ as_ordered late over known }
{
    late == 0 && over == 0 && known
}
