//! The calls that change a van: the state first, then the van's slab.
ghost use Rattle.std.specs.Prelude.{◌≡◌, length, is_ok};
ghost use Rattle.growth.specs.Grounds.{rules_of};
ghost use Rattle.fleet.specs.States.{join_call, leave_call, bound_call, served_call, cancel_call, Changes, Acts};
ghost use Rattle.outcomes.specs.Settled.{untouched, one_van, holding_van, Writes};
ghost use Rattle.outcomes.specs.Outcomes.{with_nodes};

use crate::Dispatcher;
use fleet::{Refusal, holder};
use growth::Fresh;
use orders::{Node, StopKind};
use roads::Roads;
use stowage::Stowage;

impl<'a, R: Roads, S: Stowage> Dispatcher<'a, R, S> {
    /// A van comes on duty, with nothing open.
    pub fn join(&mut self, nodes: &[Node], van: u32, place: u32, time: u32) -> Result<(), Refusal>
        ensures ground { self.new.ground ≡ self.old.ground }
        ensures state { Changes (with_nodes self.old.state (length nodes.now) (join_call self.old.state (R.Roads.places self.old.ground.roads.now) van place time)) self.old.state self.new.state result }
        ensures nodes { Writes (rules_of R.Roads S.Stowage self.old.ground) self.old.state nodes.now untouched (is_ok result) self.new.state nodes.now }
    {
        self.require_nodes(nodes)?;
        self.state
            .join(self.ground.roads.places(), van, place, time)
    }

    /// A van with nothing open goes off duty.
    pub fn leave(&mut self, nodes: &[Node], van: u32) -> Result<(), Refusal>
        ensures ground { self.new.ground ≡ self.old.ground }
        ensures state { Changes (with_nodes self.old.state (length nodes.now) (leave_call self.old.state van)) self.old.state self.new.state result }
        ensures nodes { Writes (rules_of R.Roads S.Stowage self.old.ground) self.old.state nodes.now untouched (is_ok result) self.new.state nodes.now }
    {
        self.require_nodes(nodes)?;
        self.state.leave(van)
    }

    /// A van is bound for a place, where it can next turn at this time.
    pub fn bound(
        &mut self,
        nodes: &mut [Node],
        van: u32,
        place: u32,
        time: u32,
    ) -> Result<(), Refusal>
        ensures ground { self.new.ground ≡ self.old.ground }
        ensures state { Changes (with_nodes self.old.state (length nodes.old) (bound_call self.old.state (R.Roads.places self.old.ground.roads.now) (R.Roads.trip self.old.ground.roads.now) van place time)) self.old.state self.new.state result }
        ensures nodes { Writes (rules_of R.Roads S.Stowage self.old.ground) self.old.state nodes.old (one_van van) (is_ok result) self.new.state nodes.new }
    {
        self.require_nodes(nodes)?;
        self.state.bound(self.ground.roads, van, place, time)?;
        self.prune_moved(nodes, van);
        Ok(())
    }

    /// A van has served the next stop of a booking: tells the kind of the stop, the seconds late, and the road seconds over
    /// the ride limit. On time and within the limit its tree is what stood below that stop; else it grows anew.
    pub fn served(
        &mut self,
        nodes: &mut [Node],
        van: u32,
        number: u32,
        time: u32,
    ) -> Result<(StopKind, u32, u32), Refusal>
        ensures ground { self.new.ground ≡ self.old.ground }
        ensures state { Acts (with_nodes self.old.state (length nodes.old) (served_call (rules_of R.Roads S.Stowage self.old.ground) self.old.state van number time)) self.old.state self.new.state result }
        ensures nodes { Writes (rules_of R.Roads S.Stowage self.old.ground) self.old.state nodes.old (one_van van) (is_ok result) self.new.state nodes.new }
    {
        self.require_nodes(nodes)?;
        let (kind, late, over) = self.state.served(self.ground, van, number, time)?;
        self.follow_service(nodes, van, number, late, over);
        Ok((kind, late, over))
    }

    /// The waiting booking of this number is gone, and the tree of its van grows anew.
    pub fn cancel(&mut self, nodes: &mut [Node], number: u32) -> Result<(), Refusal>
        ensures ground { self.new.ground ≡ self.old.ground }
        ensures state { Changes (with_nodes self.old.state (length nodes.old) (cancel_call self.old.state number)) self.old.state self.new.state result }
        ensures nodes { Writes (rules_of R.Roads S.Stowage self.old.ground) self.old.state nodes.old (holding_van self.old.state number) (is_ok result) self.new.state nodes.new }
    {
        self.require_nodes(nodes)?;
        let (i, _) = holder(&self.state.vans, number).ok_or(Refusal::NotOpen)?;
        self.state.cancel(number)?;
        self.renew(nodes, i as u32 + 1, Fresh::Everybody);
        Ok(())
    }
}
