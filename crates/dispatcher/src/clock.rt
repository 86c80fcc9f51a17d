//! The clock: each van on duty whose time is below it moves on with it, and its tree is pruned.
ghost use Rattle.std.specs.Prelude.{◌≡◌, ◌≤◌, true, length, is_ok, Ok};
ghost use Rattle.growth.specs.Grounds.{rules_of};
ghost use Rattle.fleet.specs.SoundTest.{is_sound};
ghost use Rattle.fleet.specs.States.{clock_call, Changes};
ghost use Rattle.outcomes.specs.Settled.{needed, has_tree, waits, waiting_vans, Writes, PrunedTo};
ghost use Rattle.outcomes.specs.Outcomes.{with_nodes};

use crate::Dispatcher;
use fleet::{Refusal, State, Van};
use growth::Fresh;
use orders::Node;
use roads::Roads;
use stowage::Stowage;

/// Whether a van has a tree that can change, which is so where something is open.
fn has_tree(van: &Van) -> bool
    ensures { result ≡ has_tree van.now }
{
    // By reference, since the clock asks this of each van, and a count would copy each.
    van.bookings.iter().any(|held| held.is_some())
}

/// Whether a van on duty has a time below this one, and a tree that can change.
fn is_waiting(slot: &Option<Van>, time: u32) -> bool
    ensures { result ≡ waits time slot.now }
{
    slot.as_ref()
        .is_some_and(|van| van.second < time && has_tree(van))
}

impl<'a, R: Roads, S: Stowage> Dispatcher<'a, R, S> {
    /// The slabs of the vans that waited follow the clock, from the state before.
    fn prune_waiting(&self, before: &State, nodes: &mut [Node], time: u32)
        requires sound { is_sound before.now ≡ true }
        requires moved { clock_call before.now time ≡ Ok self.now.state }
        requires room { needed before.now ≤ length nodes.old }
        ensures { PrunedTo (rules_of R.Roads S.Stowage self.now.ground) before.now self.now.state time nodes.old before.now.size nodes.new }
    {
        for (i, slot) in before.vans[..before.size as usize].iter().enumerate() {
            if is_waiting(slot, time) {
                self.renew(nodes, i as u32 + 1, Fresh::Nobody);
            }
        }
    }

    /// The clock moves on to this time.
    pub fn clock(&mut self, nodes: &mut [Node], time: u32) -> Result<(), Refusal>
        ensures ground { self.new.ground ≡ self.old.ground }
        ensures state { Changes (with_nodes self.old.state (length nodes.old) (clock_call self.old.state time)) self.old.state self.new.state result }
        ensures nodes { Writes (rules_of R.Roads S.Stowage self.old.ground) self.old.state nodes.old (waiting_vans self.old.state time) (is_ok result) self.new.state nodes.new }
    {
        self.require_nodes(nodes)?;
        let before = self.state;
        self.state.clock(time)?;
        self.prune_waiting(&before, nodes, time);
        Ok(())
    }
}
