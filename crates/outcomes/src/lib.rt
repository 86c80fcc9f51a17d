//! What each call leads to from the present state, and what node memory then holds: definitions, in specs/, and the laws that
//! the dispatcher rests on.
#![tactic(auto)]

ghost use Rattle.orders.specs.Rules.{rules};
ghost use Rattle.outcomes.specs.Fairness.{TellsAll, Fair};

use roads::Roads;
use stowage::Stowage;

/// Settled node memory tells every van's valid orders from its present state: just these, each once and ascending, and stop
/// by stop as they are driven.
pub fn memory_is_exact<R: Roads, S: Stowage>(roads: &R, rule: &S)
    ensures { TellsAll (rules R.Roads S.Stowage roads.now rule.now) }
{}

/// A booking goes to the van that asks least for it, the lowest among equals, and is told the seconds of that van's plan; it
/// is refused only where no van below the open limit has a valid order with it.
pub fn booking_is_fair<R: Roads, S: Stowage>(roads: &R, rule: &S)
    ensures { Fair (rules R.Roads S.Stowage roads.now rule.now) }
{}
