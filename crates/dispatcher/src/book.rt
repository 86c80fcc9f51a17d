//! Booking: every van on duty with room is asked, and the best offer gets the booking.
ghost use Rattle.std.specs.Prelude.{◌≡◌, ◌-◌, ◌≤◌, true, ◌&&◌, length, is_ok, Some, None, ◌==◌};
ghost use Rattle.orders.specs.Bookings.{number_of, kind_number};
ghost use Rattle.growth.specs.Grounds.{rules_of};
ghost use Rattle.fleet.specs.States.{is_van, van_at, holder_of, requested, Acts};
ghost use Rattle.fleet.specs.Terms.{terms_of};
ghost use Rattle.outcomes.specs.Settled.{needed, slab_at, roomy_vans, Settled, Writes};
ghost use Rattle.outcomes.specs.Offers.{difference, read_bid, better, second_of, visits_of, told_booked};
ghost use Rattle.outcomes.specs.Outcomes.{with_nodes, book_call, told_plan, told_offer, Books};

use crate::Dispatcher;
use crate::questions::plan_in;
use fleet::{Booked, Offer, Refusal};
use growth::{Fresh, survey};
use orders::{Booking, Node, StopKind};
use roads::Roads;
use stowage::Stowage;
use van_slab::{Itinerary, Visit};

/// By how much the least cost with a booking, if there is one, is above that without it.
fn price_of(without: u32, with: Option<u32>) -> Option<u32>
    ensures { result ≡ difference (Some without) with }
{
    Some(with?.saturating_sub(without))
}

/// The better of the best offer so far and that of the next van; the earlier one among equals.
fn better_of(best: Option<Offer>, van: u32, price: Option<u32>) -> Option<Offer>
    ensures { result ≡ better best van price }
{
    let Some(price) = price else {
        return best;
    };
    match best {
        Some(offer) if offer.price <= price => best,
        _ => Some(Offer { van, price }),
    }
}

/// Whether a visit is to this stop of a booking.
fn is_visit(visit: &Visit, booking: u32, kind: StopKind) -> bool
    ensures { result ≡ (visit.now.booking == booking) && (visit.now.kind == kind_number kind) }
{
    visit.booking == booking && visit.kind == kind.number()
}

/// The second of a booking's stop among visits, 0 where it is none of them.
// Kept: 0 and no `Option`, since on nodes that are not its own a dispatcher tells it as it is.
fn second_of(visits: &[Visit], booking: u32, kind: StopKind) -> u32
    ensures { result ≡ second_of booking (kind_number kind) visits.now }
{
    for visit in visits {
        if is_visit(visit, booking, kind) {
            return visit.second;
        }
    }
    0
}

/// What is told of a booking that an offer has won, with the van's new plan.
fn told_booked(number: u32, offer: Offer, plan: Option<Itinerary>) -> Booked
    ensures { result ≡ told_booked number offer (visits_of plan) }
{
    let visits: &[Visit] = match &plan {
        Some(order) => &order.visits,
        None => &[],
    };
    Booked {
        van: offer.van,
        price: offer.price,
        pickup: second_of(visits, number, StopKind::Pickup),
        dropoff: second_of(visits, number, StopKind::DropOff),
    }
}

impl<'a, R: Roads, S: Stowage> Dispatcher<'a, R, S> {
    /// What a van asks for a booking: the least cost with it less the least cost without it, if it is on duty, has room and
    /// has a valid order with it.
    fn ask(&self, nodes: &[Node], van: u32, booking: Booking) -> Option<u32>
        requires within { is_van self.now.state van ≡ true }
        requires room { needed self.now.state ≤ length nodes.now }
        requires new { holder_of (number_of booking) 0 self.now.state.vans ≡ None }
        ensures { result ≡ read_bid (rules_of R.Roads S.Stowage self.now.ground) self.now.state booking (slab_at self.now.state nodes.now (van - 1)) (van_at self.now.state van) }
    {
        let w = self.state.van(van)?;
        if w.open_count() >= self.state.open_limit {
            return None;
        }
        let plan = plan_in(w, self.slab(nodes, van))?;
        let with = w.taking(booking).position();
        let fresh = Fresh::Only(booking.number());
        let tally = survey(self.ground, nodes, self.slabs(van), with, fresh);
        price_of(plan.cost, tally.least)
    }

    /// The best offer of all vans.
    fn best_offer(&self, nodes: &[Node], booking: Booking) -> Option<Offer>
        requires room { needed self.now.state ≤ length nodes.now }
        requires new { holder_of (number_of booking) 0 self.now.state.vans ≡ None }
        ensures { result ≡ told_offer (rules_of R.Roads S.Stowage self.now.ground) self.now.state nodes.now booking }
    {
        let mut best = None;
        // Kept: the proof of `1..=n` was tried, and has to cite a name that the prover may change.
        for van in 1..self.state.size + 1 {
            best = better_of(best, van, self.ask(nodes, van, booking));
        }
        best
    }

    /// The plan of a van, as the nodes tell it.
    fn told_plan(&self, nodes: &[Node], van: u32) -> Option<Itinerary>
        requires within { is_van self.now.state van ≡ true }
        requires room { needed self.now.state ≤ length nodes.now }
        ensures { result ≡ told_plan self.now.state nodes.now van }
    {
        let w = self.state.van(van)?;
        plan_in(w, self.slab(nodes, van))
    }

    /// A booking: it goes to the van that asks least, the lowest number among equals, and waits there. Tells the van, the
    /// price, and the seconds of its two stops in that van's new plan.
    pub fn book(
        &mut self,
        nodes: &mut [Node],
        number: u32,
        from: u32,
        to: u32,
        figures: [u32; 6],
    ) -> Result<Booked, Refusal>
        ensures ground { self.new.ground ≡ self.old.ground }
        ensures any { Books (with_nodes self.old.state (length nodes.old) (requested (terms_of R.Roads S.Stowage self.old.ground) self.old.state number from to figures)) self.old.state self.new.state result }
        ensures state { Settled (rules_of R.Roads S.Stowage self.old.ground) self.old.state nodes.old → Acts (with_nodes self.old.state (length nodes.old) (book_call (terms_of R.Roads S.Stowage self.old.ground) self.old.state number from to figures)) self.old.state self.new.state result }
        ensures nodes { Writes (rules_of R.Roads S.Stowage self.old.ground) self.old.state nodes.old (roomy_vans self.old.state) (is_ok result) self.new.state nodes.new }
    {
        self.require_nodes(nodes)?;
        let booking = self.state.request(self.ground, number, from, to, figures)?;
        let offer = self.best_offer(nodes, booking).ok_or(Refusal::NoVan)?;
        self.state.take(offer.van, booking);
        self.renew(nodes, offer.van, Fresh::Only(number));
        let plan = self.told_plan(nodes, offer.van);
        Ok(told_booked(number, offer, plan))
    }
}
