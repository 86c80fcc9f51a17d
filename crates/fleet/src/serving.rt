//! A van serves a stop: what is checked, what changes, what is told.
ghost use Rattle.std.specs.Prelude.{◌≡◌, true, ◌&&◌, nat_le};
ghost use Rattle.growth.specs.Grounds.{rules_of};
ghost use Rattle.growth.specs.Positions.{compact};
ghost use Rattle.fleet.specs.States.{served_call, fits_aboard, over_by, service_of, Acts};
ghost use Rattle.fleet.specs.SoundTest.{is_sound};

use crate::slots::{Slots, find_booking, serve_booking};
use crate::{Refusal, State, Van};
use growth::{Ground, departure, fits};
use orders::{Booking, Stop, StopKind};
use roads::Roads;
use stowage::{Stowage, WEEK, require};

impl State {
    /// A van has served the next stop of a booking, at this time: tells the kind of the stop, the seconds late, and the road
    /// seconds over the ride limit.
    pub fn served<R: Roads, S: Stowage>(
        &mut self,
        ground: Ground<R, S>,
        van: u32,
        n: u32,
        time: u32,
        // Kept: three plain values.
    ) -> Result<(StopKind, u32, u32), Refusal>
        requires { is_sound self.old ≡ true }
        ensures { Acts (served_call (rules_of R.Roads S.Stowage ground.entry) self.old van n time) self.old self.new result }
    {
        let serving = self.on_duty(van)?;
        let booking = find_booking(serving.bookings, n).ok_or(Refusal::NotOpen)?;
        let stop = booking.next_stop();
        require(serving.place == stop.place, Refusal::NotThere)?;
        require(time <= WEEK, Refusal::BeyondWeek)?;
        require(is_due(serving, stop, time), Refusal::TooEarly)?;
        let bookings = serve_booking(serving.bookings, n, serving.driven);
        require(fits_aboard(ground, booking, bookings), Refusal::DoesNotFit)?;
        let served = Van {
            second: departure(time),
            bookings,
            ..serving
        };
        self.put(van, Some(served));
        Ok(service(serving, booking, time))
    }
}

/// Whether a van may serve a stop at this time: it is there, and the stop is open.
fn is_due(van: Van, stop: Stop, time: u32) -> bool
    ensures { result ≡ nat_le van.second time && nat_le stop.window.opens time }
{
    van.second <= time && stop.window.opens <= time
}

/// Whether, at a pickup, the loads then aboard fit together.
fn fits_aboard<R: Roads, S: Stowage>(ground: Ground<R, S>, booking: Booking, then: Slots) -> bool
    ensures { result ≡ fits_aboard (rules_of R.Roads S.Stowage ground.entry) booking (compact then) }
{
    match booking {
        Booking::Waiting { .. } => fits(ground, &then),
        Booking::Aboard { .. } => true,
    }
}

/// The road seconds by which a ride that ends here is over its limit.
fn over_by(driven: u32, booking: Booking) -> u32
    ensures { result ≡ over_by driven booking }
{
    match booking {
        Booking::Waiting { .. } => 0,
        Booking::Aboard { since, journey } => driven
            .saturating_sub(since)
            .saturating_sub(journey.ride_limit),
    }
}

/// What is told of a stop that a van serves at this time.
fn service(van: Van, booking: Booking, time: u32) -> (StopKind, u32, u32)
    ensures { result ≡ service_of van booking time }
{
    let closes = booking.next_stop().window.closes;
    (
        booking.kind(),
        time.saturating_sub(closes),
        over_by(van.driven, booking),
    )
}
