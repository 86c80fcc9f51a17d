//! The present state.
ghost use Rattle.std.specs.Prelude.{◌≡◌, ◌<◌, true, map, length, IfSome, Some};
ghost use Rattle.fleet.specs.States.{open_bookings, position_of, is_van, van_at, on_duty, with_van, open_on, holder_of, waited, clock_call, join_call, leave_call, bound_call, cancel_call, Changes};
ghost use Rattle.fleet.specs.Sound.{Sound};

use crate::Refusal;
use crate::slots::{count_bookings, find_booking, remove_booking};
use growth::Position;
use orders::{Booking, StopKind};
use roads::Roads;
use stowage::{WEEK, require};

/// A van on duty: the place where it can next turn, the second at which it is there, the road seconds that it has
/// driven, and its open bookings, ascending by number, the unused places behind them.
#[derive(Clone, Copy)]
pub struct Van {
    pub place: u32,
    pub second: u32,
    pub driven: u32,
    // Kept: a small plain array passed by value, so that a van is `Copy`.
    pub bookings: [Option<Booking>; 4],
}

/// The present state: so many vans, by number from 1, none where one is off duty.
// Kept: this is the plain record in which the calls are defined; were it sound by a ghost field, each definition of what a call
// changes would carry a proof. The dispatcher above has that field. So the open limit is its number here.
#[derive(Clone, Copy)]
pub struct State {
    // Kept: a plain array, the places beyond this number unused, so that a state is `Copy`.
    pub size: u32,
    pub open_limit: u32,
    pub clock: u32,
    pub vans: [Option<Van>; 32],
}

impl Van {
    /// The position from which the van's tree grows.
    pub fn position(self) -> Position
        ensures { result ≡ position_of self }
    {
        let bookings = self.bookings;
        Position {
            place: self.place,
            second: self.second,
            driven: self.driven,
            cost: 0,
            bookings,
        }
    }

    /// How many bookings are open.
    pub fn open_count(self) -> u32
        ensures { result ≡ length (open_bookings self) }
    {
        count_bookings(self.bookings)
    }
}

impl State {
    /// Whether there is a van of that number.
    pub fn is_van(&self, van: u32) -> bool
        ensures { result ≡ is_van self.now van }
    {
        1 <= van && van <= self.size && van <= 32
    }

    /// The van of that number, if it is on duty.
    pub fn van(&self, number: u32) -> Option<Van>
        ensures { result ≡ van_at self.now number }
    {
        *self.vans.get((number as usize).saturating_sub(1))?
    }

    /// The van of that number, which has to be on duty.
    pub fn on_duty(&self, van: u32) -> Result<Van, Refusal>
        ensures { result ≡ on_duty self.now van }
    {
        require(self.is_van(van), Refusal::NoSuchVan)?;
        self.van(van).ok_or(Refusal::OffDuty)
    }

    /// Another van, or none, takes the place of that number.
    pub(crate) fn put(&mut self, van: u32, slot: Option<Van>)
        requires { is_van self.old van ≡ true }
        ensures { self.new ≡ with_van self.old van slot }
    {
        self.vans[van as usize - 1] = slot;
    }

    /// The clock moves on, and each van on duty whose time is below it with it.
    pub fn clock(&mut self, time: u32) -> Result<(), Refusal>
        ensures { Changes (clock_call self.old time) self.old self.new result }
    {
        require(time <= WEEK, Refusal::BeyondWeek)?;
        require(self.clock <= time, Refusal::TooEarly)?;
        self.clock = time;
        self.wait_all(time);
        Ok(())
    }

    /// Each van on duty is at this time at least.
    fn wait_all(&mut self, time: u32)
        ensures { self.new ≡ record { size = self.old.size; open_limit = self.old.open_limit; clock = self.old.clock; vans = map (waited time) self.old.vans } }
    {
        for slot in self.vans.iter_mut() {
            wait(slot, time);
        }
    }

    /// A van comes on duty.
    pub fn join(&mut self, places: u32, van: u32, place: u32, time: u32) -> Result<(), Refusal>
        ensures { Changes (join_call self.old places van place time) self.old self.new result }
    {
        require(self.is_van(van), Refusal::NoSuchVan)?;
        require(self.van(van).is_none(), Refusal::OnDuty)?;
        require(place < places, Refusal::NoSuchPlace { place })?;
        require(time <= WEEK, Refusal::BeyondWeek)?;
        require(self.clock <= time, Refusal::TooEarly)?;
        let joined = Van {
            place,
            second: time,
            driven: 0,
            bookings: [None; 4],
        };
        self.put(van, Some(joined));
        Ok(())
    }

    /// A van goes off duty.
    pub fn leave(&mut self, van: u32) -> Result<(), Refusal>
        ensures { Changes (leave_call self.old van) self.old self.new result }
    {
        let leaving = self.on_duty(van)?;
        require(leaving.bookings[0].is_none(), Refusal::HasBookings)?;
        self.put(van, None);
        Ok(())
    }

    /// A van is bound for a place, where it can next turn at this time.
    pub fn bound<R: Roads>(
        &mut self,
        roads: &R,
        van: u32,
        place: u32,
        time: u32,
    ) -> Result<(), Refusal>
        requires { Sound self.old }
        ensures { Changes (bound_call self.old (R.Roads.places roads.now) (R.Roads.trip roads.now) van place time) self.old self.new result }
    {
        let driving = self.on_duty(van)?;
        let leg = roads
            .seconds(driving.place, place)
            .ok_or(Refusal::NoSuchPlace { place })?;
        require(time <= WEEK, Refusal::BeyondWeek)?;
        require(
            u64::from(driving.second) + u64::from(leg) <= u64::from(time),
            Refusal::TooEarly,
        )?;
        let bound = Van {
            place,
            second: time,
            driven: driving.driven + leg,
            ..driving
        };
        self.put(van, Some(bound));
        Ok(())
    }

    /// The waiting booking of this number is gone.
    pub fn cancel(&mut self, n: u32) -> Result<(), Refusal>
        requires { Sound self.old }
        ensures { Changes (cancel_call self.old n) self.old self.new result }
    {
        let (i, booking) = holder(&self.vans, n).ok_or(Refusal::NotOpen)?;
        require(booking.kind() == StopKind::Pickup, Refusal::Aboard)?;
        let van = self.vans[i].ok_or(Refusal::OffDuty)?;
        self.vans[i] = Some(Van {
            bookings: remove_booking(van.bookings, n),
            ..van
        });
        Ok(())
    }
}

/// A van on duty is at this time at least. Only its second is written, so that no van is copied.
fn wait(slot: &mut Option<Van>, time: u32)
    ensures { slot.new ≡ waited time slot.old }
{
    if let Some(van) = slot {
        van.second = van.second.max(time);
    }
}

/// The booking of this number that is open on a van.
fn open_on(slot: Option<Van>, n: u32) -> Option<Booking>
    ensures { result ≡ open_on n slot }
{
    find_booking(slot?.bookings, n)
}

/// The first van, by its place from 0, on which the booking of this number is open, and the booking.
pub fn holder(vans: &[Option<Van>; 32], n: u32) -> Option<(usize, Booking)>
    ensures value { result ≡ holder_of n 0 vans.now }
    ensures within { IfSome result (λ h. h.0 < 32) }
{
    for (i, slot) in vans.iter().enumerate() {
        if let Some(booking) = open_on(*slot, n) {
            return Some((i, booking));
        }
    }
    None
}
