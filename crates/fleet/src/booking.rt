//! A booking that is asked for, and the van that takes it.
ghost use Rattle.std.specs.Prelude.{◌≡◌, ◌<◌, true, ◌&&◌, length, nat_le};
ghost use Rattle.fleet.specs.Slots.{slots};
ghost use Rattle.fleet.specs.Terms.{terms_of};
ghost use Rattle.fleet.specs.States.{is_van, open_bookings, requested, taking, taken};
ghost use Rattle.fleet.specs.SoundTest.{is_sound};

use crate::slots::insert_booking;
use crate::{Refusal, State, Van, holder};
use growth::Ground;
use orders::{Booking, Journey, Stop};
use quotes::quote;
use roads::Roads;
use stowage::{Stowage, require};

/// The highest booking number.
const LAST_NUMBER: u32 = 65_535;

impl Van {
    /// The van with one booking more, where one of its four places is free.
    pub fn taking(self, booking: Booking) -> Van
        ensures { self.bookings ≡ slots (open_bookings self) → length (open_bookings self) < 4 → result ≡ taking self booking }
    {
        Van {
            bookings: insert_booking(self.bookings, booking),
            ..self
        }
    }
}

impl State {
    /// The booking that is asked for, as it is promised, or why it cannot be had on any van.
    pub fn request<R: Roads, S: Stowage>(
        &self,
        ground: Ground<R, S>,
        number: u32,
        from: u32,
        to: u32,
        figures: [u32; 6],
    ) -> Result<Booking, Refusal>
        ensures { result ≡ requested (terms_of R.Roads S.Stowage ground.entry) self.now number from to figures }
    {
        require(is_number(number), Refusal::BadNumber)?;
        require(holder(&self.vans, number).is_none(), Refusal::AlreadyOpen)?;
        let promise = quote(ground.roads, ground.rule, from, to, figures)?;
        Ok(Booking::Waiting {
            pickup: Stop {
                place: from,
                window: promise.pickup,
            },
            journey: Journey {
                number,
                dropoff: Stop {
                    place: to,
                    window: promise.dropoff,
                },
                load: promise.load,
                ride_limit: promise.ride_limit,
            },
        })
    }

    /// The van of that number takes a booking, if it is on duty and has fewer open bookings than the limit.
    pub fn take(&mut self, van: u32, booking: Booking)
        requires sound { is_sound self.old ≡ true }
        requires within { is_van self.old van ≡ true }
        ensures { self.new ≡ taken self.old van booking }
    {
        if let Some(w) = self.van(van) {
            if w.open_count() < self.open_limit {
                self.put(van, Some(w.taking(booking)));
            }
        }
    }
}

/// Whether a booking may have this number.
fn is_number(number: u32) -> bool
    ensures { result ≡ nat_le 1 number && nat_le number 65535 }
{
    1 <= number && number <= LAST_NUMBER
}
