//! One stop further on a van's walk.
ghost use Rattle.std.specs.Prelude.{◌≡◌, ◌<◌, [], ◌∷◌, Some, None, slice_index_or};
ghost use Rattle.stowage.specs.Together.{stowed};
ghost use Rattle.orders.specs.Bookings.{loads};
ghost use Rattle.orders.specs.Walks.{departs};
ghost use Rattle.growth.specs.Grounds.{rules_of};
ghost use Rattle.growth.specs.Positions.{compact, left_of, fit_together, limits_kept, Sound, Stepped};

use crate::Ground;
use orders::Booking;
use roads::Roads;
use stowage::Stowage;

/// Where a van is in its walk. Its open bookings ascend by number, with gaps.
#[derive(Clone, Copy, Default)]
pub struct Position {
    pub place: u32,
    pub second: u32,
    pub driven: u32,
    pub cost: u32,
    // Kept: a small plain array passed by value, with gaps.
    pub bookings: [Option<Booking>; 4],
}

/// A stop served: its second of service, and the position from which the van drives on.
#[derive(Clone, Copy)]
pub struct Visit {
    pub second: u32,
    pub position: Position,
}

/// What stays open of a booking whose next stop is served when the van has driven so many seconds.
fn left(booking: Booking, driven: u32) -> Option<Booking>
    ensures { result ≡ left_of driven booking }
{
    match booking {
        Booking::Waiting { journey, .. } => Some(Booking::Aboard {
            since: driven,
            journey,
        }),
        Booking::Aboard { .. } => None,
    }
}

/// The second at which a van drives on from a stop that it serves at this second: service takes no time.
pub fn departure(second: u32) -> u32
    ensures { result ≡ departs second }
{
    second
}

/// The hold with all loads aboard, if they fit together.
fn stow_aboard<R: Roads, S: Stowage>(
    ground: Ground<R, S>,
    bookings: &[Option<Booking>],
) -> Option<S::Hold>
    ensures { result ≡ stowed (S.Stowage.stow ground.entry.rule.now) (S.Stowage.empty ground.entry.rule.now) (loads (compact bookings.now)) }
{
    let mut hold = ground.rule.empty();
    for booking in bookings {
        if let Some(Booking::Aboard { journey, .. }) = *booking {
            hold = ground.rule.stow(hold, journey.load)?;
        }
    }
    Some(hold)
}

/// Whether all loads aboard fit together.
pub fn fits<R: Roads, S: Stowage>(ground: Ground<R, S>, bookings: &[Option<Booking>]) -> bool
    ensures { result ≡ fit_together (rules_of R.Roads S.Stowage ground.entry) (compact bookings.now) }
{
    stow_aboard(ground, bookings).is_some()
}

/// At a pickup all loads then aboard fit together; at a drop-off the ride is within its limit.
fn within_limits<R: Roads, S: Stowage>(
    ground: Ground<R, S>,
    booking: Booking,
    driven: u32,
    bookings: &[Option<Booking>],
) -> bool
    ensures { result ≡ limits_kept (rules_of R.Roads S.Stowage ground.entry) booking driven (compact bookings.now) }
{
    match booking {
        Booking::Waiting { .. } => fits(ground, bookings),
        Booking::Aboard { since, journey } => driven.saturating_sub(since) <= journey.ride_limit,
    }
}

/// The visit to the next stop of the i-th booking, if that is open and may be served next.
pub(crate) fn step<R: Roads, S: Stowage>(
    ground: Ground<R, S>,
    position: &Position,
    i: usize,
) -> Option<Visit>
    requires sound { Sound position.now }
    requires within { i < 4 }
    ensures { Stepped (rules_of R.Roads S.Stowage ground.entry) position.now (slice_index_or position.now.bookings i None) result }
{
    let booking = position.bookings[i]?;
    let stop = booking.next_stop();
    let leg = ground.roads.seconds(position.place, stop.place)?;
    let arrival = position.second.checked_add(leg)?;
    let second = arrival.max(stop.window.opens);
    if second > stop.window.closes {
        return None;
    }
    let driven = position.driven + leg;
    let mut bookings = position.bookings;
    bookings[i] = left(booking, driven);
    if !within_limits(ground, booking, driven, &bookings) {
        return None;
    }
    Some(Visit {
        second,
        position: Position {
            place: stop.place,
            second: departure(second),
            driven,
            cost: position.cost + leg,
            bookings,
        },
    })
}
