//! The four places for a van's open bookings: those that are taken come first, ascending by number.
ghost use Rattle.std.specs.Prelude.{◌≡◌, ℕ, ◌<◌, ◌≤◌, List, length};
ghost use Rattle.orders.specs.declared.Booking.{Booking as Open};
ghost use Rattle.orders.specs.Bookings.{insert, remove, served};
ghost use Rattle.growth.specs.Positions.{compact};
ghost use Rattle.fleet.specs.Slots.{slots, stays_before, is_numbered, place_of, place_for, numbered, exchanged};

use orders::Booking;

/// Four places for open bookings.
pub type Slots = [Option<Booking>; 4];

/// Whether a place is taken by a booking that stays before one of this number.
fn stays_before(slot: &Option<Booking>, n: u32) -> bool
    ensures { result ≡ stays_before n slot.now }
{
    slot.is_some_and(|booking| booking.number() <= n)
}

/// Whether a place is taken by the booking of this number.
fn is_numbered(slot: &Option<Booking>, n: u32) -> bool
    ensures { result ≡ is_numbered n slot.now }
{
    slot.is_some_and(|booking| booking.number() == n)
}

/// The place of the booking of this number.
fn place_of(held: &Slots, n: u32) -> Option<usize>
    ensures { result ≡ place_of n held.now }
{
    held.iter().position(|slot| is_numbered(slot, n))
}

/// The first place that has no booking that stays before one of this number.
fn place_for(held: &Slots, n: u32) -> Option<usize>
    ensures { result ≡ place_for n held.now }
{
    held.iter().position(|slot| !stays_before(slot, n))
}

/// The bookings with one more, at its place by number, where one of the four places is free.
pub fn insert_booking(mut held: Slots, booking: Booking) -> Slots
    ensures { (bs : List Open) → held ≡ slots bs → length bs < 4 → result ≡ slots (insert booking bs) }
{
    let at = place_for(&held, booking.number()).unwrap_or(3);
    held[at..].rotate_right(1);
    held[at] = Some(booking);
    held
}

/// The bookings without the one of this number.
pub fn remove_booking(mut held: Slots, n: u32) -> Slots
    ensures { (bs : List Open) → held ≡ slots bs → length bs ≤ 4 → result ≡ slots (remove n bs) }
{
    if let Some(at) = place_of(&held, n) {
        held[at] = None;
        held[at..].rotate_left(1);
    }
    held
}

/// The open booking of this number.
pub fn find_booking(held: Slots, n: u32) -> Option<Booking>
    ensures { result ≡ numbered n (compact held) }
{
    held[place_of(&held, n)?]
}

/// The bookings with another in place of the one of this number.
fn exchange(mut held: Slots, n: u32, other: Booking) -> Slots
    ensures { (bs : List Open) → held ≡ slots bs → length bs ≤ 4 → result ≡ slots (exchanged n other bs) }
{
    if let Some(at) = place_of(&held, n) {
        held[at] = Some(other);
    }
    held
}

/// The bookings once the next stop of the one of this number is served, the van having driven so many seconds: one that
/// waits is then aboard, one aboard is gone.
pub fn serve_booking(held: Slots, n: u32, driven: u32) -> Slots
    ensures { (bs : List Open) → held ≡ slots bs → length bs ≤ 4 → result ≡ slots (served driven n bs) }
{
    let Some(booking) = find_booking(held, n) else {
        return held;
    };
    match booking {
        Booking::Waiting { journey, .. } => {
            let aboard = Booking::Aboard {
                since: driven,
                journey,
            };
            exchange(held, n, aboard)
        }
        Booking::Aboard { .. } => remove_booking(held, n),
    }
}

/// How many bookings there are.
pub fn count_bookings(held: Slots) -> u32
    ensures { result ≡ length (compact held) }
{
    held.iter().filter(|slot| slot.is_some()).count() as u32
}
