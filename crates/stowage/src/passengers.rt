//! The passengers' rule: seats and wheelchairs, and a ride no longer than the direct road and its detour.
ghost use Rattle.std.specs.Prelude.{◌≡◌, ◌≤◌, refl};
ghost use Rattle.stowage.specs.Passengers.{seat, vacant, seated as taken, passenger_promise, ride_limit};
ghost use Rattle.stowage.specs.Limits.{seating_room};
ghost use Rattle.stowage.specs.declared.seating.Seating.{Seating};
ghost use Rattle.stowage.specs.Sums.{sums_exchange, seating_falls};
ghost use Rattle.stowage.specs.Judged.{passengers_keep};

use crate::{
    BadFigure, LONGEST_TRIP, Load, Promise, Seating, Stowage, WEEK, Window, require_figure,
};

/// Figures: seats, wheelchairs, ready, wait, detour percent, last arrival.
#[derive(Clone, Copy, PartialEq, Eq, Debug)]
pub struct Passengers;

/// The hold with so many seats and wheelchairs taken, if they keep the limits.
fn seated(seats: u32, wheelchairs: u32) -> Option<Seating>
    ensures { result ≡ taken seats wheelchairs }
{
    // Kept: the hold is made where the test of its limits is known.
    if wheelchairs <= 2 && seats <= 8 && seats + 2 * wheelchairs <= 8 {
        Some(Seating { seats, wheelchairs })
    } else {
        None
    }
}

/// The direct road and its detour in percent, rounded down.
#[tactic(auto, using(crate::specs::Judged::product_bound))]
fn ride_limit(direct: u32, percent: u32) -> u32
    requires { percent ≤ 300 }
    ensures { result ≡ ride_limit direct percent }
{
    let direct = direct.min(LONGEST_TRIP);
    direct + direct * percent / 100
}

impl Stowage for Passengers {
    type Hold = Seating;

    ghost empty = { λ _. vacant };

    ghost stow = { λ _. seat };

    ghost promise = { λ _. passenger_promise };

    ghost exchange = { λ s.
        sums_exchange seating_room (λ (h : Seating). h.seats) (λ h. h.wheelchairs) (λ a b room. record { seats = a; wheelchairs = b; room = room })
        (λ a b t. refl) (λ a b t. refl) seating_falls };

    ghost keeps = { λ s. passengers_keep };

    fn empty(&self) -> Seating {
        Seating {
            seats: 0,
            wheelchairs: 0,
        }
    }

    fn stow(&self, hold: Seating, load: Load) -> Option<Seating> {
        seated(
            hold.seats + u32::from(load.first),
            hold.wheelchairs + u32::from(load.second),
        )
    }

    fn promise(&self, figures: [u32; 6], direct: u32) -> Result<Promise, BadFigure> {
        let [seats, wheelchairs, ready, wait, percent, arrive_by] = figures;
        require_figure(seats <= 8, 1)?;
        require_figure(wheelchairs <= 2 && (seats > 0 || wheelchairs > 0), 2)?;
        require_figure(ready <= WEEK, 3)?;
        require_figure(wait <= 7_200 && ready + wait <= WEEK, 4)?;
        require_figure(percent <= 300, 5)?;
        require_figure(arrive_by <= WEEK, 6)?;
        Ok(Promise {
            // Kept: the tests above say that both fit.
            load: Load {
                first: seats as u16,
                second: wheelchairs as u16,
            },
            pickup: Window {
                opens: ready,
                closes: ready + wait,
            },
            dropoff: Window {
                opens: 0,
                closes: arrive_by,
            },
            ride_limit: ride_limit(direct, percent),
        })
    }
}
