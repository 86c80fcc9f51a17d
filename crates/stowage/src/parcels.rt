//! The parcels' rule: litres and kilograms, and four times of the week.
ghost use Rattle.std.specs.Prelude.{◌≡◌, refl};
ghost use Rattle.stowage.specs.Parcels.{lift, bare, lifted as taken, parcel_promise};
ghost use Rattle.stowage.specs.Limits.{cargo_room};
ghost use Rattle.stowage.specs.declared.cargo.Cargo.{Cargo};
ghost use Rattle.stowage.specs.Sums.{sums_exchange, cargo_falls};
ghost use Rattle.stowage.specs.Judged.{parcels_keep};

use crate::{BadFigure, Cargo, Load, Promise, Stowage, WEEK, Window, require_figure};

/// Figures: litres, kilograms, pickup opens, pickup closes, drop-off opens, drop-off closes.
#[derive(Clone, Copy, PartialEq, Eq, Debug)]
pub struct Parcels;

/// The hold with so many litres and kilograms, if they keep the limits.
fn lifted(litres: u32, kilograms: u32) -> Option<Cargo>
    ensures { result ≡ taken litres kilograms }
{
    // Kept: the hold is made where the test of its limits is known.
    if litres <= 6_000 && kilograms <= 900 {
        Some(Cargo { litres, kilograms })
    } else {
        None
    }
}

impl Stowage for Parcels {
    type Hold = Cargo;

    ghost empty = { λ _. bare };

    ghost stow = { λ _. lift };

    ghost promise = { λ _. parcel_promise };

    ghost exchange = { λ s.
        sums_exchange cargo_room (λ (h : Cargo). h.litres) (λ h. h.kilograms) (λ a b room. record { litres = a; kilograms = b; room = room })
        (λ a b t. refl) (λ a b t. refl) cargo_falls };

    ghost keeps = { λ s. parcels_keep };

    fn empty(&self) -> Cargo {
        Cargo {
            litres: 0,
            kilograms: 0,
        }
    }

    fn stow(&self, hold: Cargo, load: Load) -> Option<Cargo> {
        lifted(
            hold.litres + u32::from(load.first),
            hold.kilograms + u32::from(load.second),
        )
    }

    fn promise(&self, figures: [u32; 6], _direct: u32) -> Result<Promise, BadFigure> {
        let [
            litres,
            kilograms,
            pickup_opens,
            pickup_closes,
            drop_opens,
            drop_closes,
        ] = figures;
        require_figure(matches!(litres, 1..=6_000), 1)?;
        require_figure(matches!(kilograms, 1..=900), 2)?;
        require_figure(pickup_opens <= WEEK, 3)?;
        require_figure(pickup_opens <= pickup_closes && pickup_closes <= WEEK, 4)?;
        require_figure(drop_opens <= WEEK, 5)?;
        require_figure(drop_opens <= drop_closes && drop_closes <= WEEK, 6)?;
        Ok(Promise {
            // Kept: the tests above say that both fit.
            load: Load {
                first: litres as u16,
                second: kilograms as u16,
            },
            pickup: Window {
                opens: pickup_opens,
                closes: pickup_closes,
            },
            dropoff: Window {
                opens: drop_opens,
                closes: drop_closes,
            },
            ride_limit: WEEK,
        })
    }
}
