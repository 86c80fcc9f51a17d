//! A fault of a quote refuses the booking that asks for it.
ghost use Rattle.std.specs.Prelude.{◌≡◌};
ghost use Rattle.fleet.specs.Quotes.{fault_refusal};

use crate::Refusal;
use quotes::QuoteFault;

impl From<QuoteFault> for Refusal {
    ghost from_gives = { λ fault refusal. refusal ≡ fault_refusal fault };

    fn from(fault: QuoteFault) -> Refusal {
        match fault {
            QuoteFault::Place(place) => Refusal::NoSuchPlace { place },
            QuoteFault::Figure(position) => Refusal::BadFigure { position },
        }
    }
}
