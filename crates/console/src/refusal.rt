//! The number and the detail by which a refusal is told.
ghost use Rattle.std.specs.Prelude.{◌≡◌, Some};
ghost use Rattle.console.specs.Refusals.{road_refusal, quote_refusal, refusal_text};

use quotes::QuoteFault;
use roads::RoadFault;
use std::fmt;

/// The number of a refusal, and a detail, 0 where it has none.
#[derive(Clone, Copy, PartialEq, Eq, Debug)]
pub struct Refusal {
    // Kept: the rules tell each refusal by a number and a detail; what is refused is an enum until it is told.
    pub number: u32,
    pub detail: u32,
}

impl From<RoadFault> for Refusal {
    ghost from_gives = { λ fault refusal. refusal ≡ road_refusal fault };

    fn from(fault: RoadFault) -> Refusal {
        Refusal {
            number: fault.number(),
            detail: fault.detail(),
        }
    }
}

impl From<QuoteFault> for Refusal {
    ghost from_gives = { λ fault refusal. refusal ≡ quote_refusal fault };

    fn from(fault: QuoteFault) -> Refusal {
        match fault {
            // Kept: the calls' refusals, which have these numbers too, are of a crate that a plain day does not need.
            QuoteFault::Place(place) => Refusal {
                number: 11,
                detail: place,
            },
            QuoteFault::Figure(position) => Refusal {
                number: 17,
                detail: position,
            },
        }
    }
}

impl fmt::Display for Refusal {
    ghost output = { λ r. Some (refusal_text r) };

    fn fmt<W: fmt::Write>(&self, f: &mut fmt::Formatter<W>) -> fmt::Result {
        match *self {
            Refusal { number, detail: 0 } => write!(f, "refused {number}"),
            Refusal { number, detail } => write!(f, "refused {number} detail {detail}"),
        }
    }
}
