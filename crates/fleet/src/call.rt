//! The calls that a running dispatcher takes, and what it answers.
use crate::Refusal;
use orders::StopKind;
use van_slab::Itinerary;

/// A call to a running dispatcher.
#[derive(Clone, Copy)]
pub enum Call {
    Clock {
        time: u32,
    },
    Join {
        van: u32,
        place: u32,
        time: u32,
    },
    Leave {
        van: u32,
    },
    Book {
        number: u32,
        from: u32,
        to: u32,
        figures: [u32; 6],
    },
    Bound {
        van: u32,
        place: u32,
        time: u32,
    },
    Served {
        van: u32,
        number: u32,
        time: u32,
    },
    Cancel {
        number: u32,
    },
    Plan {
        van: u32,
    },
    Order {
        van: u32,
        index: u32,
    },
}

/// Where a booking went: its van, its price there, and the seconds of its two stops in that van's new plan.
#[derive(Clone, Copy, PartialEq, Eq, Debug)]
pub struct Booked {
    pub van: u32,
    pub price: u32,
    pub pickup: u32,
    pub dropoff: u32,
}

/// What an accepted call reports.
#[derive(Clone, Copy, PartialEq, Eq, Debug)]
pub enum Report {
    /// There is nothing to tell.
    Done,
    Booked(Booked),
    /// A stop was served: its kind, the seconds that it was late, and the road seconds by which its ride was over its limit.
    Served {
        kind: StopKind,
        late: u32,
        over: u32,
    },
    /// An order of a van.
    Listed(Itinerary),
}

/// What a call is answered: a report where it is accepted, else why it is refused.
pub type Answer = Result<Report, Refusal>;

/// A van, by its number, offers to take a booking at a price.
#[derive(Clone, Copy, PartialEq, Eq, Debug)]
pub struct Offer {
    pub van: u32,
    pub price: u32,
}
