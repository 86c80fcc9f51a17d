//! Why a call is refused.
ghost use Rattle.std.specs.Prelude.{◌≡◌};
ghost use Rattle.fleet.specs.Refusals.{refusal_number, refusal_detail};

/// Why a call is refused.
#[derive(Clone, Copy, PartialEq, Eq, Debug)]
pub enum Refusal {
    /// The number of vans is outside 1 to 32.
    VanCount,
    /// The open limit is outside 1 to 4.
    OpenLimit,
    /// There are fewer nodes than one slab for each van and one more.
    TooFewNodes,
    /// A time lies beyond the week.
    BeyondWeek,
    /// There is no van of that number.
    NoSuchVan,
    OnDuty,
    OffDuty,
    NoSuchPlace { place: u32 },
    /// A time is below what it must reach.
    TooEarly,
    HasBookings,
    /// A booking's number is outside 1 to 65,535.
    BadNumber,
    AlreadyOpen,
    NotOpen,
    BadFigure { position: u32 },
    /// No van can take the booking.
    NoVan,
    /// The booking is aboard.
    Aboard,
    /// The van is not at the stop's place.
    NotThere,
    /// The load does not fit those aboard.
    DoesNotFit,
    /// There is no such order, or no valid one.
    NoOrder,
}

impl Refusal {
    /// The number by which the refusal is known.
    pub fn number(self) -> u32
        ensures { result ≡ refusal_number self }
    {
        match self {
            Refusal::VanCount => 1,
            Refusal::OpenLimit => 2,
            Refusal::TooFewNodes => 3,
            Refusal::BeyondWeek => 7,
            Refusal::NoSuchVan => 8,
            Refusal::OnDuty => 9,
            Refusal::OffDuty => 10,
            Refusal::NoSuchPlace { .. } => 11,
            Refusal::TooEarly => 12,
            Refusal::HasBookings => 13,
            Refusal::BadNumber => 14,
            Refusal::AlreadyOpen => 15,
            Refusal::NotOpen => 16,
            Refusal::BadFigure { .. } => 17,
            Refusal::NoVan => 18,
            Refusal::Aboard => 19,
            Refusal::NotThere => 20,
            Refusal::DoesNotFit => 21,
            Refusal::NoOrder => 22,
        }
    }

    /// The place or the figure that is meant, 0 where there is none.
    pub fn detail(self) -> u32
        ensures { result ≡ refusal_detail self }
    {
        match self {
            Refusal::NoSuchPlace { place } => place,
            Refusal::BadFigure { position } => position,
            _ => 0,
        }
    }
}
