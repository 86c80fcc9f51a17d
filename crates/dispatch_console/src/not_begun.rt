//! Why a day does not begin.
ghost use Rattle.std.specs.Prelude.{◌≡◌};
ghost use Rattle.dispatch_console.specs.Replies.{refusal_reply};
ghost use Rattle.dispatch_console.specs.declared.not_begun.NotBegun.TheVariants.{Refused, OutOfMemory};

use crate::Reply;
use fleet::Refusal;
use std::alloc::AllocError;

/// Why a day does not begin.
#[derive(Clone, Copy, Debug)]
pub enum NotBegun {
    /// The dispatcher is not made: what is answered.
    Refused(Reply),
    /// There is no memory for its nodes.
    OutOfMemory(AllocError),
}

impl From<Refusal> for NotBegun {
    ghost from_gives = { λ refusal why. why ≡ Refused (refusal_reply refusal) };

    fn from(refusal: Refusal) -> NotBegun {
        NotBegun::Refused(refusal.into())
    }
}

impl From<AllocError> for NotBegun {
    ghost from_gives = { λ error why. why ≡ OutOfMemory error };

    fn from(error: AllocError) -> NotBegun {
        NotBegun::OutOfMemory(error)
    }
}
