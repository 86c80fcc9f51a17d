//! What a line is answered, and its text.
ghost use Rattle.std.specs.Prelude.{◌≡◌, Some};
ghost use Rattle.console.specs.Replies.{told, reply_text};

use crate::Refusal;
use quotes::QuoteFault;
use std::fmt;
use stowage::Promise;

/// What a line is answered.
#[derive(Clone, Copy, Debug)]
pub enum Reply {
    Nothing,
    NotUnderstood,
    Done,
    Refused(Refusal),
    Promised(Promise),
}

impl From<Result<Promise, QuoteFault>> for Reply {
    ghost from_gives = { λ quoted reply. reply ≡ told quoted };

    fn from(quoted: Result<Promise, QuoteFault>) -> Reply {
        match quoted {
            Ok(promise) => Reply::Promised(promise),
            Err(fault) => Reply::Refused(fault.into()),
        }
    }
}

impl fmt::Display for Reply {
    ghost output = { λ r. Some (reply_text r) };

    fn fmt<W: fmt::Write>(&self, f: &mut fmt::Formatter<W>) -> fmt::Result {
        match *self {
            Reply::Nothing => Ok(()),
            Reply::NotUnderstood => write!(f, "not understood"),
            Reply::Done => write!(f, "done"),
            Reply::Refused(refusal) => write!(f, "{refusal}"),
            Reply::Promised(p) => write!(
                f,
                "load {} {} pickup {} to {} drop {} to {} ride {}",
                p.load.first,
                p.load.second,
                p.pickup.opens,
                p.pickup.closes,
                p.dropoff.opens,
                p.dropoff.closes,
                p.ride_limit
            ),
        }
    }
}
