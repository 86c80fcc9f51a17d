//! What a line is answered, and its text.
ghost use Rattle.std.specs.Prelude.{◌≡◌, Some};
ghost use Rattle.std.specs.Fmt.{WritesOnOk};
ghost use Rattle.dispatch_console.specs.Replies.{answer_reply, refusal_reply};
ghost use Rattle.dispatch_console.specs.Texts.{kind_text, stop_text, more_text, stops_text, itinerary_text, report_text, help_text, reply_text};
ghost use Rattle.dispatch_console.specs.declared.reply.Reply.TheVariants.{Plain};

use fleet::{Answer, Booked, Refusal, Report};
use orders::StopKind;
use std::fmt;
use van_slab::{Itinerary, Visit};

/// What a line is answered.
#[derive(Clone, Copy, Debug)]
pub enum Reply {
    /// What a day without a dispatcher answers too.
    Plain(console::Reply),
    Help,
    /// What an accepted call reports.
    Reported(Report),
}

impl From<console::Reply> for Reply {
    ghost from_gives = { λ plain reply. reply ≡ Plain plain };

    fn from(plain: console::Reply) -> Reply {
        Reply::Plain(plain)
    }
}

impl From<Refusal> for Reply {
    ghost from_gives = { λ refusal reply. reply ≡ refusal_reply refusal };

    fn from(refusal: Refusal) -> Reply {
        Reply::Plain(console::Reply::Refused(console::Refusal {
            number: refusal.number(),
            detail: refusal.detail(),
        }))
    }
}

impl From<Answer> for Reply {
    ghost from_gives = { λ answer reply. reply ≡ answer_reply answer };

    fn from(answer: Answer) -> Reply {
        match answer {
            Ok(report) => Reply::Reported(report),
            Err(refusal) => refusal.into(),
        }
    }
}

// Kept: no `Display`, since the types are other crates' and their text is this console's.
/// Writes what the program knows.
fn write_help<W: fmt::Write>(f: &mut fmt::Formatter<W>) -> fmt::Result
    ensures { WritesOnOk W.Write.write_str_gives f.old result help_text f.new }
{
    f.write_str(
        "set up: table,P,n,.. grid,W,H,E,S rule,passengers rule,parcels nodes,N make,V,K\n\
        ask: quote,from,to,f1,f2,f3,f4,f5,f6\n\
        call: clock,T join,van,place,T leave,van book,number,from,to,f1,f2,f3,f4,f5,f6\n\
        call: bound,van,place,T served,van,number,T cancel,number plan,van order,van,i",
    )
}

/// What a stop is called.
fn kind_name(kind: StopKind) -> &'static str
    ensures { result.now ≡ kind_text kind }
{
    match kind {
        StopKind::Pickup => "pickup",
        StopKind::DropOff => "drop",
    }
}

/// Writes a stop after a mark.
fn write_stop<W: fmt::Write>(f: &mut fmt::Formatter<W>, mark: &str, visit: Visit) -> fmt::Result
    ensures { WritesOnOk W.Write.write_str_gives f.old result (stop_text mark.now visit) f.new }
{
    let Visit {
        booking,
        second,
        ..
    } = visit;
    let name = kind_name(visit.stop_kind());
    write!(f, "{mark}{booking} {name} {second}")
}

/// Writes stops, each after a comma.
fn write_more<W: fmt::Write>(f: &mut fmt::Formatter<W>, visits: &[Visit]) -> fmt::Result
    ensures { WritesOnOk W.Write.write_str_gives f.old result (more_text visits.now) f.new }
{
    for visit in visits {
        write_stop(f, ", ", *visit)?;
    }
    Ok(())
}

/// Writes stops, the first after a colon and each other one after a comma.
fn write_stops<W: fmt::Write>(f: &mut fmt::Formatter<W>, visits: &[Visit]) -> fmt::Result
    ensures { WritesOnOk W.Write.write_str_gives f.old result (stops_text visits.now) f.new }
{
    match visits {
        [] => Ok(()),
        [first, rest @ ..] => {
            write_stop(f, ": ", *first)?;
            write_more(f, rest)
        }
    }
}

/// Writes an order's cost and its stops.
fn write_itinerary<W: fmt::Write>(f: &mut fmt::Formatter<W>, itinerary: Itinerary) -> fmt::Result
    ensures { WritesOnOk W.Write.write_str_gives f.old result (itinerary_text itinerary) f.new }
{
    let Itinerary {
        cost,
        stops,
        visits,
    } = itinerary;
    write!(f, "cost {cost} stops {stops}")?;
    let used = (stops as usize).min(visits.len());
    write_stops(f, &visits[0..used])
}

/// Writes what an accepted call reports.
fn write_report<W: fmt::Write>(f: &mut fmt::Formatter<W>, report: Report) -> fmt::Result
    ensures { WritesOnOk W.Write.write_str_gives f.old result (report_text report) f.new }
{
    match report {
        Report::Done => write!(f, "done"),
        Report::Booked(
            Booked {
                van,
                price,
                pickup,
                dropoff,
            },
        ) => write!(f, "van {van} price {price} pickup {pickup} drop {dropoff}"),
        Report::Served { kind, late, over } => {
            let name = kind_name(kind);
            write!(f, "{name} late {late} over {over}")
        }
        Report::Listed(itinerary) => write_itinerary(f, itinerary),
    }
}

impl fmt::Display for Reply {
    ghost output = { λ r. Some (reply_text r) };

    fn fmt<W: fmt::Write>(&self, f: &mut fmt::Formatter<W>) -> fmt::Result {
        match *self {
            Reply::Plain(reply) => write!(f, "{reply}"),
            Reply::Help => write_help(f),
            Reply::Reported(report) => write_report(f, report),
        }
    }
}
