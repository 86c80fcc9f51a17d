//! The day program: reads lines, prints answers.
#![tactic(auto)]

ghost use Rattle.std.specs.Prelude.{◌≡◌, IfOk, IfNone};

use console::{Rule, Tally};
use dispatch_console::{Desk, NotBegun, Reply, Session, Site, Size, Step, read_command};
use growth::Ground;
use std::io;
use std::io::{BufRead, BufReader, Split};
use stowage::{Parcels, Passengers, Stowage};

/// Prints a reply, unless there is nothing to say.
fn answer(rt: &HostRuntime, reply: Reply) -> io::Result<()> {
    match reply {
        Reply::Plain(console::Reply::Nothing) => Ok(()),
        reply => println!(rt; "{reply}"),
    }
}

/// Makes a dispatcher under a rule, and attends to the lines to their end. Gives the count of the calls, or tells why no
/// dispatcher was made, and leaves the lines unread.
fn run_session<S: Stowage, B: BufRead + Drop>(
    rt: &HostRuntime,
    lines: &mut Split<B>,
    site: Site<'_>,
    rule: &S,
    size: Size,
) -> io::Result<Option<Tally>>
    ensures { IfOk result (λ tally. IfNone tally (lines.new ≡ lines.old)) }
{
    let heap = rt.alloc();
    let ground = Ground {
        roads: site.plain.roads,
        rule,
    };
    let mut session = match Session::begin(heap, ground, site.nodes, size) {
        Ok(session) => session,
        Err(NotBegun::Refused(reply)) => {
            answer(rt, reply)?;
            return Ok(None);
        }
        Err(NotBegun::OutOfMemory(error)) => return Err(error.into()),
    };
    answer(rt, console::Reply::Done.into())?;
    for line in lines {
        answer(rt, session.obey(read_command(heap, &line?)?))?;
    }
    Ok(Some(session.tally()))
}

/// Makes the dispatcher for which the desk is set up, and runs it to the end of the lines, unless it is refused.
fn make<B: BufRead + Drop>(
    rt: &HostRuntime,
    lines: &mut Split<B>,
    site: Site<'_>,
    size: Size,
) -> io::Result<Option<Tally>>
    ensures { IfOk result (λ tally. IfNone tally (lines.new ≡ lines.old)) }
{
    // Kept: each rule has a type of hold of its own, so that no `dyn` stands for both.
    match site.plain.rule {
        Rule::Passengers => run_session(rt, lines, site, &Passengers, size),
        Rule::Parcels => run_session(rt, lines, site, &Parcels, size),
    }
}

/// Reads a day from standard input, a line at a time, and prints what each line is answered and the count of its calls.
pub fn run(rt: &HostRuntime) -> io::Result<()> {
    let heap = rt.alloc();
    let mut lines = BufReader::new(heap, rt.stdin())?.split(heap, b'\n');
    let mut desk = Desk::new();
    while let Some(line) = lines.next() {
        match desk.obey(read_command(heap, &line?)?) {
            Step::Answered(reply) => answer(rt, reply)?,
            Step::Make(size) => {
                if let Some(site) = desk.site()
                    && let Some(tally) = make(rt, &mut lines, site, size)?
                {
                    return println!(rt; "{tally}");
                }
            }
        }
    }
    println!(rt; "{}", Tally::new())
}
