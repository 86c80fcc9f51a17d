//! What a line of the day asks for.
ghost use Rattle.std.specs.Prelude.{◌≡◌, IfOk};
ghost use Rattle.std.specs.Option.{option_map};
ghost use Rattle.text.specs.Fields.{bytes_left};
ghost use Rattle.dispatch_console.specs.Lines.{asked, worded, as_nodes, as_make, as_call};
ghost use Rattle.dispatch_console.specs.Meaning.{meaning};

use crate::word::{CallWord, Word};
use fleet::Call;
use std::alloc::{AllocError, Global};
use text::{Rest, read_numbers, split_field};

/// The most nodes that may be asked for.
const MOST_NODES: u32 = 300_000;

/// How large a dispatcher is to be.
#[derive(Clone, Copy, PartialEq, Eq, Debug)]
pub struct Size {
    pub vans: u32,
    /// The most open bookings of a van.
    pub open_limit: u32,
}

/// A line, read.
#[derive(Drop)]
pub enum Command {
    /// What a day without a dispatcher knows too, and lines of none of the forms.
    Plain(console::Command),
    Help,
    /// So many nodes, in place of just enough.
    Nodes(u32),
    /// A dispatcher.
    Make(Size),
    Call(Call),
}

fn nodes_of(numbers: &[u32]) -> Option<Command>
    ensures { option_map meaning result ≡ as_nodes numbers.now }
{
    match *numbers {
        [count] if count <= MOST_NODES => Some(Command::Nodes(count)),
        _ => None,
    }
}

fn make_of(numbers: &[u32]) -> Option<Command>
    ensures { option_map meaning result ≡ as_make numbers.now }
{
    let &[vans, open_limit] = numbers else {
        return None;
    };
    Some(Command::Make(Size { vans, open_limit }))
}

fn call_of(word: CallWord, numbers: &[u32]) -> Option<Call>
    ensures { result ≡ as_call word numbers.now }
{
    Some(match (word, numbers) {
        (CallWord::Clock, &[time]) => Call::Clock { time },
        (CallWord::Join, &[van, place, time]) => Call::Join { van, place, time },
        (CallWord::Leave, &[van]) => Call::Leave { van },
        (CallWord::Book, &[number, from, to, a, b, c, d, e, f]) => Call::Book {
            number,
            from,
            to,
            figures: [a, b, c, d, e, f],
        },
        (CallWord::Bound, &[van, place, time]) => Call::Bound { van, place, time },
        (CallWord::Served, &[van, number, time]) => Call::Served { van, number, time },
        (CallWord::Cancel, &[number]) => Call::Cancel { number },
        (CallWord::Plan, &[van]) => Call::Plan { van },
        (CallWord::Order, &[van, index]) => Call::Order { van, index },
        _ => return None,
    })
}

/// What the word and the fields after it ask for, if they are understood.
fn read_worded(
    heap: Global,
    word: Word,
    rest: Option<Rest<'_>>,
) -> Result<Option<Command>, AllocError>
    ensures { IfOk result (λ c. option_map meaning c ≡ worded word (option_map bytes_left rest.entry)) }
{
    Ok(match word {
        Word::Help => rest.is_none().then_some(Command::Help),
        Word::Nodes => read_numbers(heap, rest)?.and_then(|numbers| nodes_of(&numbers)),
        Word::Make => read_numbers(heap, rest)?.and_then(|numbers| make_of(&numbers)),
        Word::Call(call) => read_numbers(heap, rest)?
            .and_then(|numbers| call_of(call, &numbers))
            .map(Command::Call),
    })
}

/// What a line asks for.
pub fn read_command(heap: Global, line: &[u8]) -> Result<Command, AllocError>
    ensures { IfOk result (λ c. meaning c ≡ asked line.now) }
{
    // No word is empty or begins with '#': a line that does needs no search for one.
    if matches!(line, [] | [b'#', ..]) {
        return Ok(Command::Plain(console::Command::Nothing));
    }
    let (first, rest) = split_field(Rest::whole(line));
    let Some(word) = Word::from_bytes(first.bytes) else {
        return Ok(Command::Plain(console::read_command(heap, line)?));
    };
    Ok(read_worded(heap, word, rest)?.unwrap_or(Command::Plain(console::Command::Unclear)))
}
