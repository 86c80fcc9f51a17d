//! What a line of the day asks for.
ghost use Rattle.std.specs.Prelude.{◌≡◌, IfOk};
ghost use Rattle.std.specs.Option.{option_map};
ghost use Rattle.text.specs.Fields.{bytes_left};
ghost use Rattle.console.specs.Lines.{asked, word_of, worded, rule_of as rule_named, as_table, as_grid, as_rule, as_quote};
ghost use Rattle.console.specs.Meaning.{meaning};

use std::alloc::{AllocError, Global};
use text::{Rest, read_numbers, split_field};

/// A rule by which bookings are stowed and promised.
#[derive(Clone, Copy, PartialEq, Eq, Debug)]
pub enum Rule {
    Passengers,
    Parcels,
}

/// A line, read.
#[derive(Drop)]
pub enum Command {
    /// A blank line or a comment.
    Nothing,
    /// A line of none of the other forms.
    Unclear,
    Table {
        places: u32,
        seconds: Vec<u32>,
    },
    Grid {
        columns: u32,
        rows: u32,
        east: u32,
        south: u32,
    },
    Rule(Rule),
    Quote {
        from: u32,
        to: u32,
        figures: [u32; 6],
    },
}

/// The word that a line begins with.
#[derive(Clone, Copy)]
pub enum Word {
    Table,
    Grid,
    Rule,
    Quote,
}

impl Word {
    /// The word that a field is, if it is one.
    // Kept: no `TryFrom`, since there is no error to tell.
    fn from_bytes(field: &[u8]) -> Option<Word>
        ensures { result ≡ word_of field.now }
    {
        match field {
            b"table" => Some(Word::Table),
            b"grid" => Some(Word::Grid),
            b"rule" => Some(Word::Rule),
            b"quote" => Some(Word::Quote),
            _ => None,
        }
    }
}

impl Rule {
    /// The rule of that name, if there is one.
    // Kept: no `TryFrom`, since there is no error to tell.
    fn from_bytes(name: &[u8]) -> Option<Rule>
        ensures { result ≡ rule_named name.now }
    {
        match name {
            b"passengers" => Some(Rule::Passengers),
            b"parcels" => Some(Rule::Parcels),
            _ => None,
        }
    }
}

fn table_of(mut numbers: Vec<u32>) -> Option<Command>
    ensures { option_map meaning result ≡ as_table numbers.items }
{
    if numbers.is_empty() {
        return None;
    }
    Some(Command::Table {
        places: numbers.remove(0),
        seconds: numbers,
    })
}

fn grid_of(numbers: &[u32]) -> Option<Command>
    ensures { option_map meaning result ≡ as_grid numbers.now }
{
    let &[columns, rows, east, south] = numbers else {
        return None;
    };
    Some(Command::Grid {
        columns,
        rows,
        east,
        south,
    })
}

fn quote_of(numbers: &[u32]) -> Option<Command>
    ensures { option_map meaning result ≡ as_quote numbers.now }
{
    let &[from, to, a, b, c, d, e, f] = numbers else {
        return None;
    };
    Some(Command::Quote {
        from,
        to,
        figures: [a, b, c, d, e, f],
    })
}

fn rule_of(rest: Option<Rest<'_>>) -> Option<Command>
    ensures { option_map meaning result ≡ as_rule (option_map bytes_left rest.entry) }
{
    Some(Command::Rule(Rule::from_bytes(rest?.bytes())?))
}

/// What the word and the fields after it ask for, if they are understood.
fn read_worded(
    heap: Global,
    word: Word,
    rest: Option<Rest<'_>>,
) -> Result<Option<Command>, AllocError>
    ensures { IfOk result (λ c. option_map meaning c ≡ worded word (option_map bytes_left rest.entry)) }
{
    Ok(match word {
        Word::Table => read_numbers(heap, rest)?.and_then(table_of),
        Word::Grid => read_numbers(heap, rest)?.and_then(|numbers| grid_of(&numbers)),
        Word::Rule => rule_of(rest),
        Word::Quote => read_numbers(heap, rest)?.and_then(|numbers| quote_of(&numbers)),
    })
}

/// What a line asks for.
pub fn read_command(heap: Global, line: &[u8]) -> Result<Command, AllocError>
    ensures { IfOk result (λ c. meaning c ≡ asked line.now) }
{
    if line.is_empty() || line[0] == b'#' {
        return Ok(Command::Nothing);
    }
    let (first, rest) = split_field(Rest::whole(line));
    let Some(word) = Word::from_bytes(first.bytes) else {
        return Ok(Command::Unclear);
    };
    Ok(read_worded(heap, word, rest)?.unwrap_or(Command::Unclear))
}
