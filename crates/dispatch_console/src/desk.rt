//! The desk at which a day is set up.
ghost use Rattle.std.specs.Prelude.{◌≡◌};
ghost use Rattle.std.specs.Option.{option_map};
ghost use Rattle.dispatch_console.specs.Desks.{setting, unset, standing, stands, Obeys};
ghost use Rattle.dispatch_console.specs.Meaning.{meaning};

use crate::{Command, Reply, Size};

/// The roads, the rule and the number of nodes that stand, as far as they were given.
#[derive(Default, Drop)]
pub struct Desk {
    plain: console::Desk,
    nodes: Option<u32>,
}

/// What a dispatcher is to be made of: roads, a rule, and so many nodes if a number was given.
#[derive(Clone, Copy)]
pub struct Site<'a> {
    pub plain: console::Site<'a>,
    pub nodes: Option<u32>,
}

/// What comes of a line at the desk.
#[derive(Clone, Copy)]
pub enum Step {
    Answered(Reply),
    /// Roads and rule stand, and a dispatcher is to be made.
    // Kept: a step that lent the site would lend the desk, and nothing could be told of the desk after it.
    Make(Size),
}

impl Desk {
    /// A desk with nothing on it.
    pub fn new() -> Desk
        ensures { setting result ≡ unset }
    {
        Desk::default()
    }

    /// What a dispatcher is to be made of, once roads and rule stand.
    pub fn site(&self) -> Option<Site<'_>>
        ensures { option_map standing result ≡ stands (setting self.now) }
    {
        Some(Site {
            plain: self.plain.site()?,
            nodes: self.nodes,
        })
    }

    /// Does what a line asks for, and says what comes of it.
    pub fn obey(&mut self, command: Command) -> Step
        ensures { Obeys (setting self.old) (meaning command) (setting self.new) result }
    {
        Step::Answered(match command {
            Command::Plain(command) => self.plain.obey(command).into(),
            Command::Help => Reply::Help,
            Command::Nodes(count) => {
                self.nodes = Some(count);
                console::Reply::Done.into()
            }
            Command::Make(size) if self.site().is_some() => return Step::Make(size),
            Command::Make(_) | Command::Call(_) => console::Reply::NotUnderstood.into(),
        })
    }
}
