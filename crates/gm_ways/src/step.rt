//! The steps of a way.

ghost use Rattle.std.specs.Prelude.{◌≡◌, IfOk};
ghost use Rattle.std.specs.Str.{bytes_eq};
ghost use Rattle.gm_commands.specs.Commands.{words_of};
ghost use Rattle.gm_ways.specs.Ways.{command_of};

use gm_commands::{Command, NewComponent, Providers, words_of};
use gm_metadata::Label;
use std::alloc::{AllocError, Global};

/// Which image takes which one's place.
#[derive(Clone, Copy, Debug, PartialEq, Eq)]
pub struct Exchange {
    pub mirror: Label,
    /// The image that is taken out.
    pub old: Label,
    /// The image that is put in its place.
    pub new: Label,
}

/// What a command of a way does.
#[derive(Clone, Copy, Debug, PartialEq, Eq)]
pub enum Act {
    /// The new one is inserted.
    Insert,
    /// The old one is removed.
    Remove,
    /// The old one is given up as lost.
    Lost,
    /// The mirror no longer waits for it.
    Forget,
}

/// A step of a way.
#[derive(Clone, Copy, Debug, PartialEq, Eq)]
pub enum Step {
    /// A command is handed in, whose key has this number, from 1 on.
    HandIn { act: Act, number: usize },
    /// The new one is filled, by as many commands as that takes.
    Fill,
}

impl Act {
    /// The command's name.
    pub fn name(self) -> &'static str {
        match self {
            Act::Insert => "insert",
            Act::Remove => "remove",
            Act::Lost => "lost",
            Act::Forget => "forget",
        }
    }

    /// The image that it names, if it names one.
    pub fn image(self, exchange: &Exchange) -> Option<Label> {
        match self {
            Act::Insert => Some(exchange.new),
            Act::Remove | Act::Lost => Some(exchange.old),
            Act::Forget => None,
        }
    }

    /// The command; the new component gets this number.
    pub fn command(
        self,
        alloc: Global,
        exchange: &Exchange,
        did: u32,
    ) -> Result<Command, AllocError>
        ensures { IfOk result (λ c. c ≡ command_of self exchange.now did) }
    {
        let Exchange { mirror, old, new } = *exchange;
        match self {
            Act::Insert => Ok(Command::Insert(NewComponent {
                name: mirror,
                provider: new,
                did,
                priority: 0,
                hardcoded: false,
            })),
            Act::Remove => Ok(Command::Remove {
                name: mirror,
                provider: old,
            }),
            Act::Lost => Ok(Command::Lost {
                name: mirror,
                providers: Providers::new(vec![in alloc; old]?).unwrap(),
            }),
            Act::Forget => Ok(Command::Forget { name: mirror }),
        }
    }

    /// Whether these are the words of the command, as they are kept; the new component has this
    /// number.
    pub fn is_said_by(
        self,
        alloc: Global,
        exchange: &Exchange,
        did: u32,
        words: &str,
    ) -> Result<bool, AllocError>
        ensures { IfOk result (λ is. is
            ≡ bytes_eq (words_of (command_of self exchange.now did)) words.now) }
    {
        let command = self.command(alloc, exchange, did)?;
        Ok(words_of(alloc, &command)?.as_str() == words)
    }
}
