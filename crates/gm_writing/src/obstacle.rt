//! Why data aren't written at all, in sentences.

use gm_metadata::Label;
use std::io::{self, Write};

/// What is in the way of data.
#[derive(Clone, Copy)]
pub(crate) enum Obstacle {
    /// There are none.
    Empty,
    /// They are no whole sectors.
    Uneven {
        bytes: u64,
    },
    /// The mirror's data, so many sectors, end before them: there are so many bytes of room.
    TooLong {
        mirror: Label,
        sectors: u32,
        room: u64,
    },
    /// The first of their keys, or the longest that follows from it, is none.
    NoKey,
    /// They need so many commands, and the registry takes fewer.
    NoRoom {
        needed: u64,
        room: u64,
    },
    /// The registry keeps so many bytes of them, in so many commands.
    Large {
        commands: usize,
        kept: u64,
    },
}

impl Obstacle {
    /// Says it of data from this source, and under which key they would be handed in.
    pub(crate) fn say<E: Write>(
        self,
        complaints: &mut E,
        key: &str,
        source: &str,
    ) -> io::Result<()> {
        write!(complaints, "{key}: ")?;
        match self {
            Obstacle::Empty => writeln!(complaints, "{source} has no bytes"),
            Obstacle::Uneven { bytes } => {
                writeln!(
                    complaints,
                    "the length of {source} is {bytes}, no multiple of 512"
                )
            }
            Obstacle::TooLong {
                mirror,
                sectors,
                room,
            } => writeln!(
                complaints,
                "{source} is longer than the {room} bytes left of {mirror}'s {sectors} sectors"
            ),
            Obstacle::NoKey => writeln!(
                complaints,
                "a key, also with .2 and so on, is 1 to 32 of A-Z, a-z, 0-9, '.', '_' and '-'"
            ),
            Obstacle::NoRoom { needed, room } => writeln!(
                complaints,
                "this takes {needed} commands, and the registry takes {room} more"
            ),
            Obstacle::Large { commands, kept } => say_large(complaints, key, commands, kept),
        }
    }
}

/// Says what data take: so many commands, and so many bytes of the registry, which keeps them.
pub(crate) fn say_kept<E: Write>(complaints: &mut E, commands: usize, kept: u64) -> io::Result<()> {
    writeln!(
        complaints,
        "this takes {commands} commands, and {kept} bytes of the registry for ever"
    )
}

// What large data take, how they are changed without the registry, and how with it all the same.
fn say_large<E: Write>(
    complaints: &mut E,
    key: &str,
    commands: usize,
    kept: u64,
) -> io::Result<()> {
    say_kept(complaints, commands, kept)?;
    writeln!(
        complaints,
        "{key}: to do without: deactivate all images but one, edit that, activate the others, sync"
    )?;
    writeln!(complaints, "{key}: --force writes them anyway")
}
