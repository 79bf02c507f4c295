//! The streams that the program is run over, and what is explained beside them.

ghost use Rattle.std.specs.Prelude.{◌≡◌};

use crate::folder_cause::folder_trouble;
use crate::legible::Legible;
use crate::meter::Style;
use crate::trouble::Trouble;
use gm_shelf::ImageFailure;
use std::alloc::Global;
use std::io;

/// What is explained on the complaints, beside the lines that the program's numbers are on.
#[derive(Drop)]
pub struct Explaining {
    /// Whether anything is.
    pub wanted: bool,
    /// Whether the complaints go to a terminal.
    pub at_terminal: bool,
    /// Whether whoever runs the program can be asked: the input comes from a terminal too.
    pub asks: bool,
    /// The folder with the images.
    pub folder: String,
    /// Which file failed and why, if more is known of it: the folder, a stream or the registry.
    pub trouble: Option<Trouble>,
    /// Which image failed last, and why, if one has.
    pub failure: Option<ImageFailure>,
    /// How one goes on after a fault, in lines, if that is known.
    pub way_on: Option<String>,
}

impl Explaining {
    /// Of no folder yet: it is wanted if the complaints go to a terminal, and nobody can be asked.
    pub fn new(alloc: Global, at_terminal: bool) -> Explaining {
        Explaining {
            wanted: at_terminal,
            at_terminal,
            asks: false,
            folder: String::new(alloc),
            trouble: None,
            failure: None,
            way_on: None,
        }
    }

    /// Hands on how a call on the folder of images went, and keeps what is known of one that
    /// failed.
    pub fn heed<T>(&mut self, rt: &HostRuntime, folder: &str, done: io::Result<T>) -> io::Result<T>
        ensures { result ≡ done }
    {
        if let Err(error) = &done {
            self.trouble = folder_trouble(rt, folder, error);
        }
        done
    }

    /// How it is told how far something is.
    pub fn style(&self, is_quiet: bool) -> Style {
        if is_quiet {
            Style::Quiet
        } else if self.at_terminal {
            Style::Bar
        } else {
            Style::Lines
        }
    }
}

/// An input, an output for lines, and one for faults and complaints, to which connections are
/// logged too.
#[derive(Drop)]
pub struct Streams<'a, I, O, E> {
    pub input: &'a mut I,
    pub output: &'a mut O,
    pub complaints: &'a mut Legible<E>,
    pub explaining: Explaining,
}
