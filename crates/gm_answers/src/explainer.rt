//! Sentences on the complaints: why a command is refused.

use crate::folder::Folder;
use crate::reason::Known;
use crate::withheld::{say_losing, say_withheld};
use gm_bench::Answer;
use gm_commands::Command;
use gm_front::{Listener, Outcome};
use gm_lines::pieces;
use gm_looks::Unlike;
use gm_metadata::Label;
use gm_process::{Explaining, legible_name};
use gm_refusals::{CallRefusal, Refusal};
use gm_sentences::{About, Image, call_sentence, images_in_a_row};
use gm_state::State;
use gm_words::{read_words, words_complaint};
use std::alloc::AllocError;
use std::io::Write;
use std::str;

// Why a command is refused if the images that it names are there.
const COMPONENT_AWAY: &str = "IMAGE isn't on the shelf; audit names it";

/// Explains refusals, if that is wanted. What can't be told isn't, and what it looks at it looks at
/// by itself: the bench is asked nothing.
#[derive(Drop)]
pub struct Explainer<'a, E> {
    folder: Folder<'a>,
    complaints: &'a mut E,
    // whether refusals are explained
    wanted: bool,
    // the mirrors as they are now, if they are known
    state: Option<&'a State>,
}

impl<'a, E: Write> Explainer<'a, E> {
    /// One that knows the folder, and tells what it knows on the complaints.
    pub fn new(
        rt: &'a HostRuntime,
        complaints: &'a mut E,
        explaining: &'a Explaining,
    ) -> Explainer<'a, E> {
        Explainer {
            folder: Folder::of(rt, explaining),
            complaints,
            wanted: explaining.wanted,
            state: None,
        }
    }

    /// One that knows the mirrors as they are now, if they are given.
    pub fn knowing(self, state: Option<&'a State>) -> Explainer<'a, E> {
        Explainer {
            folder: self.folder,
            complaints: self.complaints,
            wanted: self.wanted,
            state,
        }
    }

    // The image that isn't in the folder, of those that the command names.
    fn absent_of(&self, command: &Command, about: &About) -> Option<Label> {
        match &about.image {
            Image::Unnamed => None,
            Image::Named(image) => self.folder.first_absent(&[*image]),
            Image::OneOfSeveral => self.folder.first_absent(images_in_a_row(command)),
        }
    }

    // What a refusal is about, of that which the command names.
    fn about(&self, command: &Command, why: &CallRefusal) -> About {
        let about = About::command(command);
        match why {
            CallRefusal::ByRules(Refusal::Absent) => {}
            _ => return about,
        }
        let image = match self.absent_of(command, &about) {
            Some(image) => Image::Named(image),
            None => Image::Unnamed,
        };
        about.with_image(image)
    }

    // More of a refusal by the rules, if the mirrors are known.
    fn by_state(&self, command: &Command, why: &CallRefusal) -> Result<Option<String>, AllocError> {
        match (self.state, why) {
            (Some(state), CallRefusal::ByRules(why)) => {
                let known = Known {
                    folder: self.folder,
                    state,
                };
                known.sentence(command, *why)
            }
            _ => Ok(None),
        }
    }

    // Why these words are no command, or why the command is refused that they are.
    fn sentence(&self, words: &[&str], why: Option<CallRefusal>) -> Result<String, AllocError> {
        let alloc = self.folder.alloc();
        match (read_words(alloc, words)?, why) {
            (Ok(command), Some(why)) => {
                if let Some(sentence) = self.by_state(&command, &why)? {
                    return Ok(sentence);
                }
                let about = self.about(&command, &why);
                match (why, &about.image) {
                    (CallRefusal::ByRules(Refusal::Absent), Image::Unnamed) => {
                        about.sentence(alloc, COMPONENT_AWAY)
                    }
                    _ => about.sentence(alloc, call_sentence(why)),
                }
            }
            _ => words_complaint(alloc, words),
        }
    }

    // The same, though a word may have line feeds.
    fn sentence_in_line(
        &self,
        words: &[&str],
        why: Option<CallRefusal>,
    ) -> Result<String, AllocError> {
        let sentence = self.sentence(words, why)?;
        legible_name(self.folder.alloc(), sentence.as_str())
    }

    fn say(&mut self, key: &str, number: u8, sentence: &str) {
        let _ = writeln!(self.complaints, "{key}: refused {number}: {sentence}");
    }

    /// Why a command is withheld under a key, and how it is carried out all the same.
    pub fn explain_withheld(&mut self, key: &str, list: &[Unlike], all_the_same: &str) {
        if self.wanted {
            say_withheld(self.complaints, key, list, all_the_same);
        }
    }

    /// What would be lost by a command under a key, in sentences, and how it is carried out all the
    /// same. It is told also if refusals aren't explained.
    pub fn tell_losing(&mut self, key: &str, sentences: &[String], all_the_same: &str) {
        say_losing(self.complaints, key, sentences, all_the_same);
    }

    /// When a command was done that is repeated.
    pub fn explain_repeated(&mut self, outcome: &Outcome<'_>) {
        if let Outcome::Answered(key, Answer::Repeated(number, _)) = *outcome {
            let _ = writeln!(
                self.complaints,
                "{key}: done before, as number {number}; nothing is done now"
            );
        }
    }

    /// Why the command of these words is refused under a key, by what it came to.
    pub fn explain(&mut self, words: &[&str], outcome: &Outcome<'_>) {
        if !self.wanted {
            return;
        }
        let (key, number, why) = match *outcome {
            Outcome::Wrong(key) => (key, 1, None),
            Outcome::Answered(key, Answer::Refused(why)) => (key, why.number(), Some(why)),
            _ => return,
        };
        if let Ok(sentence) = self.sentence_in_line(words, why) {
            self.say(key, number, sentence.as_str());
        }
    }

    // The same by a line, without its line feed; none if it has more than 131,072 bytes.
    fn explain_line(
        &mut self,
        line: Option<&[u8]>,
        outcome: &Outcome<'_>,
    ) -> Result<(), AllocError> {
        let Some(line) = line else {
            self.say("?", 1, "the line has more than 131,072 bytes");
            return Ok(());
        };
        let Ok(text) = str::from_utf8(line) else {
            self.say("?", 1, "the line isn't UTF-8");
            return Ok(());
        };
        if text.ends_with('\r') {
            if let Outcome::Wrong(key) = *outcome {
                self.say(key, 1, "the line ends with CR LF, not with LF alone");
                return Ok(());
            }
        }
        let pieces = pieces(self.folder.alloc(), text)?;
        if let Some((_, words)) = pieces.as_slice().split_first() {
            self.explain(words, outcome);
        }
        Ok(())
    }
}

impl<E: Write> Listener for Explainer<'_, E> {
    fn answered(&mut self, line: Option<&[u8]>, outcome: &Outcome<'_>) {
        if self.wanted && outcome.is_refused() {
            let _ = self.explain_line(line, outcome);
        }
    }
}
