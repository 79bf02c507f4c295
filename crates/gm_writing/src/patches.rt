//! The commands that write data into a mirror: a patch for each 64 sectors.

ghost use Rattle.std.specs.Prelude.{◌≡◌, ◌≤◌, ◌<◌, ◌+◌, ◌-◌, ◌*◌, ◌^◌, ◌++◌, IfOk, OnOk, codes, length};
ghost use Rattle.std.specs.String.{string_bytes};
ghost use Rattle.gm_by_itself.specs.Keys.{following};
ghost use Rattle.gm_writing.specs.Patches.{beginning_of, kept_words_of, line_of, lines_of, part_of, words_of};

use gm_by_itself::following_key;
use gm_metadata::Label;
use std::alloc::{AllocError, Global};

// How many sectors a command writes at most.
const SECTORS: usize = 64;

// How many bytes these have.
const PATCH: usize = 32_768;

/// Data that are written into a mirror, under keys that begin with one.
#[derive(Clone, Copy)]
pub(crate) struct Patches<'a> {
    /// The key of the first command.
    pub(crate) first_key: &'a str,
    pub(crate) mirror: Label,
    /// The first sector that is written.
    pub(crate) first: u32,
    pub(crate) bytes: &'a [u8],
}

impl Patches<'_> {
    /// How many commands they are.
    pub(crate) fn count(&self) -> usize
        ensures all { length self.now.bytes.now ≤ 32768 * result }
        ensures least { 32768 * result < length self.now.bytes.now + 32768 }
    {
        self.bytes.len().div_ceil(PATCH)
    }

    /// The key of a command, counted from 0.
    pub(crate) fn key(&self, alloc: Global, index: usize) -> Result<String, AllocError>
        ensures { index < 2 ^ 32 → IfOk result (λ key. string_bytes key
            ≡ following self.now.first_key.now (index + 1)) }
    {
        following_key(alloc, self.first_key, index.saturating_add(1))
    }

    /// The longest of their keys.
    pub(crate) fn last_key(&self, alloc: Global) -> Result<String, AllocError> {
        self.key(alloc, self.count().saturating_sub(1))
    }

    // The bytes that a command writes.
    fn bytes_of(&self, index: usize) -> &[u8]
        ensures { index < 2 ^ 32 → result.now ≡ part_of self.now.bytes.now index }
    {
        let begin = index.saturating_mul(PATCH).min(self.bytes.len());
        let end = begin.saturating_add(PATCH).min(self.bytes.len());
        &self.bytes[begin..end]
    }

    // The first sector that a command writes.
    fn first_of(&self, index: usize) -> u64
        ensures { index < 2 ^ 32 → result ≡ self.now.first + 64 * index }
    {
        (index as u64)
            .saturating_mul(SECTORS as u64)
            .saturating_add(u64::from(self.first))
    }

    // The words of a command up to the mirror's name.
    fn beginning(&self, alloc: Global, index: usize) -> Result<String, AllocError>
        ensures { index < 2 ^ 32 → IfOk result (λ text. string_bytes text
            ≡ beginning_of self.now index) }
    {
        let first = self.first_of(index);
        let digits = hex::encode(alloc, self.bytes_of(index))?;
        format!(in alloc; "patch --first {first} --data {digits}")
    }

    /// The words of a command, as the registry keeps them.
    pub(crate) fn kept_words(&self, alloc: Global, index: usize) -> Result<String, AllocError>
        ensures { index < 2 ^ 32 → IfOk result (λ text. string_bytes text
            ≡ kept_words_of self.now index) }
    {
        let mut text = self.beginning(alloc, index)?;
        write!(text, " {}", self.mirror)?;
        Ok(text)
    }

    /// The words of a command, as they are handed in.
    pub(crate) fn words(&self, alloc: Global, index: usize) -> Result<String, AllocError>
        ensures { index < 2 ^ 32 → IfOk result (λ text. string_bytes text
            ≡ words_of self.now index) }
    {
        let mut text = self.beginning(alloc, index)?;
        write!(text, " -- {}", self.mirror)?;
        Ok(text)
    }

    // The line of a command: its key and its words.
    fn push_line(&self, alloc: Global, text: &mut String, index: usize) -> Result<(), AllocError>
        ensures { index < 2 ^ 32 → OnOk result (string_bytes text.new
            ≡ string_bytes text.old ++ line_of self.now index) }
    {
        let key = self.key(alloc, index)?;
        let words = self.words(alloc, index)?;
        writeln!(text, "{key} {words}")
    }

    /// The lines of these commands, counted from 0.
    pub(crate) fn lines(
        &self,
        alloc: Global,
        begin: usize,
        end: usize,
    ) -> Result<String, AllocError>
        ensures { begin ≤ end → end < 2 ^ 32 → IfOk result (λ text. string_bytes text
            ≡ lines_of self.now begin (end - begin)) }
    {
        let mut text = String::new(alloc);
        for index in begin..end {
            self.push_line(alloc, &mut text, index)?;
        }
        Ok(text)
    }

    /// How many bytes are written.
    pub(crate) fn length(&self) -> u64 {
        self.bytes.len() as u64
    }

    /// How many bytes the registry keeps of them: two digits for each byte.
    pub(crate) fn kept(&self) -> u64 {
        self.length().saturating_mul(2)
    }

    /// How many sectors are written.
    pub(crate) fn sectors(&self) -> u64 {
        self.length() / 512
    }

    /// How many of them the first so many commands write.
    pub(crate) fn sectors_of(&self, commands: usize) -> u64 {
        (commands as u64)
            .saturating_mul(SECTORS as u64)
            .min(self.sectors())
    }
}
