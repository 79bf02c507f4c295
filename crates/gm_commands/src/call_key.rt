//! The keys under which commands are handed in, and how many may be accepted.

ghost use Rattle.std.specs.Prelude.{◌≡◌};
ghost use Rattle.std.specs.List.{list_all};
ghost use Rattle.gm_metadata.specs.Labels.{is_label_byte};
ghost use Rattle.gm_commands.specs.Commands.{is_key};

use gm_metadata::is_label_byte;

/// The most commands that a bench accepts.
pub const MAX_COMMANDS: u32 = 100_000;

/// The most characters of a key.
const MAX_KEY: usize = 32;

fn are_key_bytes(text: &[u8]) -> bool
    ensures { result ≡ list_all is_label_byte text.now }
{
    text.iter().all(|byte| is_label_byte(*byte))
}

/// Whether the text is a key: 1 to 32 of the characters of labels (this project's own).
pub fn is_key(text: &str) -> bool
    ensures { result ≡ is_key text.now }
{
    let bytes = text.as_bytes();
    0 < bytes.len() && bytes.len() <= MAX_KEY && are_key_bytes(bytes)
}
