//! A text of JSON as a line of the output.

ghost use Rattle.std.specs.Prelude.{◌≡◌, IfOk};
ghost use Rattle.std.specs.String.{string_bytes};
ghost use Rattle.gm_words.specs.Lines.{line};

use std::alloc::AllocError;

/// The text, and a line feed.
pub fn as_line(text: String) -> Result<String, AllocError>
    ensures { IfOk result (λ line_of. string_bytes line_of ≡ line (string_bytes text)) }
{
    let mut text = text;
    text.push('\n')?;
    Ok(text)
}
