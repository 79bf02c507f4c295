//! Why an entry of a folder isn't an image: by its name, and by what it is.

ghost use Rattle.std.specs.Prelude.{◌≡◌, ◌<◌, ◌≤◌, ◌↔◌, ◌%◌, false, length, IfOk, IsErr, IsErrOf, IsOk};
ghost use Rattle.std.specs.Fs.{file_type, metadata_len, IsFile, IsSymlink};
ghost use Rattle.gm_metadata.specs.Labels.{is_label};

use gm_metadata::Label;
use std::fs::Metadata;
use std::{fmt, str};

/// Why an entry of a folder isn't an image: the first of these that applies.
#[derive(Clone, Copy, Debug, PartialEq, Eq)]
pub enum NoImage {
    /// Its name has more than 15 bytes.
    LongName,
    /// Its name has bytes that no name of an image has.
    OtherCharacters,
    /// It is a link.
    Link,
    /// It is a folder, a pipe, a socket or a device.
    NotRegular,
    /// Its length is no multiple of 512.
    Length,
}

impl fmt::Display for NoImage {
    ghost use Rattle.std.specs.Prelude.{Some};
    ghost use Rattle.gm_shelf.specs.Entries.{no_image_text};

    ghost output = { λ reason. Some (no_image_text reason) };

    fn fmt<W: fmt::Write>(&self, f: &mut fmt::Formatter<W>) -> fmt::Result {
        match self {
            NoImage::LongName => f.write_str("name too long"),
            NoImage::OtherCharacters => f.write_str("name with other characters"),
            NoImage::Link => f.write_str("a link"),
            NoImage::NotRegular => f.write_str("not a regular file"),
            NoImage::Length => f.write_str("length no multiple of 512"),
        }
    }
}

/// The label that a name is, or why it is none.
pub(crate) fn label_of(name: &[u8]) -> Result<Label, NoImage>
    ensures label { IfOk result (λ label. label ≡ name.now) }
    ensures none { IsErr result ↔ (is_label name.now ≡ false) }
    ensures long { IsErrOf result NoImage.LongName ↔ (15 < length name.now) }
    ensures other { IsErrOf result NoImage.OtherCharacters
        ↔ ((is_label name.now ≡ false) × (length name.now ≤ 15)) }
{
    if name.len() > 15 {
        return Err(NoImage::LongName);
    }
    let Ok(text) = str::from_utf8(name) else {
        return Err(NoImage::OtherCharacters);
    };
    Label::new(text).ok_or(NoImage::OtherCharacters)
}

/// How long an image with these attributes is, or why it is none.
pub(crate) fn length_of(found: &Metadata) -> Result<u64, NoImage>
    ensures length { IfOk result (λ bytes. bytes ≡ metadata_len found.now) }
    ensures link { IsErrOf result NoImage.Link ↔ IsSymlink (file_type found.now) }
    ensures other { IsErrOf result NoImage.NotRegular ↔ (¬ (IsSymlink (file_type found.now))
        × ¬ (IsFile (file_type found.now))) }
    ensures regular { IsErrOf result NoImage.Length
        ↔ (IsFile (file_type found.now) × (0 < metadata_len found.now % 512)) }
    ensures whole { IsOk result
        ↔ (IsFile (file_type found.now) × (metadata_len found.now % 512 ≡ 0)) }
{
    if found.file_type().is_symlink() {
        return Err(NoImage::Link);
    }
    if !found.is_file() {
        return Err(NoImage::NotRegular);
    }
    let length = found.len();
    if length % 512 != 0 {
        return Err(NoImage::Length);
    }
    Ok(length)
}
