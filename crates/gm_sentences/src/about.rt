//! What a sentence is about.

ghost use Rattle.std.specs.Prelude.{◌≡◌, None};

use gm_commands::Command;
use gm_metadata::Label;
use std::alloc::{AllocError, Global};

/// Which image is meant.
#[derive(Clone, Copy)]
pub enum Image {
    /// A component that isn't named.
    Unnamed,
    Named(Label),
    /// One of several that are named.
    OneOfSeveral,
}

/// The mirror and the image that a sentence is about.
#[derive(Clone, Copy)]
pub struct About {
    pub mirror: Option<Label>,
    pub image: Image,
}

/// The images that a command names in a row: those of `lost` and `adopt`.
pub fn images_in_a_row(command: &Command) -> &[Label] {
    match command {
        Command::Lost { providers, .. } | Command::Adopt { providers, .. } => providers.as_slice(),
        _ => &[],
    }
}

// The one of these images, if there is just one.
fn one_of(images: &[Label]) -> Image {
    match images {
        [image] => Image::Named(*image),
        _ => Image::OneOfSeveral,
    }
}

// A mirror and an image.
fn both(mirror: Label, image: Image) -> About {
    About {
        mirror: Some(mirror),
        image,
    }
}

impl About {
    /// One image, and no mirror.
    pub fn image(image: Label) -> About
        ensures no_mirror { result.mirror ≡ None }
        ensures image { result.image ≡ Image.Named image }
    {
        About {
            mirror: None,
            image: Image::Named(image),
        }
    }

    /// What a command names.
    pub fn command(command: &Command) -> About {
        match command {
            Command::Label(new) => both(new.name, Image::Named(new.provider)),
            Command::Insert(new) => both(new.name, Image::Named(new.provider)),
            Command::Remove { name, provider }
            | Command::Deactivate { name, provider }
            | Command::Activate { name, provider }
            | Command::Rebuild { name, provider }
            | Command::Advance { name, provider } => both(*name, Image::Named(*provider)),
            Command::Forget { name } | Command::Destroy { name } | Command::Patch { name, .. } => {
                both(*name, Image::Unnamed)
            }
            Command::Configure { name, settings } => match settings.preference {
                Some(preference) => both(*name, Image::Named(preference.provider)),
                None => both(*name, Image::Unnamed),
            },
            Command::Clear { provider } => About::image(*provider),
            Command::Lost { name, providers } | Command::Adopt { name, providers } => {
                both(*name, one_of(providers.as_slice()))
            }
        }
    }

    /// The same of another image.
    pub fn with_image(self, image: Image) -> About
        ensures same_mirror { result.mirror ≡ self.mirror }
        ensures image { result.image ≡ image }
    {
        About {
            mirror: self.mirror,
            image,
        }
    }

    /// A sentence, with what is meant in the place of `MIRROR` and `IMAGE`.
    pub fn sentence(&self, alloc: Global, sentence: &str) -> Result<String, AllocError> {
        let mut text = String::new(alloc);
        for part in sentence.split(' ') {
            if !text.is_empty() {
                text.push(' ')?;
            }
            push_word(&mut text, self, part)?;
        }
        Ok(text)
    }
}

fn push_mirror(text: &mut String, about: &About) -> Result<(), AllocError> {
    match about.mirror {
        Some(mirror) => text.push_str(mirror.as_str()),
        None => text.push_str("the mirror"),
    }
}

fn push_image(text: &mut String, about: &About) -> Result<(), AllocError> {
    match about.image {
        Image::Named(image) => text.push_str(image.as_str()),
        Image::OneOfSeveral => text.push_str("one of these images"),
        Image::Unnamed => {
            text.push_str("a component of ")?;
            push_mirror(text, about)?;
            text.push_str(" in its size")
        }
    }
}

// Adds a word of a sentence, or what it stands for.
fn push_word(text: &mut String, about: &About, word: &str) -> Result<(), AllocError> {
    match word {
        "MIRROR" => push_mirror(text, about),
        "MIRROR," => {
            push_mirror(text, about)?;
            text.push(',')
        }
        "MIRROR;" => {
            push_mirror(text, about)?;
            text.push(';')
        }
        "IMAGE" => push_image(text, about),
        _ => text.push_str(word),
    }
}
