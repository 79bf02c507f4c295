//! What is known of a fault, beside its line: a file, and a cause.

use std::io::{self, Write};

/// A sentence on a file.
#[derive(Drop)]
pub struct Trouble {
    // with PATH in the place of the file's
    sentence: &'static str,
    path: String,
}

// Writes a path in one line.
fn write_path<E: Write>(complaints: &mut E, path: &str) -> io::Result<()> {
    let mut parted = false;
    for piece in path.split('\n') {
        if parted {
            complaints.write_all(b"?")?;
        }
        complaints.write_all(piece.as_bytes())?;
        parted = true;
    }
    Ok(())
}

impl Trouble {
    /// Of a sentence with PATH in the place of this one.
    pub fn new(sentence: &'static str, path: String) -> Trouble {
        Trouble { sentence, path }
    }

    /// Writes the sentence, without a line feed.
    pub fn write<E: Write>(&self, complaints: &mut E) -> io::Result<()> {
        match self.sentence.split_once("PATH") {
            Some((before, after)) => {
                complaints.write_all(before.as_bytes())?;
                write_path(complaints, self.path.as_str())?;
                complaints.write_all(after.as_bytes())
            }
            None => write!(complaints, "{}", self.sentence),
        }
    }
}
