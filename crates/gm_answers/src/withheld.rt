//! What is said if images stand in the way of a command, or it would lose something.

use gm_looks::{Standing, Unlike};
use std::io::Write;

// What may have happened to an image, and the way on.
fn way_on(standing: Standing) -> &'static str {
    match standing {
        Standing::AsRegistered => "is as it is registered",
        Standing::Absent => "isn't in the folder: bring it back, or give it up by lost",
        Standing::AnotherSize => {
            "hasn't the size that is registered: bring the right one back, replace it, or give it \
up by lost"
        }
        Standing::Zero | Standing::NoMetadata | Standing::Damaged => {
            "is another file or was overwritten: bring the right one back, mend it, replace it, or \
give it up by lost"
        }
        Standing::AnotherMirror | Standing::AnotherComponent => {
            "is another image, by what it says: were names exchanged? See dump and taste"
        }
        Standing::Older => {
            "is older than the registry: bring the newer one back, or give this one up by lost"
        }
        Standing::Newer => {
            "is newer than the registry, which is an old one: find the newest, or adopt the images"
        }
        Standing::Member => "was changed by something else: see dump",
    }
}

/// Says of each image that stands in the way of a command what may have happened to it, and then
/// how the command is carried out all the same.
pub(crate) fn say_withheld<E: Write>(
    complaints: &mut E,
    key: &str,
    list: &[Unlike],
    all_the_same: &str,
) {
    for unlike in list {
        let provider = unlike.provider;
        let way_on = way_on(unlike.standing);
        let _ = writeln!(complaints, "{key}: {provider} {way_on}");
    }
    let _ = writeln!(complaints, "{key}: {all_the_same}");
}

/// Says what would be lost by a command, and then how it is carried out all the same.
pub(crate) fn say_losing<E: Write>(
    complaints: &mut E,
    key: &str,
    sentences: &[String],
    all_the_same: &str,
) {
    for sentence in sentences {
        let _ = writeln!(complaints, "{key}: {sentence}");
    }
    let _ = writeln!(complaints, "{key}: {all_the_same}");
}
