//! The files that SQLite puts beside a database, among the entries of a folder.

ghost use Rattle.std.specs.Prelude.{◌≡◌, ◌++◌, IfOk, map};
ghost use Rattle.std.specs.List.{list_any};
ghost use Rattle.std.specs.Str.{bytes_eq};
ghost use Rattle.std.specs.String.{string_bytes};
ghost use Rattle.gm_registry_files.specs.Beside.{is_beside, is_with, names_of, without_beside};

use gm_metadata::Label;
use gm_shelf::PassedOver;
use std::alloc::{AllocError, Global};

/// What SQLite appends to a database's name for the files that it puts beside it.
pub(crate) const BESIDE: [&str; 3] = ["-wal", "-shm", "-journal"];

// The names of what was passed over.
fn names_of(alloc: Global, passed: &[PassedOver]) -> Result<Vec<String>, AllocError>
    ensures { IfOk result (λ names. map string_bytes names.items ≡ names_of passed.now) }
{
    let mut names = Vec::new(alloc);
    for x in passed {
        names.push(String::from_str(alloc, x.name.as_str())?)?;
    }
    Ok(names)
}

fn is_image(images: &[Label], name: &[u8]) -> bool
    ensures { result ≡ list_any (λ x. bytes_eq x name.now) images.now }
{
    images.iter().any(|x| x.as_str().as_bytes() == name)
}

fn is_other(others: &[String], name: &[u8]) -> bool
    ensures { result ≡ list_any (λ x. bytes_eq (string_bytes x) name.now) others.now }
{
    others.iter().any(|x| x.as_bytes() == name)
}

// Whether one of the images has this name, or one of the others.
fn is_one(images: &[Label], others: &[String], name: &[u8]) -> bool
    ensures { result ≡ list_any (λ x. bytes_eq x name.now)
        (images.now ++ map string_bytes others.now) }
{
    is_image(images, name) || is_other(others, name)
}

// Whether SQLite puts a file of this name, with this suffix, beside one of them.
fn is_with(images: &[Label], others: &[String], name: &str, suffix: &str) -> bool
    ensures { result ≡ is_with (images.now ++ map string_bytes others.now) name.now suffix.now }
{
    match name.as_bytes().strip_suffix(suffix.as_bytes()) {
        Some(database) => is_one(images, others, database),
        None => false,
    }
}

// Whether SQLite puts a file of this name beside one of them.
fn is_beside(images: &[Label], others: &[String], name: &str) -> bool
    ensures { result ≡ is_beside (images.now ++ map string_bytes others.now) name.now }
{
    BESIDE
        .iter()
        .any(|suffix| is_with(images, others, name, suffix))
}

/// What was passed over in a folder of these images, without the files that SQLite would put beside
/// one of its entries. That this one is a database isn't asked for, and names are compared as they
/// are told.
pub fn without_beside(
    alloc: Global,
    images: &[Label],
    passed: Vec<PassedOver>,
) -> Result<Vec<PassedOver>, AllocError>
    ensures { IfOk result (λ left. left.items ≡ without_beside images.now passed.items) }
{
    let names = names_of(alloc, &passed)?;
    let mut left = passed;
    left.retain(|x| !is_beside(images, &names, x.name.as_str()));
    Ok(left)
}
