//! Where a bench is.

/// The paths of a registry, and of the folder with the images that it keeps record of.
#[derive(Clone, Copy)]
pub struct Place<'a> {
    pub registry: &'a str,
    pub folder: &'a str,
}
