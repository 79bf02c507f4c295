//! What the tests of several crates stand on: images on a shelf in memory, a shelf that counts what
//! is done to it, and a store of two files on disks in memory, of which each serves so many calls
//! and then stops.
//!
//! `images.rt` has the images, `counting_shelf.rt` the shelf that counts, which keeps to the law of
//! the one that it wraps, and `stopping_store.rt` the store. Only tests call these. They promise
//! what a test couldn't see to be wrong: that `must` fails just if nothing holds, that each file
//! serves so many calls as it is given, and that the bytes taken of files are theirs. Of the rest
//! they promise nothing but to be safe, since a wrong image or name fails the tests, whose expected
//! values are worked out by hand where they stand.
#![tactic(auto)]

mod counting_shelf;
mod images;
mod stopping_store;

pub use counting_shelf::{CallCounts, CountingShelf};
pub use images::{add, image, in_version, label, must, must_be_alike, sector, shelf};
pub use stopping_store::{ALL, Calls, StoreBytes, memory};
