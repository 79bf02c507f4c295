//! The sentences of the bench's faults, as `gm_sentences` has those of refusals.

use gm_bench::{BenchFault, LossRefusal};
use gm_sentences::call_sentence;

/// Why an opening without an image is refused.
pub(crate) fn loss_sentence(why: LossRefusal) -> &'static str {
    match why {
        LossRefusal::ByCall(refusal) => call_sentence(refusal),
        LossRefusal::OnlySource => "a pending copy takes from IMAGE and can take from nothing else",
        LossRefusal::OnShelf => "IMAGE is on the shelf",
    }
}

/// Why the bench failed.
pub(crate) fn fault_sentence(fault: BenchFault) -> &'static str {
    match fault {
        BenchFault::Memory => "the system gave no more memory",
        BenchFault::Store => "the registry isn't one, or can't be read or written",
        BenchFault::Disk => "an image can't be read or written, or isn't the file that it was",
        BenchFault::Closed => "an earlier fault ended this",
        BenchFault::Absent(_) => "IMAGE isn't there as it was left, and a write to it is pending",
        BenchFault::Unreadable =>
            "the registry has a view, a table or statistics more, or rows that say no mirrors",
    }
}
