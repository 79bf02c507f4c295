//! What is printed of work, and how the program ends then.

use gm_process::Status;

/// How the work ended, and the text that is still to be printed.
#[derive(Drop)]
pub struct Report {
    pub status: Status,
    pub text: String,
}
