//! The stack that the program needs, taken before it begins.

use std::fs::File;
use std::io;
use std::os::unix::fs::FileExt;

// How many pages of 4 KiB are taken: more than twice what any command needs.
const PAGES: usize = 128;

/// Takes the stack that the program needs, which stays taken. A system lets a stack grow as it is
/// used, and may refuse that once the heap has come near a limit: so if there is too little, the
/// process ends here, by a signal, and not in the middle of a command. Fails if no file can be
/// opened.
#[inline(never)]
pub fn take_stack(rt: &HostRuntime) -> io::Result<()> {
    let mut room = [[0; 4096]; PAGES];
    // A folder can't be read. But what the system is handed no compiler leaves out.
    let _ = File::open(rt, "/")?.read_at(room.as_flattened_mut(), 0);
    Ok(())
}
