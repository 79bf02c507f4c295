//! What holds of the first bytes of logs: laws, the contracts of functions that do nothing.

ghost use Rattle.std.specs.Prelude.{◌≡◌, ℕ, List, true};
ghost use Rattle.sqlite_wal.specs.Format.{IsSigned};
ghost use Rattle.gm_registry_files.specs.Obstacles.{is_log_head, IsStopped};

/// Whatever SQLite's crate reads as a log is taken for one.
pub fn signed_heads_pass()
    ensures { (head : List ℕ) → IsSigned head → is_log_head head ≡ true }
{}

/// So is what a stop leaves while one is emptied: while SQLite's crate writes another header.
pub fn stopped_heads_pass()
    ensures { (old written left : List ℕ) → is_log_head old ≡ true → IsSigned written
        → IsStopped old written left → is_log_head left ≡ true }
{}
