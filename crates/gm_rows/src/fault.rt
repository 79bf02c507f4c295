//! Why a call of the registry fails.

ghost use Rattle.std.specs.Prelude.{◌≡◌, ◌≢◌, IfOk, IfErr, Ok, Err};
ghost use Rattle.sqlite.specs.declared.error.Error.{Error as SqlError};
ghost use Rattle.gm_rows.specs.Faults.{fault_number, fault_of, value_fault_of};

use sqlite::{Error, ErrorCode};
use std::alloc::AllocError;

/// Why the registry didn't do a call. After any of these it is opened again.
#[derive(Clone, Copy, Debug, PartialEq, Eq, thiserror::Error)]
pub enum StoreFault {
    /// Memory was refused.
    #[error("out of memory")]
    Memory,
    /// The store refused the call, or failed.
    #[error("the store failed")]
    Store,
    /// The store holds no registry, or one whose tables don't say a state.
    #[error("the registry is unreadable")]
    Unreadable,
}

impl StoreFault {
    /// Its number, 1 to 3, as texts and answers print it.
    pub fn number(self) -> u8
        ensures { result ≡ fault_number self }
    {
        match self {
            StoreFault::Memory => 1,
            StoreFault::Store => 2,
            StoreFault::Unreadable => 3,
        }
    }

    /// The fault that an error in reading a value is.
    fn of_value(error: Error) -> StoreFault
        ensures value { result ≡ value_fault_of error }
        ensures other { result ≢ StoreFault.Store }
    {
        match error {
            Error::SqliteFailure(ErrorCode::OutOfMemory) => StoreFault::Memory,
            _ => StoreFault::Unreadable,
        }
    }
}

impl From<Error> for StoreFault {
    ghost from_gives = { λ error fault. fault ≡ fault_of error };

    fn from(error: Error) -> Self {
        match error {
            Error::SqliteFailure(ErrorCode::OutOfMemory) => StoreFault::Memory,
            _ => StoreFault::Store,
        }
    }
}

impl From<AllocError> for StoreFault {
    ghost use Rattle.gm_rows.specs.declared.fault.StoreFault.TheVariants.{Memory};

    ghost from_gives = { λ _ fault. fault ≡ Memory };

    fn from(_error: AllocError) -> Self {
        StoreFault::Memory
    }
}

/// The value that was read of a row; a value that the tables aren't to hold is unreadable.
pub fn readable<T>(read: Result<T, Error>) -> Result<T, StoreFault>
    ensures read { IfOk result (λ value. read ≡ Ok value) }
    ensures other { IfErr result (λ fault. fault ≢ StoreFault.Store) }
    ensures fault { IfErr result (λ fault. (error : SqlError) × (read ≡ Err error)
        × (fault ≡ value_fault_of error)) }
{
    match read {
        Ok(value) => Ok(value),
        Err(error) => Err(StoreFault::of_value(error)),
    }
}
