//! The table of the bytes that are to be laid, of at most one record: written inside a transaction.

ghost use Rattle.std.specs.Prelude.{⊤};
ghost use Rattle.gm_registry.specs.Changes.{with_patch, with_bytes, without_bytes};
ghost use Rattle.gm_registry.specs.Fitting.{TakesBytes, TakesPatch};
ghost use Rattle.gm_registry.specs.Registry.{ChangesInside};

use sqlite::{Alter, Error, Transaction, params};

/// Adds the record of bytes.
fn put_row<S: Alter>(tx: &mut Transaction<'_, S>, bytes: &[u8]) -> Result<usize, Error>
    ensures { ChangesInside S.Store tx.old tx.new result (with_patch bytes.now)
        (λ _. TakesPatch bytes.now) 0 }
{
    tx.execute(
        "INSERT INTO patches (one, bytes) VALUES (1, ?1)",
        params![bytes],
    )
}

/// Adds the record of these sectors, if there are some.
pub(crate) fn put_bytes<S: Alter>(
    tx: &mut Transaction<'_, S>,
    bytes: &[[u8; 512]],
) -> Result<(), Error>
    ensures { ChangesInside S.Store tx.old tx.new result (with_bytes bytes.now)
        (λ _. TakesBytes bytes.now) 0 }
{
    if bytes.is_empty() {
        return Ok(());
    }
    put_row(tx, bytes.as_flattened())?;
    Ok(())
}

/// Deletes all bytes.
pub(crate) fn drop_bytes<S: Alter>(tx: &mut Transaction<'_, S>) -> Result<usize, Error>
    ensures { ChangesInside S.Store tx.old tx.new result without_bytes (λ _ _. ⊤) 0 }
{
    tx.execute("DELETE FROM patches", &[])
}
