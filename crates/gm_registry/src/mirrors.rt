//! The table of mirrors, written by the name, inside a transaction.

ghost use Rattle.gm_state.specs.Rows.{mirror_row};
ghost use Rattle.gm_registry.specs.Changes.{with_mirror, without_mirror};
ghost use Rattle.gm_registry.specs.Fitting.{HasNoComponents, TakesMirror};
ghost use Rattle.gm_registry.specs.Registry.{ChangesInside};

use gm_metadata::Label;
use gm_rows::{balance_number, bytes_in, mirror_number};
use gm_state::Mirror;
use sqlite::{Alter, Error, Transaction, params};

/// Puts a mirror in place of the one of its name.
pub(crate) fn put_mirror<S: Alter>(
    tx: &mut Transaction<'_, S>,
    mirror: Mirror,
) -> Result<usize, Error>
    ensures { ChangesInside S.Store tx.old tx.new result (with_mirror (mirror_row mirror))
        (TakesMirror (mirror_row mirror)) 1 }
{
    tx.execute(
        "INSERT INTO mirrors (name, mid, total, genid, syncid, slice, balance, mediasize, mflags) VALUES (?1, ?2, ?3, ?4, ?5, ?6, ?7, ?8, ?9) ON CONFLICT (name) DO UPDATE SET mid = excluded.mid, total = excluded.total, genid = excluded.genid, syncid = excluded.syncid, slice = excluded.slice, balance = excluded.balance, mediasize = excluded.mediasize, mflags = excluded.mflags",
        params![
            mirror.name.as_str(),
            mirror.mid,
            u32::from(mirror.all),
            mirror.genid,
            mirror.syncid,
            mirror.slice,
            balance_number(mirror.balance),
            bytes_in(mirror.data_sectors),
            mirror_number(mirror.flags),
        ],
    )
}

/// Deletes the mirror of a name.
pub(crate) fn drop_mirror<S: Alter>(
    tx: &mut Transaction<'_, S>,
    name: Label,
) -> Result<usize, Error>
    ensures { ChangesInside S.Store tx.old tx.new result (without_mirror name)
        (λ _. HasNoComponents name) 0 }
{
    tx.execute(
        "DELETE FROM mirrors WHERE name = ?1",
        params![name.as_str()],
    )
}
