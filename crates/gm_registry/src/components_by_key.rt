//! The components under a key: on a provider, or of a mirror.

ghost use Rattle.std.specs.Prelude.{◌≡◌, OnOk, flat_map};
ghost use Rattle.gm_registry.specs.Keys.{key_text, shown_under, AreUnder, under};
ghost use Rattle.gm_rows.specs.Says.{component_shown};
ghost use Rattle.gm_rows.specs.Values.{IsComponentValue};
ghost use Rattle.gm_registry.specs.Registry.{seen, HasRead, HaveRead};
ghost use Rattle.gm_registry.specs.Tells.{FailsReading, TellsList, Queries};
ghost use Rattle.gm_registry.specs.Reads.{IsOurSchema};

use gm_metadata::Label;
use gm_rows::{StoreFault, read_all};
use gm_state::Component;
use sqlite::{Alter, Connection, Row, params};
use std::alloc::Global;

/// The columns of `components` by which its rows are asked for.
#[derive(Clone, Copy, Debug, PartialEq, Eq)]
pub(crate) enum Key {
    Provider,
    Mirror,
}

impl Key {
    /// The query that shows the rows with one label in this column.
    fn query(self) -> &'static str
        ensures { result.now ≡ key_text self }
    {
        match self {
            Key::Provider => {
                "SELECT prov, mirror, did, syncid, priority, sync_offset, dflags, hard, provsize FROM components WHERE prov = ?1"
            }
            Key::Mirror => {
                "SELECT prov, mirror, did, syncid, priority, sync_offset, dflags, hard, provsize FROM components WHERE mirror = ?1"
            }
        }
    }
}

/// The rows of `components` with a label in the column of the key.
fn rows_under<S: Alter>(
    conn: &mut Connection<S>,
    key: Key,
    label: &str,
) -> Result<Vec<Row>, StoreFault>
    ensures { Queries S.Store conn.old conn.new IsOurSchema result
        (λ rows. AreUnder (seen S.Store conn.old) key label.now rows.items) }
{
    match conn.query_all(key.query(), params![label]) {
        Ok(rows) => Ok(rows),
        Err(error) => Err(StoreFault::from(error)),
    }
}

/// The components with a label in the column of the key.
pub(crate) fn components_with<S: Alter>(
    alloc: Global,
    conn: &mut Connection<S>,
    key: Key,
    label: Label,
) -> Result<Vec<Component>, StoreFault>
    ensures tells { TellsList S.Store conn.old conn.new component_shown IsComponentValue result
        (shown_under (seen S.Store conn.old) key label) (λ s. under key s.components label) }
    ensures read { OnOk result (HasRead S.Store conn.old conn.new) }
    ensures fails { FailsReading S.Store conn.old conn.new IsOurSchema result }
{
    let rows = rows_under(conn, key, label.as_str())?;
    read_all(alloc, &rows)
}

/// The components with one of these labels in the column of the key, label by label.
pub(crate) fn components_under<S: Alter>(
    alloc: Global,
    conn: &mut Connection<S>,
    key: Key,
    labels: &[Label],
) -> Result<Vec<Component>, StoreFault>
    ensures tells { TellsList S.Store conn.old conn.new component_shown IsComponentValue result
        (flat_map (shown_under (seen S.Store conn.old) key) labels.now)
        (λ s. flat_map (under key s.components) labels.now) }
    ensures read { OnOk result (HaveRead S.Store conn.old conn.new) }
    ensures fails { FailsReading S.Store conn.old conn.new IsOurSchema result }
{
    let mut all = Vec::new(alloc);
    'labels: for label in labels {
        let some = components_with(alloc, conn, key, *label)?;
        all.extend_from_slice(&some)?;
    }
    Ok(all)
}
