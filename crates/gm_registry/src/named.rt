//! The images that pending intents name, which is asked before a registry is opened.

ghost use Rattle.std.specs.Prelude.{ℕ, List, IfOk, IfSome, OnOk};
ghost use Rattle.gm_lists.specs.Ordered.{Has};
ghost use Rattle.gm_registry.specs.Named.{AreNamed, AreNamedIn, Names};
ghost use Rattle.gm_registry.specs.Reads.{IsOurSchema};
ghost use Rattle.gm_registry.specs.Registry.{seen};
ghost use Rattle.gm_registry.specs.Tells.{Queries};

use crate::whole_tables::rows_of;
use gm_metadata::Label;
use gm_rows::{StoreFault, Table, label_at};
use sqlite::{Alter, Connection, Row};
use std::alloc::{AllocError, Global};

/// Adds a name, if there is one.
fn add(names: &mut Vec<Label>, name: Option<Label>) -> Result<(), AllocError>
    ensures kept { OnOk result ((x : List ℕ) → Has names.old.items x → Has names.new.items x) }
    ensures added { OnOk result (IfSome name (Has names.new.items)) }
{
    match name {
        Some(name) => Ok(names.push(name)?),
        None => Ok(()),
    }
}

/// Adds the images that a row of an intent names.
fn add_named(names: &mut Vec<Label>, row: &Row) -> Result<(), AllocError>
    ensures kept { OnOk result ((x : List ℕ) → Has names.old.items x → Has names.new.items x) }
    ensures added { OnOk result ((x : List ℕ) → Names row.now x → Has names.new.items x) }
{
    add(names, label_at(row, 2))?;
    add(names, label_at(row, 3))
}

/// The images that rows of intents name.
fn named_by(alloc: Global, rows: &[Row]) -> Result<Vec<Label>, AllocError>
    ensures { IfOk result (λ names. AreNamed rows.now names.items) }
{
    let mut names = Vec::new(alloc);
    for row in rows {
        add_named(&mut names, row)?;
    }
    Ok(names)
}

/// The images that the pending intents of a store name, sources too; one may come several times. It
/// is for a store that isn't opened as a registry yet: whatever its rows are, a name that is no
/// label is passed over. `Store` too if it has no table of intents.
pub fn named_images<S: Alter>(
    alloc: Global,
    conn: &mut Connection<S>,
) -> Result<Vec<Label>, StoreFault>
    ensures { Queries S.Store conn.old conn.new IsOurSchema result
        (λ names. AreNamedIn (seen S.Store conn.old) names.items) }
{
    let rows = rows_of(conn, Table::Intents)?;
    Ok(named_by(alloc, &rows)?)
}
