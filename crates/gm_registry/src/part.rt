//! The part of the records that a command asks for, read by keys.

ghost use Rattle.std.specs.Prelude.{◌≡◌, IfOk, OnOk, filter, map};
ghost use Rattle.std.specs.List.{list_any};
ghost use Rattle.gm_metadata.specs.Images.{same_label};
ghost use Rattle.gm_state.specs.Records.{name};
ghost use Rattle.gm_registry.specs.Parts.{is_asked_by, AreAsked, AreSaidFor, SaysNoPart};
ghost use Rattle.gm_rows.specs.Queries.{shown_places};
ghost use Rattle.gm_rows.specs.Says.{mirror_shown};
ghost use Rattle.gm_rows.specs.Values.{columns_at, IsMirrorValue};
ghost use Rattle.gm_rows.specs.declared.fetched.Table.TheVariants.{Mirrors};
ghost use Rattle.gm_registry.specs.Registry.{seen, HasRead};
ghost use Rattle.gm_registry.specs.Tells.{LoadsPart, FailsReading, TellsRecords, TellsList};
ghost use Rattle.gm_registry.specs.Reads.{IsOurSchema};

use crate::components_by_key::{Key, components_under};
use crate::registry::Registry;
use crate::whole_tables::rows_of;
use gm_commands::Command;
use gm_metadata::Label;
use gm_refusals::{a_part_is_a_state, is_called, providers_of};
use gm_rows::{StoreFault, Table, read_all};
use gm_state::{Component, Mirror, State};
use sqlite::{Alter, Connection};
use std::alloc::{AllocError, Global};

/// The part of the records that a command asks for.
#[derive(Debug, Drop)]
pub struct Part {
    /// Each mirror that it asks for, with all its components.
    pub state: State,
    /// How many mirrors there are, asked for or not.
    pub mirrors: u64,
}

/// The records that a command asks for, in any order, and how many mirrors there are.
#[derive(Debug, Drop)]
pub(crate) struct Asked {
    pub mirrors: Vec<Mirror>,
    pub components: Vec<Component>,
    pub count: u64,
}

/// All mirrors, in any order.
pub(crate) fn all_mirrors<S: Alter>(
    alloc: Global,
    conn: &mut Connection<S>,
) -> Result<Vec<Mirror>, StoreFault>
    ensures tells { TellsList S.Store conn.old conn.new mirror_shown IsMirrorValue result
        (map (columns_at (shown_places Mirrors)) (seen S.Store conn.old 1)) (λ s. s.mirrors) }
    ensures read { OnOk result (HasRead S.Store conn.old conn.new) }
    ensures fails { FailsReading S.Store conn.old conn.new IsOurSchema result }
{
    let rows = rows_of(conn, Table::Mirrors)?;
    read_all(alloc, &rows)
}

/// Whether one of the components is the mirror's.
fn owns_one(components: &[Component], mirror: &Mirror) -> bool
    ensures { result ≡ list_any (λ k. same_label k.mirror mirror.now.name) components.now }
{
    components.iter().any(|k| k.mirror == mirror.name)
}

/// Whether the command calls for the mirror, or one of the components on named providers is its
/// own.
fn is_asked(command: &Command, mids: &[u32], named: &[Component], mirror: &Mirror) -> bool
    ensures { result ≡ is_asked_by command.now mids.now named.now mirror.now }
{
    is_called(command, mids, mirror) || owns_one(named, mirror)
}

fn asked_of(
    alloc: Global,
    command: &Command,
    mids: &[u32],
    named: &[Component],
    mirrors: &[Mirror],
) -> Result<Vec<Mirror>, AllocError>
    ensures { IfOk result (λ v. v.items
        ≡ filter (is_asked_by command.now mids.now named.now) mirrors.now) }
{
    mirrors
        .iter()
        .copied()
        .filter(|m| is_asked(command, mids, named, m))
        .collect(alloc)
}

fn names_of(alloc: Global, mirrors: &[Mirror]) -> Result<Vec<Label>, AllocError>
    ensures { IfOk result (λ v. v.items ≡ map name mirrors.now) }
{
    mirrors.iter().map(|m| m.name).collect(alloc)
}

/// Reads the mirrors, and components by keys.
fn read_asked<S: Alter>(
    alloc: Global,
    conn: &mut Connection<S>,
    command: &Command,
    mids: &[u32],
) -> Result<Asked, StoreFault>
    ensures tells { TellsRecords S.Store conn.old conn.new result (λ a. AreSaidFor
        (seen S.Store conn.old) command.now mids.now a.mirrors.items a.components.items a.count)
        (SaysNoPart (seen S.Store conn.old) command.now mids.now)
        (λ s. AreAsked s command.now mids.now) }
    ensures read { OnOk result (HasRead S.Store conn.old conn.new) }
    ensures fails { FailsReading S.Store conn.old conn.new IsOurSchema result }
{
    let all = all_mirrors(alloc, conn)?;
    let named = components_under(alloc, conn, Key::Provider, providers_of(command))?;
    let mirrors = asked_of(alloc, command, mids, &named, &all)?;
    let names = names_of(alloc, &mirrors)?;
    let components = components_under(alloc, conn, Key::Mirror, &names)?;
    let count = all.len() as u64;
    Ok(Asked {
        mirrors,
        components,
        count,
    })
}

/// Reads the part of the records that a command asks for.
fn part_on<S: Alter>(
    alloc: Global,
    conn: &mut Connection<S>,
    command: &Command,
    mids: &[u32],
) -> Result<Part, StoreFault>
    ensures { LoadsPart S.Store conn.old conn.new result command.now mids.now }
{
    a_part_is_a_state();
    let asked = read_asked(alloc, conn, command, mids)?;
    let mirrors = asked.count;
    match State::new(asked.mirrors, asked.components) {
        Some(state) => Ok(Part { state, mirrors }),
        None => Err(StoreFault::Unreadable),
    }
}

impl<S: Alter> Registry<S> {
    /// The part of the records that a command asks for, after some further mids, and how many
    /// mirrors there are. It reads all mirrors, of which the rules allow 64, and components by
    /// their keys alone. `Unreadable` only if those rows say no state, though others may say
    /// none either; `Memory`, `Store` as of any call.
    pub fn part(
        &mut self,
        alloc: Global,
        command: &Command,
        mids: &[u32],
    ) -> Result<Part, StoreFault>
        ensures { LoadsPart S.Store self.old self.new result command.now mids.now }
    {
        part_on(alloc, &mut self.conn, command, mids)
    }
}
