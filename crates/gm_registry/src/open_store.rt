//! What is found in a store that is opened: nothing, a registry, or something else.

ghost use Rattle.std.specs.Prelude.{◌≡◌, ◌↔◌, false, map, IsTrue, OnOk, IsPermutation};
ghost use Rattle.sqlite.specs.Held.{state};
ghost use Rattle.gm_lists.specs.Ordered.{Has};
ghost use Rattle.gm_rows.specs.Schema.{no_schema};
ghost use Rattle.gm_rows.specs.Queries.{IsShown};
ghost use Rattle.gm_rows.specs.declared.fetched.Table.TheVariants.{About};
ghost use Rattle.gm_registry.specs.Opening.{SeesOneOfThem, schema_of, IsNumbered, IsOfRegistry, SeesFirstStore};
ghost use Rattle.gm_registry.specs.Opens.{FailsToTake, CarriesOver, GoesByTexts, Opens};
ghost use Rattle.gm_registry.specs.Listing.{listed, under_number, tables_of, AllStand, ShowsList};
ghost use Rattle.gm_registry.specs.declared.edition.Edition.{Edition};
ghost use Rattle.gm_registry.specs.declared.edition.Edition.TheVariants.{First};
ghost use Rattle.gm_rows.specs.Values.{columns_at, two};
ghost use Rattle.sqlite_rows.specs.Reads.{HasReadOver, HasFailedOver};
ghost use Rattle.gm_registry.specs.Registry.{DiskKept, IsOpen, seen, WasClean};
ghost use Rattle.gm_registry.specs.Tells.{Queries};

use crate::carry_over::carry_over;
use crate::create::create_all;
use crate::edition::Edition;
use gm_rows::{
    ABOUT, COMMANDS, COMPONENTS, INTENTS, MIRRORS, PATCHES, StoreFault, Table, is_about,
    is_number_at, is_text_at,
};
use sqlite::{Alter, Connection, Row};
use sqlite_schema::schema::Schema;

/// Whether a store has no table, no index and no view.
fn is_empty(schema: &Schema) -> bool
    ensures { IsTrue result ↔ (schema.now ≡ no_schema) }
{
    schema.tables.as_slice().is_empty()
        && schema.indexes.as_slice().is_empty()
        && schema.views.as_slice().is_empty()
}

/// The schema of a registry with so many tables.
fn edition_of(schema: &Schema) -> Edition
    ensures { (edition : Edition) → schema.now ≡ schema_of edition → result ≡ edition }
{
    if schema.tables.as_slice().len() == 5 {
        Edition::First
    } else {
        Edition::Second
    }
}

/// The number and the text of each object that has a text.
fn load_texts<S: Alter>(conn: &mut Connection<S>) -> Result<Vec<Row>, StoreFault>
    ensures { Queries S.Store conn.old conn.new ShowsList result
        (λ rows. IsPermutation (listed (seen S.Store conn.old)) rows.items) }
{
    match conn.query_all(
        "SELECT rowid, sql FROM sqlite_schema WHERE sql IS NOT NULL",
        &[],
    ) {
        Ok(rows) => Ok(rows),
        Err(error) => Err(StoreFault::from(error)),
    }
}

fn is_text_under(row: &Row, number: u64, text: &str) -> bool
    ensures { IsTrue result ↔ (columns_at two row.now ≡ under_number number text.now) }
{
    is_number_at(row, 0, number) && is_text_at(row, 1, text)
}

/// Whether one of the rows shows this text under this number.
fn shows_text(rows: &[Row], number: u64, text: &str) -> bool
    ensures { IsTrue result ↔ Has (map (columns_at two) rows.now) (under_number number text.now) }
{
    'rows: for row in rows {
        if is_text_under(row, number, text) {
            return true;
        }
    }
    false
}

/// Whether the rows show the texts of the five tables of the first schema. The numbers between them
/// are those of the indexes that their keys make.
fn show_first_texts(rows: &[Row]) -> bool
    ensures { IsTrue result ↔ AllStand (map (columns_at two) rows.now) (tables_of First) }
{
    shows_text(rows, 1, ABOUT)
        && shows_text(rows, 2, MIRRORS)
        && shows_text(rows, 5, COMPONENTS)
        && shows_text(rows, 8, INTENTS)
        && shows_text(rows, 9, COMMANDS)
}

/// Whether the rows show the texts of the tables of this schema, and no other.
fn are_texts(rows: &[Row], edition: Edition) -> bool
    ensures { IsTrue result ↔ IsPermutation (tables_of edition) (map (columns_at two) rows.now) }
{
    match edition {
        Edition::First => rows.len() == 5 && show_first_texts(rows),
        Edition::Second => {
            rows.len() == 6 && show_first_texts(rows) && shows_text(rows, 12, PATCHES)
        }
    }
}

/// All rows of `about`.
fn about_rows<S: Alter>(conn: &mut Connection<S>) -> Result<Vec<Row>, StoreFault>
    ensures { Queries S.Store conn.old conn.new IsOfRegistry result
        (λ rows. IsShown (seen S.Store conn.old) About rows.items) }
{
    match conn.query_all(Table::About.query(), &[]) {
        Ok(rows) => Ok(rows),
        Err(error) => Err(StoreFault::from(error)),
    }
}

/// Whether a store with tables is a registry of this schema, by the texts of its tables and the
/// record of `about`.
fn check_registry<S: Alter>(conn: &mut Connection<S>, edition: Edition) -> Result<(), StoreFault>
    ensures knows { GoesByTexts S.Store conn.old conn.new result edition }
    ensures about { DiskKept S.Store conn.new
        → OnOk result (SeesOneOfThem (state S.Store conn.old)
        → IsNumbered edition (seen S.Store conn.old)) }
    ensures fails { FailsToTake S.Store conn.old conn.new result edition SeesOneOfThem }
    ensures read { OnOk result (HasReadOver IsOfRegistry (state S.Store conn.old)
        (state S.Store conn.new)) }
    ensures failed { HasFailedOver IsOfRegistry (state S.Store conn.old) (state S.Store conn.new) }
{
    let texts = load_texts(conn)?;
    if !are_texts(&texts, edition) {
        return Err(StoreFault::Unreadable);
    }
    let about = about_rows(conn)?;
    if !is_about(&about, edition.number()) {
        return Err(StoreFault::Unreadable);
    }
    Ok(())
}

/// Takes a registry of the first schema, which is carried over to the second.
fn take_first<S: Alter>(conn: &mut Connection<S>) -> Result<(), StoreFault>
    ensures carries { CarriesOver S.Store conn.old conn.new result SeesFirstStore }
    ensures fails { FailsToTake S.Store conn.old conn.new result First SeesFirstStore }
    ensures knows { GoesByTexts S.Store conn.old conn.new result First }
    ensures clean { WasClean S.Store conn.old conn.new }
{
    check_registry(conn, Edition::First)?;
    carry_over(conn)?;
    Ok(())
}

/// Makes the tables in a store without any, and carries those of the first schema over;
/// `Unreadable` if there are others than a registry's.
pub(crate) fn prepare<S: Alter>(conn: &mut Connection<S>) -> Result<(), StoreFault>
    requires { conn.old.in_transaction ≡ false }
    ensures opens { IsOpen S.Store conn.old → Opens S.Store conn.old conn.new result }
    ensures clean { WasClean S.Store conn.old conn.new }
{
    // Outside a transaction a connection sees what is committed, which this call tells.
    let _settled = conn.is_autocommit();
    if is_empty(conn.schema()) {
        create_all(conn)?;
        return Ok(());
    }
    match edition_of(conn.schema()) {
        Edition::First => take_first(conn),
        Edition::Second => check_registry(conn, Edition::Second),
    }
}
