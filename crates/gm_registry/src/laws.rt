//! What holds of all tables of a registry: laws, each the contract of a function that does nothing.

ghost use Rattle.std.specs.Prelude.{◌≡◌, ℕ, List};
ghost use Rattle.sqlite.specs.Held.{Held};
ghost use Rattle.gm_state.specs.declared.intents.Intent.{Intent};
ghost use Rattle.gm_state.specs.Records.{Records};
ghost use Rattle.gm_state.specs.Rows.{Tables};
ghost use Rattle.gm_changes.specs.Decides.{Changed};
ghost use Rattle.gm_registry.specs.Changes.{HoldsChange, with_accepted};
ghost use Rattle.gm_rows.specs.ReadableTables.{AreTablesOf, AreRepliesInRange};
ghost use Rattle.gm_registry.specs.Registry.{HasTables, HasTablesOf, HasSaved, IsRegistry, IsUnbroken, seen};
ghost use Rattle.gm_rows.specs.Says.{TablesSay, RepliesSay};
ghost use Rattle.gm_rows.specs.Tables.{HasRisingRowids};

use gm_state::one_row;
use sqlite::Alter;

/// Tables are of one state with one list of intents, and the same bytes.
pub fn one_reading()
    ensures { (t : Tables) (s r : Records) (ts us : List Intent) (bytes others : List (List ℕ))
        → AreTablesOf t s ts bytes → AreTablesOf t r us others
        → (s ≡ r) × (ts ≡ us) × (bytes ≡ others) }
{
    one_row();
}

/// With a change the tables hold the rows of the records with the change, its intents and its bytes
/// before those that were pending, and the command under its key and its further ones.
pub fn change_holds()
    ensures { (ch : Changed) (key words : List ℕ) (t : Tables)
        → HoldsChange ch key words t (with_accepted ch key words t) }
{}

/// A registry that has tables has them saved: a crash between two calls leaves them and nothing
/// else.
pub fn tables_are_saved<S: Alter>()
    ensures { (r : Held S) (t : Tables) → HasTables S.Store r t → HasSaved S.Store r t }
{}

/// A registry that was only read, as `load` reads it, has tables: those of the state, the intents
/// and the bytes that `load` tells. Two things are asked for. That the rowids rise in each table: a
/// read tells none but those of `intents`, and `sqlite` keeps its tables so, but no clause of a
/// connection says it. And that the replies are in range, which `load` doesn't read: a row with a
/// negative one is of no tables.
/// A registry that has tables has rowids that rise.
pub fn what_is_read_is_held<S: Alter>()
    ensures { (r : Held S) (s : Records) (ts : List Intent) (bytes : List (List ℕ))
        → IsRegistry S.Store r → HasRisingRowids (seen S.Store r)
        → TablesSay (seen S.Store r) s ts bytes → RepliesSay (seen S.Store r)
        → (it : HasTablesOf S.Store r s ts bytes) × AreRepliesInRange it.tables }
{}

/// The rowids rise in each table of a registry whose store isn't broken, as `sqlite` has it: no
/// call of it has failed so that it can't go on. Of an open connection that holds, but no clause
/// says it.
pub fn unbroken_rowids_rise<S: Alter>()
    ensures { (r : Held S) → IsRegistry S.Store r → IsUnbroken S.Store r
        → HasRisingRowids (seen S.Store r) }
{}
