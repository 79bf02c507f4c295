//! The table of components, written by the provider, inside a transaction.

ghost use Rattle.std.specs.Prelude.{length, ⊤};
ghost use Rattle.gm_state.specs.Rows.{component_row};
ghost use Rattle.gm_registry.specs.Changes.{with_component, without_component, with_components, without_components};
ghost use Rattle.gm_registry.specs.Fitting.{HasRoom, TakesComponent};
ghost use Rattle.gm_registry.specs.FittingChanges.{ArePlacedInTurn};
ghost use Rattle.gm_registry.specs.Registry.{ChangesInside};

use gm_metadata::Label;
use gm_rows::{bytes_in, disk_number, truth_number};
use gm_state::Component;
use sqlite::{Alter, Error, Transaction, params};

/// Puts a component in place of the one on its provider.
fn put_component<S: Alter>(
    tx: &mut Transaction<'_, S>,
    component: Component,
) -> Result<usize, Error>
    ensures { ChangesInside S.Store tx.old tx.new result (with_component (component_row component))
        (TakesComponent (component_row component)) 1 }
{
    tx.execute(
        "INSERT INTO components (prov, mirror, did, syncid, priority, sync_offset, dflags, hard, provsize) VALUES (?1, ?2, ?3, ?4, ?5, ?6, ?7, ?8, ?9) ON CONFLICT (prov) DO UPDATE SET mirror = excluded.mirror, did = excluded.did, syncid = excluded.syncid, priority = excluded.priority, sync_offset = excluded.sync_offset, dflags = excluded.dflags, hard = excluded.hard, provsize = excluded.provsize",
        params![
            component.provider.as_str(),
            component.mirror.as_str(),
            component.did,
            component.syncid,
            u32::from(component.priority),
            bytes_in(component.disk.held()),
            disk_number(component.disk.flags()),
            truth_number(component.hardcoded),
            bytes_in(component.sectors),
        ],
    )
}

/// Puts each of the components in place of the one on its provider.
pub(crate) fn put_components<S: Alter>(
    tx: &mut Transaction<'_, S>,
    components: &[Component],
) -> Result<(), Error>
    ensures { ChangesInside S.Store tx.old tx.new result (with_components components.now)
        (λ db t. ArePlacedInTurn components.now t × HasRoom (length components.now) db)
        (length components.now) }
{
    'puts: for component in components {
        put_component(tx, *component)?;
    }
    Ok(())
}

/// Deletes the component on a provider.
fn drop_component<S: Alter>(tx: &mut Transaction<'_, S>, provider: Label) -> Result<usize, Error>
    ensures { ChangesInside S.Store tx.old tx.new result (without_component provider) (λ _ _. ⊤) 0 }
{
    tx.execute(
        "DELETE FROM components WHERE prov = ?1",
        params![provider.as_str()],
    )
}

/// Deletes the components on these providers.
pub(crate) fn drop_components<S: Alter>(
    tx: &mut Transaction<'_, S>,
    providers: &[Label],
) -> Result<(), Error>
    ensures { ChangesInside S.Store tx.old tx.new result (without_components providers.now)
        (λ _ _. ⊤) 0 }
{
    'drops: for provider in providers {
        drop_component(tx, *provider)?;
    }
    Ok(())
}
