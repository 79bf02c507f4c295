//! Which components the shelf shows otherwise than they are registered. Nothing is written.

ghost use Rattle.std.specs.Prelude.{◌≡◌, IfOk, map};
ghost use Rattle.gm_shelf.specs.Keeping.{Looks};
ghost use Rattle.gm_state.specs.Records.{IsState};
ghost use Rattle.gm_looks.specs.Audits.{IsAudit};

use crate::unlike::{Meant, Unlike, unlike_shelf};
use gm_metadata::Label;
use gm_shelf::{Shelf, ShelfFault};
use gm_state::State;
use std::alloc::{AllocError, Global};

// Their names.
fn names_of(alloc: Global, list: &[Unlike]) -> Result<Vec<Label>, AllocError>
    ensures { IfOk result (λ names. names.items ≡ map (λ e. e.provider) list.now) }
{
    let mut names = Vec::new(alloc);
    for unlike in list {
        names.push(unlike.provider)?;
    }
    Ok(names)
}

/// The names of the components of a state that the shelf shows otherwise than they are registered,
/// in byte order: a provider that isn't there or has another size, or a last sector that isn't byte
/// for byte the component's metadata. `Device` if a last sector can't be read, or `Memory`.
pub fn audit_shelf<H: Shelf>(
    alloc: Global,
    shelf: &mut H,
    state: &State,
) -> Result<Vec<Label>, ShelfFault>
    ensures audit { H.honest shelf.old → IfOk result (λ names.
        IsAudit state.now (H.size shelf.old) (H.view shelf.old).seen names.items) }
    ensures looks { Looks H.Shelf shelf.old shelf.new result }
{
    let list = unlike_shelf(alloc, shelf, state, Meant::All)?;
    Ok(names_of(alloc, &list)?)
}
