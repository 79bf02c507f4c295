//! Which images that pending writes name can't be what a stop left.

ghost use Rattle.std.specs.Prelude.{◌≡◌, ◌+◌, ◌≤◌, ◌⊎◌, ◌↔◌, ℕ, List, IfOk, IfSome, IsOkUnless, IsTrue, OnOk};
ghost use Rattle.gm_shelf.specs.declared.fault.ShelfFault.TheVariants.{Memory};
ghost use Rattle.gm_lists.specs.Ordered.{Has};
ghost use Rattle.gm_shelf.specs.Keeping.{Looks};
ghost use Rattle.gm_state.specs.Lookups.{component_of};
ghost use Rattle.gm_state.specs.Records.{IsState};
ghost use Rattle.gm_stopped.specs.Strange.{AreStrange, HasStrange, HasStrangeOf, IsStrange, IsStrangeTo, first_need, has_right_size, missing, missing_in, missing_of, second_need, strange_names, with_name, with_strange, with_strange_of};

use crate::leavings::may_be_left;
use crate::stopped::{Role, Stopped};
use gm_metadata::Label;
use gm_shelf::{Shelf, ShelfFault, read_last};
use gm_state::{Intent, State};
use gm_taste::Provider;
use std::alloc::{AllocError, Global};

/// An image that a pending write names, and how that needs it.
#[derive(Clone, Copy)]
pub struct Need {
    pub image: Label,
    pub role: Role,
}

// Which image a write names first, and how it needs it.
fn first_need(intent: &Intent) -> Need
    ensures { result ≡ first_need intent.now }
{
    let (image, role) = match *intent {
        Intent::Meta { provider } | Intent::Dirty { provider } | Intent::Patch { provider, .. } => {
            (provider, Role::Written)
        }
        Intent::Clear { provider } => (provider, Role::Cleared),
        Intent::Copy { source, .. } => (source, Role::Source),
    };
    Need { image, role }
}

// A copy also names the image that it fills.
fn second_need(intent: &Intent) -> Option<Need>
    ensures { result ≡ second_need intent.now }
{
    match *intent {
        Intent::Copy { target, first, .. } => Some(Need {
            image: target,
            role: Role::Target { first },
        }),
        _ => None,
    }
}

// Whether so many sectors are those that are registered; of no component any are.
fn has_right_size(state: &State, image: Label, sectors: u64) -> bool
    ensures { result ≡ has_right_size (component_of state.now image) sectors }
{
    match state.component(image) {
        Some(component) => u64::from(component.sectors) == sectors,
        None => true,
    }
}

// Whether an image is there in its size, and can't be what a stop left. `Device` if its last sector
// can't be read.
fn is_strange<H: Shelf>(
    shelf: &mut H,
    state: &State,
    stopped: &Stopped,
    need: Need,
) -> Result<bool, ShelfFault>
    ensures strange { H.honest shelf.old → IfOk result (λ is. IsTrue is
        ↔ IsStrange state.now stopped.now (H.size shelf.old) (H.view shelf.old).seen need) }
    ensures looks { Looks H.Shelf shelf.old shelf.new result }
{
    let Some(sectors) = shelf.sectors(need.image) else {
        return Ok(false);
    };
    if !has_right_size(state, need.image, sectors) {
        return Ok(false);
    }
    let Some(last) = read_last(shelf, need.image)? else {
        return Ok(false);
    };
    let provider = Provider {
        name: need.image,
        sectors,
        last,
    };
    Ok(!may_be_left(state, stopped, need.role, &provider))
}

// Adds a name, unless it is there already.
fn add(names: &mut Vec<Label>, name: Label) -> Result<(), AllocError>
    ensures kept { (p : List ℕ) → Has names.old.items p → Has names.new.items p }
    ensures only { (p : List ℕ) → Has names.new.items p → Has names.old.items p ⊎ (p ≡ name) }
    ensures added { OnOk result (Has names.new.items name) }
    ensures listed { OnOk result (names.new.items ≡ with_name names.old.items name) }
{
    if !names.contains(&name) {
        names.push(name)?;
    }
    Ok(())
}

// Adds an image if it is strange. One that can't be read isn't.
fn add_if_strange<H: Shelf>(
    names: &mut Vec<Label>,
    shelf: &mut H,
    state: &State,
    stopped: &Stopped,
    need: Need,
) -> Result<(), ShelfFault>
    ensures kept { (p : List ℕ) → Has names.old.items p → Has names.new.items p }
    ensures told { H.honest shelf.old → (p : List ℕ) → Has names.new.items p
        → Has names.old.items p ⊎ ((need.image ≡ p)
        × IsStrange state.now stopped.now (H.size shelf.old) (H.view shelf.old).seen need) }
    ensures others { H.honest shelf.old → OnOk result
        ((H.view shelf.new).faults ≡ (H.view shelf.old).faults
        → IsStrange state.now stopped.now (H.size shelf.old) (H.view shelf.old).seen need
        → Has names.new.items need.image) }
    ensures listed { H.honest shelf.old → OnOk result
        ((H.view shelf.new).faults ≡ (H.view shelf.old).faults
        → names.new.items ≡ with_strange state.now stopped.now (H.size shelf.old)
        (H.view shelf.old).seen names.old.items need) }
    ensures missed { H.honest shelf.old → OnOk result (missing state.now stopped.now
        (H.size shelf.old) (H.view shelf.old).seen names.new.items need
        + (H.view shelf.old).faults ≤ (H.view shelf.new).faults) }
    ensures memory { IsOkUnless result Memory }
    ensures looks { Looks H.Shelf shelf.old shelf.new result }
{
    match is_strange(shelf, state, stopped, need) {
        Ok(true) => Ok(add(names, need.image)?),
        Ok(false) => Ok(()),
        Err(ShelfFault::Device) => Ok(()),
        Err(_) => Err(ShelfFault::Memory),
    }
}

// Adds the images that a write needs and that are strange.
fn add_strange_of<H: Shelf>(
    names: &mut Vec<Label>,
    shelf: &mut H,
    state: &State,
    stopped: &Stopped,
    intent: &Intent,
) -> Result<(), ShelfFault>
    ensures kept { (p : List ℕ) → Has names.old.items p → Has names.new.items p }
    ensures told { H.honest shelf.old → (p : List ℕ) → Has names.new.items p
        → Has names.old.items p ⊎ IsStrangeTo state.now stopped.now (H.size shelf.old)
        (H.view shelf.old).seen intent.now p }
    ensures others { H.honest shelf.old → OnOk result
        ((H.view shelf.new).faults ≡ (H.view shelf.old).faults → HasStrangeOf state.now
        stopped.now (H.size shelf.old) (H.view shelf.old).seen intent.now names.new.items) }
    ensures listed { H.honest shelf.old → OnOk result
        ((H.view shelf.new).faults ≡ (H.view shelf.old).faults
        → names.new.items ≡ with_strange_of state.now stopped.now (H.size shelf.old)
        (H.view shelf.old).seen names.old.items intent.now) }
    ensures missed { H.honest shelf.old → OnOk result (missing_of state.now stopped.now
        (H.size shelf.old) (H.view shelf.old).seen names.new.items intent.now
        + (H.view shelf.old).faults ≤ (H.view shelf.new).faults) }
    ensures memory { IsOkUnless result Memory }
    ensures looks { Looks H.Shelf shelf.old shelf.new result }
{
    add_if_strange(names, shelf, state, stopped, first_need(intent))?;
    if let Some(need) = second_need(intent) {
        add_if_strange(names, shelf, state, stopped, need)?;
    }
    Ok(())
}

/// The images that pending writes name, and that are there in their size, but can't be what a stop
/// of this command left, in the order in which the writes name them. The state is the one that is
/// registered since. What isn't there, has another size or can't be read isn't listed: an opening
/// finds that by itself. `Memory` alone, and nothing is written.
pub fn strange_images<H: Shelf>(
    alloc: Global,
    shelf: &mut H,
    state: &State,
    intents: &[Intent],
    stopped: &Stopped,
) -> Result<Vec<Label>, ShelfFault>
    ensures told { H.honest shelf.old → IfOk result (λ names. AreStrange state.now stopped.now
        (H.size shelf.old) (H.view shelf.old).seen intents.now names.items) }
    ensures others { H.honest shelf.old
        → (H.view shelf.new).faults ≡ (H.view shelf.old).faults → IfOk result (λ names. HasStrange
        state.now stopped.now (H.size shelf.old) (H.view shelf.old).seen intents.now names.items) }
    ensures listed { H.honest shelf.old
        → (H.view shelf.new).faults ≡ (H.view shelf.old).faults → IfOk result (λ names. names.items
        ≡ strange_names state.now stopped.now (H.size shelf.old) (H.view shelf.old).seen
        intents.now) }
    ensures missed { H.honest shelf.old → IfOk result (λ names. missing_in state.now stopped.now
        (H.size shelf.old) (H.view shelf.old).seen names.items intents.now
        + (H.view shelf.old).faults ≤ (H.view shelf.new).faults) }
    ensures memory { IsOkUnless result Memory }
    ensures looks { Looks H.Shelf shelf.old shelf.new result }
{
    let mut names = Vec::new(alloc);
    for intent in intents {
        add_strange_of(&mut names, shelf, state, stopped, intent)?;
    }
    Ok(names)
}
