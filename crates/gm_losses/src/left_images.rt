//! The images that a mirror would leave if it is adopted, or that are whole beside its source, or
//! whose data aren't the source's.

ghost use Rattle.std.specs.Prelude.{◌≡◌, IfOk};
ghost use Rattle.std.specs.List.{filter_map, list_all};
ghost use Rattle.gm_shelf.specs.Keeping.{Looks};
ghost use Rattle.gm_losses.specs.LeftAmong.{adopted_among, adopted_as, has_member, is_adopted, is_broken, is_newest, is_no_loss, left_as, sources_among};
ghost use Rattle.gm_losses.specs.Losses.{AreLosses};

use crate::differing_images::differing_as;
use crate::loss::Loss;
use crate::whole_images::{is_named, is_newer, is_torn, is_whole_beside, sources_among};
use gm_apply::Watch;
use gm_commands::{Command, Providers};
use gm_looks::taste_shelf;
use gm_metadata::Label;
use gm_shelf::{Shelf, ShelfFault};
use gm_state::State;
use gm_taste::{Group, Member, MemberState};
use std::alloc::Global;

fn is_broken(state: MemberState) -> bool
    ensures { result ≡ is_broken state }
{
    matches!(state, MemberState::Broken)
}

// Whether a member is on this provider.
fn has_member(members: &[Member], provider: Label) -> bool
    ensures { result ≡ has_member members.now provider }
{
    members.iter().any(|x| x.provider == provider)
}

// Whether there is one on each of these providers.
fn has_all(members: &[Member], providers: &[Label]) -> bool
    ensures { result ≡ list_all (has_member members.now) providers.now }
{
    providers.iter().all(|p| has_member(members, *p))
}

// Whether the group has this name, and all of these providers.
fn is_adopted(name: Label, providers: &[Label], group: &Group) -> bool
    ensures { result ≡ is_adopted name providers.now group.now }
{
    group.name == name && has_all(&group.members, providers)
}

// Whether the member is newer than each of those on these providers.
fn is_newest(members: &[Member], providers: &[Label], member: &Member) -> bool
    ensures { result ≡ is_newest members.now providers.now member.now }
{
    members
        .iter()
        .filter(|x| is_named(providers, x))
        .all(|x| is_newer(&member.metadata, &x.metadata))
}

// Whether the member isn't left, though it is one of the mirror.
fn is_no_loss(members: &[Member], providers: &[Label], member: &Member) -> bool
    ensures { result ≡ is_no_loss members.now providers.now member.now }
{
    is_named(providers, member) || is_broken(member.state) || is_torn(members, member)
}

// What is said of a member, if it is whole beside a DIRTY source, or left.
fn left_as(
    members: &[Member],
    providers: &[Label],
    sources: &[Member],
    member: &Member,
) -> Option<Loss>
    ensures { result ≡ left_as members.now providers.now sources.now member.now }
{
    let provider = member.provider;
    if is_whole_beside(sources, member) {
        return Some(Loss::Whole { provider });
    }
    if is_no_loss(members, providers, member) {
        return None;
    }
    Some(Loss::Left {
        provider,
        newer: is_newest(members, providers, member),
    })
}

// What is said of a member: that it is whole, or left, or else that its data aren't the source's.
fn adopted_as<H: Shelf, W: Watch>(
    alloc: Global,
    shelf: &mut H,
    members: &[Member],
    providers: &[Label],
    sources: &[Member],
    member: &Member,
    watch: &mut W,
) -> Result<Option<Loss>, ShelfFault>
    ensures told { H.honest shelf.old → IfOk result (λ found. found
        ≡ adopted_as (H.size shelf.old) (H.view shelf.old).seen members.now providers.now
        sources.now member.now) }
    ensures looks { Looks H.Shelf shelf.old shelf.new result }
{
    match left_as(members, providers, sources, member) {
        Some(loss) => Ok(Some(loss)),
        None => differing_as(alloc, shelf, members, providers, sources, member, watch),
    }
}

// What is said of a group.
fn adopted_in<H: Shelf, W: Watch>(
    alloc: Global,
    shelf: &mut H,
    members: &[Member],
    providers: &[Label],
    watch: &mut W,
) -> Result<Vec<Loss>, ShelfFault>
    ensures told { H.honest shelf.old → IfOk result (λ v. v.items
        ≡ filter_map (adopted_as (H.size shelf.old) (H.view shelf.old).seen members.now
        providers.now (sources_among members.now providers.now)) members.now) }
    ensures looks { Looks H.Shelf shelf.old shelf.new result }
{
    let sources = sources_among(alloc, members, providers)?;
    let mut list = Vec::new(alloc);
    for member in members {
        let told = adopted_as(alloc, shelf, members, providers, &sources, member, watch)?;
        if let Some(loss) = told {
            list.push(loss)?;
        }
    }
    Ok(list)
}

// What is said of the first group that is adopted.
fn adopted_among<H: Shelf, W: Watch>(
    alloc: Global,
    shelf: &mut H,
    groups: &[Group],
    name: Label,
    providers: &[Label],
    watch: &mut W,
) -> Result<Vec<Loss>, ShelfFault>
    ensures told { H.honest shelf.old → IfOk result (λ v. v.items
        ≡ adopted_among (H.size shelf.old) (H.view shelf.old).seen groups.now name
        providers.now) }
    ensures looks { Looks H.Shelf shelf.old shelf.new result }
{
    for group in groups {
        if is_adopted(name, providers, group) {
            return adopted_in(alloc, shelf, &group.members, providers, watch);
        }
    }
    Ok(Vec::new(alloc))
}

/// What an `adopt` would take away. The watch is told how far data are compared. `Device` if a last
/// sector or a sector that is compared can't be read, or `Memory`.
pub(crate) fn losses_of_adopt<H: Shelf, W: Watch>(
    alloc: Global,
    shelf: &mut H,
    state: &State,
    name: Label,
    providers: &Providers,
    watch: &mut W,
) -> Result<Vec<Loss>, ShelfFault>
    ensures losses { H.honest shelf.old → IfOk result (λ list. AreLosses state.now
        (H.size shelf.old) (H.view shelf.old).seen (Command.Adopt name providers.now) list.items) }
    ensures looks { Looks H.Shelf shelf.old shelf.new result }
{
    if state.mirror(name).is_some() {
        return Ok(Vec::new(alloc));
    }
    let tasted = taste_shelf(alloc, shelf)?;
    let groups = tasted.groups.as_slice();
    let list = adopted_among(alloc, shelf, groups, name, providers.as_slice(), watch)?;
    Ok(list)
}
