//! The change of adopt: a mirror is registered as its images bear it out.

ghost use Rattle.std.specs.Option.{ForSome};
ghost use Rattle.std.specs.Prelude.{◌≡◌, ◌<◌, ◌^◌, true, Some, IfOk, map, unwrap_or};
ghost use Rattle.gm_changes.specs.Decides.{adopting};
ghost use Rattle.gm_changes.specs.PartChange.{IsMade};
ghost use Rattle.gm_commands.specs.declared.command.Command.TheVariants as commands;
ghost use Rattle.gm_lists.specs.Ordered.{Has};
ghost use Rattle.gm_metadata.specs.declared.label.Label.{Label};
ghost use Rattle.gm_refusals.specs.Adoptable.{data_of, adopted_mirror, is_borne_out, kept_offset, adopted_disk, adopted_syncid, adopted_component, found, source_in, is_adoptable};
ghost use Rattle.gm_refusals.specs.Facts.{size_in};
ghost use Rattle.gm_refusals.specs.PartOf.{IsGoodButCount};
ghost use Rattle.gm_refusals.specs.Seen.{seen_in};
ghost use Rattle.gm_taste.specs.declared.tasted.Member.{Member};

use crate::change::{Change, push_metas};
use crate::changed_state::with_all;
use crate::members::NOT_BEGUN;
use gm_commands::Providers;
use gm_metadata::{Label, Metadata, SECTOR_SIZE};
use gm_refusals::{Facts, adopt_source, data_of, genid_of, syncid_of, taken};
use gm_state::{Component, Disk, Mirror, Reply, State};
use gm_taste::{Member, MemberState, member};
use std::alloc::{AllocError, Global};

// The record of a mirror whose data are taken from a member that says this.
fn adopted_mirror(name: Label, source: &Metadata) -> Mirror
    requires { data_of source.now < 2 ^ 32 }
    ensures { result ≡ adopted_mirror name source.now }
{
    Mirror {
        name,
        mid: source.mid,
        all: source.all,
        genid: source.genid,
        syncid: source.syncid,
        slice: source.slice,
        balance: source.balance,
        data_sectors: data_of(source) as u32,
        flags: source.mflags,
    }
}

// Whether the member's offset is kept, as its data are the source's up to there.
fn is_borne_out(facts: &Facts, source: &Member, member: &Member) -> bool
    ensures { result ≡ is_borne_out (seen_in facts.now) source.now member.now }
{
    let offset = member.metadata.sync_offset;
    member.metadata.syncid == source.metadata.syncid
        && offset % u64::from(SECTOR_SIZE) == 0
        && offset < source.metadata.mediasize
        && offset / u64::from(SECTOR_SIZE) <= facts.equal(member.provider)
}

fn kept_offset(facts: &Facts, source: &Member, member: &Member) -> u32
    requires { data_of source.now.metadata < 2 ^ 32 }
    ensures { result ≡ kept_offset (seen_in facts.now) source.now member.now }
{
    if is_borne_out(facts, source, member) {
        (member.metadata.sync_offset / u64::from(SECTOR_SIZE)) as u32
    } else {
        0
    }
}

// How the data of the member stand.
fn adopted_disk(facts: &Facts, source: &Member, member: &Member) -> Disk
    requires { data_of source.now.metadata < 2 ^ 32 }
    ensures { result ≡ adopted_disk (seen_in facts.now) source.now member.now member.now.state }
{
    match member.state {
        MemberState::Inactive => Disk::Inactive,
        MemberState::Active => {
            if data_of(&source.metadata) <= facts.equal(member.provider) {
                Disk::InSync
            } else {
                NOT_BEGUN
            }
        }
        MemberState::Broken | MemberState::Stale(_) | MemberState::Synchronizing(_) => {
            Disk::Copying {
                forced: member.metadata.dflags.force_sync,
                held: kept_offset(facts, source, member),
            }
        }
    }
}

// An INACTIVE member keeps its syncid.
fn adopted_syncid(source: &Member, member: &Member) -> u32
    ensures { result ≡ adopted_syncid source.now member.now member.now.state }
{
    match member.state {
        MemberState::Inactive => member.metadata.syncid,
        _ => source.metadata.syncid,
    }
}

// How many sectors the provider has, none if it isn't there.
fn sectors_of(facts: &Facts, provider: Label) -> u32
    requires { ForSome (size_in facts.now provider) (λ n. n < 2 ^ 32) }
    ensures { result ≡ unwrap_or (size_in facts.now provider) 0 }
{
    match facts.size(provider) {
        None => 0,
        Some(sectors) => sectors as u32,
    }
}

fn adopted_component(facts: &Facts, name: Label, source: &Member, member: &Member) -> Component
    requires data { data_of source.now.metadata < 2 ^ 32 }
    requires size { ForSome (size_in facts.now member.now.provider) (λ n. n < 2 ^ 32) }
    ensures { result ≡ adopted_component (seen_in facts.now) name source.now member.now }
{
    Component {
        provider: member.provider,
        mirror: name,
        did: member.metadata.did,
        syncid: adopted_syncid(source, member),
        priority: member.metadata.priority,
        disk: adopted_disk(facts, source, member),
        hardcoded: member.metadata.provider.is_some(),
        sectors: sectors_of(facts, member.provider),
    }
}

// The components that the providers become, in their order.
fn components_of(
    alloc: Global,
    facts: &Facts,
    name: Label,
    source: &Member,
    providers: &[Label],
) -> Result<Vec<Component>, AllocError>
    requires data { data_of source.now.metadata < 2 ^ 32 }
    requires sizes { (p : Label) → Has providers.now p
        → ForSome (size_in facts.now p) (λ n. n < 2 ^ 32) }
    ensures { IfOk result (λ v. v.items
        ≡ map (adopted_component (seen_in facts.now) name source.now)
        (found (seen_in facts.now) providers.now)) }
{
    let genid = genid_of(facts, providers);
    let syncid = syncid_of(facts, providers, genid);
    let mut components = Vec::new(alloc);
    for provider in providers {
        if let Some(taken) = taken(facts, *provider) {
            let member = member(genid, syncid, &taken);
            components.push(adopted_component(facts, name, source, &member))?;
        }
    }
    Ok(components)
}

// The change if the data are taken from this member.
fn adopted(
    alloc: Global,
    facts: &Facts,
    name: Label,
    source: &Member,
    providers: &[Label],
) -> Result<Change, AllocError>
    requires data { data_of source.now.metadata < 2 ^ 32 }
    requires sizes { (p : Label) → Has providers.now p
        → ForSome (size_in facts.now p) (λ n. n < 2 ^ 32) }
    ensures { IfOk result (λ ch. ch ≡ adopting (seen_in facts.now) name providers.now source.now) }
{
    let unordered = components_of(alloc, facts, name, source, providers)?;
    let components = with_all(alloc, Vec::new(alloc), &unordered)?;
    let mut intents = Vec::new(alloc);
    push_metas(&mut intents, &components)?;
    Ok(Change {
        mirror: Some(adopted_mirror(name, &source.metadata)),
        components,
        intents,
        ..Change::nothing(alloc)
    })
}

/// A mirror that is registered with the providers it was found on.
pub(crate) fn adopted_on(
    alloc: Global,
    facts: &Facts,
    name: Label,
    providers: &[Label],
) -> Result<Change, AllocError>
    requires adoptable { is_adoptable (seen_in facts.now) name providers.now ≡ true }
    requires sizes { (p : Label) → Has providers.now p
        → ForSome (size_in facts.now p) (λ n. n < 2 ^ 32) }
    ensures { IfOk result (λ ch. (b : Member)
        → source_in (seen_in facts.now) providers.now ≡ Some b
        → ch ≡ adopting (seen_in facts.now) name providers.now b) }
{
    match adopt_source(facts, providers) {
        None => unreachable!(),
        Some(source) => adopted(alloc, facts, name, &source, providers),
    }
}

pub(crate) fn adopt(
    alloc: Global,
    part: &State,
    facts: &Facts,
    name: Label,
    providers: &Providers,
) -> Result<Change, AllocError>
    requires { IsGoodButCount part.now (seen_in facts.now)
        (commands.Adopt name providers.now) }
    ensures { IfOk result (λ ch. IsMade part.now (seen_in facts.now)
        (commands.Adopt name providers.now) ch) }
{
    Ok(adopted_on(alloc, facts, name, providers.as_slice())?)
}
