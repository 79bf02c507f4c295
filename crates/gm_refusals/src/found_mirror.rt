//! What the images say that a mirror would be adopted from, and whether it can be.

ghost use Rattle.std.specs.Prelude.{◌≡◌, ◌&&◌, nat_lt, Some, None, IfOk, length, if◌then◌else◌};
ghost use Rattle.std.specs.List.{list_all, list_any};
ghost use Rattle.gm_taste.specs.Tasting.{member};
ghost use Rattle.gm_taste.specs.Sources.{first_from};
ghost use Rattle.gm_refusals.specs.Adoptable.{told, tells_mid, tells_did, mid_of, found_mids, tells_did_twice, taken, taken_with, genid_of, syncid_of, found, is_beside, first_where, source_in, data_of, is_whole, is_like, has_room, has_twice, is_adoptable};
ghost use Rattle.gm_refusals.specs.Facts.{last_in, size_in};
ghost use Rattle.gm_refusals.specs.Seen.{seen_in, is_there_and};

use crate::facts::Facts;
use gm_metadata::{Label, Metadata, SECTOR_SIZE, decode};
use gm_state::MAX_COMPONENTS;
use gm_taste::{Member, Provider, Taken, first_of_two, member, taken_by};
use std::alloc::{AllocError, Global};

// What the last sector of a provider says, taken or not.
fn told(facts: &Facts, provider: Label) -> Option<Metadata>
    ensures { result ≡ told (last_in facts.now provider) }
{
    match facts.last(provider) {
        None => None,
        Some(sector) => match decode(&sector) {
            Ok(metadata) => Some(metadata),
            Err(_) => None,
        },
    }
}

// Whether it tells of this mid.
fn tells_mid(facts: &Facts, mid: u32, provider: Label) -> bool
    ensures { result ≡ tells_mid (seen_in facts.now) mid provider }
{
    match told(facts, provider) {
        None => false,
        Some(metadata) => metadata.mid == mid,
    }
}

/// Whether the last sector of one of the providers tells of this mid.
pub(crate) fn any_tells_mid(facts: &Facts, mid: u32, providers: &[Label]) -> bool
    ensures { result ≡ list_any (tells_mid (seen_in facts.now) mid) providers.now }
{
    providers.iter().any(|p| tells_mid(facts, mid, *p))
}

fn tells_did(facts: &Facts, did: u32, provider: Label) -> bool
    ensures { result ≡ tells_did (seen_in facts.now) did provider }
{
    match told(facts, provider) {
        None => false,
        Some(metadata) => metadata.did == did,
    }
}

fn any_tells_did(facts: &Facts, did: u32, providers: &[Label]) -> bool
    ensures { result ≡ list_any (tells_did (seen_in facts.now) did) providers.now }
{
    providers.iter().any(|p| tells_did(facts, did, *p))
}

// Whether one of the others tells of the same did as the provider.
fn tells_again(facts: &Facts, provider: Label, others: &[Label]) -> bool
    ensures { result ≡ is_there_and (told (last_in facts.now provider))
        (λ m. list_any (tells_did (seen_in facts.now) m.did) others.now) }
{
    match told(facts, provider) {
        None => false,
        Some(metadata) => any_tells_did(facts, metadata.did, others),
    }
}

/// Whether two entries of the list tell of one did.
pub(crate) fn tells_did_twice(facts: &Facts, providers: &[Label]) -> bool
    ensures { result ≡ tells_did_twice (seen_in facts.now) providers.now }
{
    for (i, provider) in providers.iter().enumerate() {
        if tells_again(facts, *provider, &providers[i + 1..]) {
            return true;
        }
    }
    false
}

fn mid_of(facts: &Facts, provider: Label) -> Option<u32>
    ensures { result ≡ mid_of (told (last_in facts.now provider)) }
{
    match told(facts, provider) {
        None => None,
        Some(metadata) => Some(metadata.mid),
    }
}

/// The mids that the last sectors of the providers give, if they decode.
pub fn found_mids(alloc: Global, facts: &Facts, providers: &[Label]) -> Result<Vec<u32>, AllocError>
    ensures { IfOk result (λ v. v.items ≡ found_mids (seen_in facts.now) providers.now) }
{
    providers
        .iter()
        .filter_map(|p| mid_of(facts, *p))
        .collect(alloc)
}

// A provider with this last sector, if tasting takes it.
fn taken_with(name: Label, sectors: u64, last: &[u8; 512]) -> Option<Taken>
    ensures { result ≡ taken_with name (Some sectors) (Some last.now) }
{
    taken_by(&Provider {
        name,
        sectors,
        last: *last,
    })
}

/// The provider if tasting takes it.
pub fn taken(facts: &Facts, provider: Label) -> Option<Taken>
    ensures { result ≡ taken (seen_in facts.now) provider }
{
    match facts.fact(provider) {
        None => None,
        Some(fact) => taken_with(provider, fact.sectors, &fact.last),
    }
}

// The greater of the two, if the second is meant.
fn raised_by(known: u32, meant: bool, number: u32) -> u32
    ensures { result ≡ if meant && nat_lt known number then number else known }
{
    if meant && known < number {
        number
    } else {
        known
    }
}

/// The genid of a group of the providers that are taken.
pub fn genid_of(facts: &Facts, providers: &[Label]) -> u32
    ensures { result ≡ genid_of (seen_in facts.now) providers.now }
{
    let mut genid = 0;
    for provider in providers {
        if let Some(taken) = taken(facts, *provider) {
            genid = raised_by(genid, true, taken.metadata.genid);
        }
    }
    genid
}

pub fn syncid_of(facts: &Facts, providers: &[Label], genid: u32) -> u32
    requires { genid ≡ genid_of (seen_in facts.now) providers.now }
    ensures { result ≡ syncid_of (seen_in facts.now) providers.now }
{
    let mut syncid = 0;
    for provider in providers {
        if let Some(taken) = taken(facts, *provider) {
            let meant = taken.metadata.genid == genid;
            syncid = raised_by(syncid, meant, taken.metadata.syncid);
        }
    }
    syncid
}

// The first of the ACTIVE ones.
fn first_of(facts: &Facts, providers: &[Label]) -> Option<Member>
    ensures { result ≡ first_from None (found (seen_in facts.now) providers.now) }
{
    let genid = genid_of(facts, providers);
    let syncid = syncid_of(facts, providers, genid);
    let mut first = None;
    for provider in providers {
        if let Some(taken) = taken(facts, *provider) {
            first = first_of_two(first, &member(genid, syncid, &taken));
        }
    }
    first
}

// Whether the provider is taken, and tells of the mirror that the metadata tell of.
fn is_beside(facts: &Facts, metadata: &Metadata, provider: Label) -> bool
    ensures { result ≡ is_beside (seen_in facts.now) metadata.now provider }
{
    match taken(facts, provider) {
        None => false,
        Some(taken) => taken.metadata.name == metadata.name && taken.metadata.mid == metadata.mid,
    }
}

fn are_beside(facts: &Facts, metadata: &Metadata, providers: &[Label]) -> bool
    ensures { result ≡ list_all (is_beside (seen_in facts.now) metadata.now) providers.now }
{
    providers.iter().all(|p| is_beside(facts, metadata, *p))
}

// The member, if all of the providers are taken, and in its group.
fn first_where(facts: &Facts, providers: &[Label], first: Option<Member>) -> Option<Member>
    ensures { result ≡ first_where (seen_in facts.now) providers.now first }
{
    match first {
        None => None,
        Some(member) => {
            if are_beside(facts, &member.metadata, providers) {
                Some(member)
            } else {
                None
            }
        }
    }
}

/// The member that a mirror on these providers takes its data from: the ACTIVE one with the
/// greatest priority, among equals the one with the least name. `None` unless all of them are
/// taken, in one group, and one is ACTIVE.
pub fn adopt_source(facts: &Facts, providers: &[Label]) -> Option<Member>
    ensures { result ≡ source_in (seen_in facts.now) providers.now }
{
    first_where(facts, providers, first_of(facts, providers))
}

/// How many data sectors the metadata tell of.
pub fn data_of(metadata: &Metadata) -> u64
    ensures { result ≡ data_of metadata.now }
{
    metadata.mediasize / u64::from(SECTOR_SIZE)
}

// Whether what the source says fits a mirror with so many components.
fn is_whole(metadata: &Metadata, count: usize) -> bool
    ensures { result ≡ is_whole metadata.now count }
{
    metadata.mediasize % u64::from(SECTOR_SIZE) == 0
        && data_of(metadata) > 0
        && count <= usize::from(metadata.all)
        && metadata.all <= MAX_COMPONENTS
}

// Whether the provider carries the name, and tells the same as the source.
fn is_like(facts: &Facts, name: Label, source: &Metadata, provider: Label) -> bool
    ensures { result ≡ is_like (seen_in facts.now) name source.now provider }
{
    match taken(facts, provider) {
        None => false,
        Some(taken) => {
            taken.metadata.name == name
                && taken.metadata.mid == source.mid
                && taken.metadata.genid == source.genid
                && taken.metadata.mediasize == source.mediasize
        }
    }
}

// Whether the provider has room for the data and a last sector.
fn has_room(facts: &Facts, source: &Metadata, provider: Label) -> bool
    ensures { result ≡ has_room (seen_in facts.now) source.now provider }
{
    match facts.size(provider) {
        None => false,
        Some(sectors) => data_of(source) < sectors,
    }
}

// Whether a provider is named twice.
pub(crate) fn has_twice(providers: &[Label]) -> bool
    ensures { result ≡ has_twice providers.now }
{
    for (i, provider) in providers.iter().enumerate() {
        if providers[i + 1..].contains(provider) {
            return true;
        }
    }
    false
}

// Whether all of the providers fit a mirror of this name whose source says this.
fn are_alike(facts: &Facts, name: Label, source: &Metadata, providers: &[Label]) -> bool
    ensures { result ≡ list_all (λ p. is_like (seen_in facts.now) name source.now p
        && has_room (seen_in facts.now) source.now p) providers.now }
{
    providers.iter().all(|p| is_like(facts, name, source, *p) && has_room(facts, source, *p))
}

// Whether there is a source, and what it says fits, and all of the providers with it.
fn has_fitting_source(
    facts: &Facts,
    name: Label,
    providers: &[Label],
    source: Option<Member>,
) -> bool
    ensures { result ≡ is_there_and source (λ b. is_whole b.metadata (length providers.now)
        && list_all (λ p. is_like (seen_in facts.now) name b.metadata p
        && has_room (seen_in facts.now) b.metadata p) providers.now) }
{
    match source {
        None => false,
        Some(source) => {
            is_whole(&source.metadata, providers.len())
                && are_alike(facts, name, &source.metadata, providers)
        }
    }
}

/// Whether the providers can be adopted as the mirror of this name.
pub(crate) fn is_adoptable(facts: &Facts, name: Label, providers: &[Label]) -> bool
    ensures { result ≡ is_adoptable (seen_in facts.now) name providers.now }
{
    !has_twice(providers)
        && has_fitting_source(facts, name, providers, adopt_source(facts, providers))
}
