//! The whole images of a mirror that would be adopted from one that a patch was stopped in.

ghost use Rattle.std.specs.Prelude.{◌≡◌, IfOk, filter, not};
ghost use Rattle.std.specs.List.{list_all, list_any};
ghost use Rattle.gm_losses.specs.LeftAmong.{active_of, is_active_of, is_dirty_beside, is_first_of, is_named, is_torn, is_whole_beside, is_whole_with, sources_among, sources_of};
ghost use Rattle.gm_losses.specs.LeftImages.{is_in_use, is_newer, is_whole};
ghost use Rattle.gm_losses.specs.WholeImages.{goes_first};

use gm_metadata::{Label, Metadata};
use gm_taste::Member;
use std::alloc::{AllocError, Global};

/// Whether the one has a greater genid than the other, or the same and a greater syncid.
pub(crate) fn is_newer(metadata: &Metadata, other: &Metadata) -> bool
    ensures { result ≡ is_newer metadata.now other.now }
{
    other.genid < metadata.genid || other.genid == metadata.genid && other.syncid < metadata.syncid
}

/// Whether the member is on one of these providers.
pub(crate) fn is_named(providers: &[Label], member: &Member) -> bool
    ensures { result ≡ is_named providers.now member.now }
{
    providers.iter().any(|p| member.provider == *p)
}

/// Whether it takes part, and isn't being filled.
pub(crate) fn is_in_use(metadata: &Metadata) -> bool
    ensures { result ≡ is_in_use metadata.now }
{
    !metadata.dflags.inactive && !metadata.dflags.synchronizing
}

// Whether it is whole.
fn is_whole(metadata: &Metadata) -> bool
    ensures { result ≡ is_whole metadata.now }
{
    !metadata.dflags.dirty && is_in_use(metadata)
}

// Whether data are rather taken from the one.
fn goes_first(one: &Member, other: &Member) -> bool
    ensures { result ≡ goes_first one.now.provider one.now.metadata
        other.now.provider other.now.metadata }
{
    other.metadata.priority < one.metadata.priority
        || one.metadata.priority == other.metadata.priority && one.provider < other.provider
}

// Whether none of these is newer than the metadata.
fn none_is_newer(members: &[Member], metadata: &Metadata) -> bool
    ensures { result ≡ list_all (λ y. not (is_newer y.metadata metadata.now)) members.now }
{
    members.iter().all(|x| !is_newer(&x.metadata, metadata))
}

/// Whether the member would be ACTIVE among these.
pub(crate) fn is_active_of(members: &[Member], member: &Member) -> bool
    ensures { result ≡ is_active_of members.now member.now }
{
    is_in_use(&member.metadata) && none_is_newer(members, &member.metadata)
}

// Those that would be ACTIVE.
fn active_of(alloc: Global, members: &[Member]) -> Result<Vec<Member>, AllocError>
    ensures { IfOk result (λ v. v.items ≡ active_of members.now) }
{
    members
        .iter()
        .copied()
        .filter(|x| is_active_of(members, x))
        .collect(alloc)
}

// Whether none of these goes before the member.
fn is_first_of(members: &[Member], member: &Member) -> bool
    ensures { result ≡ is_first_of members.now member.now }
{
    members.iter().all(|x| !goes_first(x, member))
}

// The source of these members, if one would be ACTIVE.
fn sources_of(alloc: Global, members: &[Member]) -> Result<Vec<Member>, AllocError>
    ensures { IfOk result (λ v. v.items ≡ sources_of members.now) }
{
    let active = active_of(alloc, members)?;
    active
        .iter()
        .copied()
        .filter(|x| is_first_of(&active, x))
        .collect(alloc)
}

/// Those of the members that are on one of these providers.
pub(crate) fn named_of(
    alloc: Global,
    members: &[Member],
    providers: &[Label],
) -> Result<Vec<Member>, AllocError>
    ensures { IfOk result (λ v. v.items ≡ filter (is_named providers.now) members.now) }
{
    members
        .iter()
        .copied()
        .filter(|x| is_named(providers, x))
        .collect(alloc)
}

/// The source of those of the members that are on one of these providers, if one of these would be
/// ACTIVE.
pub(crate) fn sources_among(
    alloc: Global,
    members: &[Member],
    providers: &[Label],
) -> Result<Vec<Member>, AllocError>
    ensures { IfOk result (λ v. v.items ≡ sources_among members.now providers.now) }
{
    let named = named_of(alloc, members, providers)?;
    sources_of(alloc, &named)
}

// Whether a source is DIRTY, and has the genid of the member.
fn is_dirty_beside(member: &Member, source: &Member) -> bool
    ensures { result ≡ is_dirty_beside member.now source.now }
{
    source.metadata.dflags.dirty && source.metadata.genid == member.metadata.genid
}

// Whether one of these is.
fn any_dirty_beside(sources: &[Member], member: &Member) -> bool
    ensures { result ≡ list_any (is_dirty_beside member.now) sources.now }
{
    sources.iter().any(|x| is_dirty_beside(member, x))
}

/// Whether the member is whole, and a source beside it is DIRTY.
pub(crate) fn is_whole_beside(sources: &[Member], member: &Member) -> bool
    ensures { result ≡ is_whole_beside sources.now member.now }
{
    is_whole(&member.metadata) && any_dirty_beside(sources, member)
}

// Whether another is whole, and has the genid of the member.
fn is_whole_with(member: &Member, other: &Member) -> bool
    ensures { result ≡ is_whole_with member.now other.now }
{
    is_whole(&other.metadata) && other.metadata.genid == member.metadata.genid
}

// Whether one of these is.
fn any_whole_with(members: &[Member], member: &Member) -> bool
    ensures { result ≡ list_any (is_whole_with member.now) members.now }
{
    members.iter().any(|x| is_whole_with(member, x))
}

/// Whether the member is DIRTY, and one of these, with its genid, is whole.
pub(crate) fn is_torn(members: &[Member], member: &Member) -> bool
    ensures { result ≡ is_torn members.now member.now }
{
    member.metadata.dflags.dirty && any_whole_with(members, member)
}
