//! Which intents are readable for a state.

ghost use Rattle.std.specs.Prelude.{◌≡◌, ◌≢◌, ◌↔◌, ◌≤◌, ◌<◌, ◌+◌, ℕ, List, IsTrue, length, filter, find};
ghost use Rattle.std.specs.List.{list_any};
ghost use Rattle.gm_lists.specs.Ordered.{Has};
ghost use Rattle.gm_state.specs.declared.records.Disk.TheVariants.{InSync};
ghost use Rattle.gm_state.specs.declared.intents.Intent.{Intent};
ghost use Rattle.gm_state.specs.declared.intents.Intent.TheVariants.{Patch};
ghost use Rattle.gm_state.specs.Intents.{is_meta_of, is_dirty_of};
ghost use Rattle.gm_state.specs.Readable.{is_copy, is_patch, is_fill_of, IsCopyWithin, IsPatchWithin, IsReadable, StandsBetween, AreOrdered, IsOfRange, AreOfOnePatch, AreReadable};

use crate::intents::Intent;
use crate::records::{Component, Mirror};
use crate::state::State;
use gm_metadata::Label;

/// Whether sectors of the mirror's data, up to this end, can be copied from one component to the
/// other.
fn lends(mirror: &Mirror, from: &Component, to: &Component, first: u32, end: u32) -> bool
    ensures { IsTrue result ↔ ((from.now.mirror ≡ to.now.mirror)
        × (from.now.provider ≢ to.now.provider) × (from.now.disk ≡ InSync) × (first ≤ end)
        × (end ≤ mirror.now.data_sectors)) }
{
    from.mirror == to.mirror
        && from.provider != to.provider
        && from.disk.is_active()
        && first <= end
        && end <= mirror.data_sectors
}

fn is_copy_within(state: &State, source: Label, target: Label, first: u32, end: u32) -> bool
    ensures { IsTrue result ↔ IsCopyWithin state.now source target first end }
{
    let Some(from) = state.component(source) else {
        return false;
    };
    let Some(to) = state.component(target) else {
        return false;
    };
    match state.mirror(to.mirror) {
        Some(mirror) => lends(&mirror, &from, &to, first, end),
        None => false,
    }
}

/// Whether bytes can be laid over sectors of the component's data, up to this end.
fn takes(mirror: &Mirror, on: &Component, first: u32, end: u32) -> bool
    ensures { IsTrue result ↔ ((on.now.disk ≡ InSync) × (first < end)
        × (end ≤ mirror.now.data_sectors)) }
{
    on.disk.is_active() && first < end && end <= mirror.data_sectors
}

fn is_patch_within(state: &State, provider: Label, first: u32, end: u32) -> bool
    ensures { IsTrue result ↔ IsPatchWithin state.now provider first end }
{
    let Some(on) = state.component(provider) else {
        return false;
    };
    match state.mirror(on.mirror) {
        Some(mirror) => takes(&mirror, &on, first, end),
        None => false,
    }
}

/// Whether the intent is readable for the state.
fn is_readable(state: &State, intent: Intent) -> bool
    ensures { IsTrue result ↔ IsReadable state.now intent }
{
    match intent {
        Intent::Meta { provider } => state.component(provider).is_some(),
        Intent::Clear { provider } => state.component(provider).is_none(),
        Intent::Copy {
            source,
            target,
            first,
            end,
        } => is_copy_within(state, source, target, first, end),
        Intent::Dirty { provider } => match state.component(provider) {
            Some(component) => component.disk.is_active(),
            None => false,
        },
        Intent::Patch {
            provider,
            first,
            end,
        } => is_patch_within(state, provider, first, end),
    }
}

fn is_copy(intent: &Intent) -> bool
    ensures { result ≡ is_copy intent.now }
{
    matches!(intent, Intent::Copy { .. })
}

fn is_patch(intent: &Intent) -> bool
    ensures { result ≡ is_patch intent.now }
{
    matches!(intent, Intent::Patch { .. })
}

fn is_fill_of(intent: &Intent, provider: Label) -> bool
    ensures { result ≡ is_fill_of provider intent.now }
{
    match intent {
        Intent::Copy {
            source: _,
            target: filled,
            first: _,
            end: _,
        }
        | Intent::Patch {
            provider: filled,
            first: _,
            end: _,
        } => *filled == provider,
        Intent::Meta { .. } | Intent::Clear { .. } | Intent::Dirty { .. } => false,
    }
}

fn is_meta_of(intent: &Intent, provider: Label) -> bool
    ensures { result ≡ is_meta_of provider intent.now }
{
    match intent {
        Intent::Meta { provider: of } => *of == provider,
        _ => false,
    }
}

fn is_dirty_of(intent: &Intent, provider: Label) -> bool
    ensures { result ≡ is_dirty_of provider intent.now }
{
    match intent {
        Intent::Dirty { provider: of } => *of == provider,
        _ => false,
    }
}

fn has_fill_of(intents: &[Intent], provider: Label) -> bool
    ensures { result ≡ list_any (is_fill_of provider) intents.now }
{
    intents.iter().any(|t| is_fill_of(t, provider))
}

fn has_meta_of(intents: &[Intent], provider: Label) -> bool
    ensures { result ≡ list_any (is_meta_of provider) intents.now }
{
    intents.iter().any(|t| is_meta_of(t, provider))
}

fn has_dirty_of(intents: &[Intent], provider: Label) -> bool
    ensures { result ≡ list_any (is_dirty_of provider) intents.now }
{
    intents.iter().any(|t| is_dirty_of(t, provider))
}

/// Whether the intent stands where it may, after the earlier ones and before the later ones.
fn stands_between(earlier: &[Intent], intent: Intent, later: &[Intent]) -> bool
    ensures { IsTrue result ↔ StandsBetween earlier.now intent later.now }
{
    match intent {
        Intent::Meta { provider } => !has_fill_of(later, provider),
        Intent::Clear { provider: _ } => true,
        Intent::Copy {
            source: _,
            target,
            first: _,
            end: _,
        } => has_meta_of(later, target),
        Intent::Dirty { provider } => has_meta_of(later, provider),
        Intent::Patch {
            provider,
            first: _,
            end: _,
        } => has_dirty_of(earlier, provider) && has_meta_of(later, provider),
    }
}

fn are_ordered(intents: &[Intent]) -> bool
    ensures { IsTrue result ↔ AreOrdered intents.now }
{
    'intents: for (index, intent) in intents.iter().enumerate() {
        if !stands_between(&intents[..index], *intent, &intents[index + 1..]) {
            return false;
        }
    }
    true
}

fn are_each_readable(state: &State, intents: &[Intent]) -> bool
    ensures { IsTrue result ↔ ((t : Intent) → Has intents.now t → IsReadable state.now t) }
{
    'intents: for intent in intents {
        if !is_readable(state, *intent) {
            return false;
        }
    }
    true
}

fn copy_count(intents: &[Intent]) -> usize
    ensures { result ≡ length (filter is_copy intents.now) }
{
    intents.iter().filter(|t| is_copy(t)).count()
}

fn has_copy(intents: &[Intent]) -> bool
    ensures { result ≡ list_any is_copy intents.now }
{
    intents.iter().any(|t| is_copy(t))
}

fn is_of_range(intent: &Intent, start: u32, count: usize) -> bool
    ensures { IsTrue result ↔ IsOfRange start count intent.now }
{
    match intent {
        Intent::Patch {
            provider: _,
            first,
            end,
        } => *first == start && start <= *end && (*end - start) as usize == count,
        _ => true,
    }
}

fn are_of_range(intents: &[Intent], start: u32, count: usize) -> bool
    ensures { IsTrue result ↔ ((t : Intent) → Has intents.now t → IsOfRange start count t) }
{
    'intents: for intent in intents {
        if !is_of_range(intent, start, count) {
            return false;
        }
    }
    true
}

/// The first of the Patches.
fn first_patch(intents: &[Intent]) -> Option<Intent>
    ensures { result ≡ find is_patch intents.now }
{
    intents.iter().copied().find(|t| is_patch(t))
}

/// The first sector that a Patch names.
fn start_of(patch: Intent) -> u32
    ensures { (p : List ℕ) (first end : ℕ) → patch ≡ Patch p first end → result ≡ first }
{
    match patch {
        Intent::Patch {
            provider: _,
            first,
            end: _,
        } => first,
        _ => 0,
    }
}

fn are_of_one_patch(bytes: &[[u8; 512]], intents: &[Intent]) -> bool
    ensures { IsTrue result ↔ AreOfOnePatch bytes.now intents.now }
{
    let Some(patch) = first_patch(intents) else {
        return bytes.is_empty();
    };
    !has_copy(intents) && are_of_range(intents, start_of(patch), bytes.len())
}

/// Whether the intents, and the bytes that are to be laid, are readable for the state.
pub fn are_readable(state: &State, bytes: &[[u8; 512]], intents: &[Intent]) -> bool
    ensures { IsTrue result ↔ AreReadable state.now bytes.now intents.now }
{
    copy_count(intents) <= 1
        && are_of_one_patch(bytes, intents)
        && are_ordered(intents)
        && are_each_readable(state, intents)
}
