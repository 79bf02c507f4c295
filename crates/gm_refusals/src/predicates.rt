//! Whether a refusal applies to a command: a predicate for each.

ghost use Rattle.std.specs.Prelude.{◌≡◌, ◌==◌, ◌+◌, ◌&&◌, not, nat_lt, find, is_none, is_some, length, filter};
ghost use Rattle.std.specs.List.{list_all, list_any};
ghost use Rattle.gm_metadata.specs.Images.{same_label};
ghost use Rattle.gm_state.specs.Lookups.{component_of, is_active, is_inactive};
ghost use Rattle.gm_state.specs.Records.{Records};
ghost use Rattle.gm_state.specs.States.{state_by};
ghost use Rattle.gm_refusals.specs.Facts.{size_in, last_in, last_carries};
ghost use Rattle.gm_refusals.specs.Refusals.{own};
ghost use Rattle.gm_refusals.specs.Seen.{has_size, is_there_and, seen_in};
ghost use Rattle.gm_refusals.specs.Adoptable.{has_twice};
ghost use Rattle.gm_refusals.specs.Applies.{name_of, providers_of, preferred, looked_at, has_mid, takes_mid, reaches_beyond, is_about, is_being_filled, has_did, finds_did_twice, names_too_many, is_unfit, is_member_of, is_on_any, is_awaited, is_synchronizing, is_empty, gives_nothing, has_wrong_size, mirror_named};
ghost use Rattle.gm_refusals.specs.PartOf.{applies_to_part};

use crate::facts::Facts;
use crate::found_mirror::{any_tells_mid, has_twice, is_adoptable, tells_did_twice};
use crate::refusals::{Refusal, own};
use gm_commands::{Command, NewComponent, NewMirror, Preference, Settings};
use gm_metadata::Label;
use gm_state::{
    Component, ComponentState, Disk, MAX_COMPONENTS, MAX_MIRRORS, MAX_SECTORS, Mirror, State,
    state_by,
};
use std::slice;

const MIN_SECTORS: u64 = 2;

pub(crate) fn name_of(command: &Command) -> Option<Label>
    ensures { result ≡ name_of command.now }
{
    match command {
        Command::Label(NewMirror { name, .. })
        | Command::Insert(NewComponent { name, .. })
        | Command::Remove { name, .. }
        | Command::Deactivate { name, .. }
        | Command::Activate { name, .. }
        | Command::Forget { name }
        | Command::Rebuild { name, .. }
        | Command::Configure { name, .. }
        | Command::Destroy { name }
        | Command::Lost { name, .. }
        | Command::Advance { name, .. }
        | Command::Adopt { name, .. }
        | Command::Patch { name, .. } => Some(*name),
        Command::Clear { .. } => None,
    }
}

// The provider of a preference.
fn preferred(preference: &Option<Preference>) -> &[Label]
    ensures { result.now ≡ preferred preference.now }
{
    match preference {
        None => &[],
        Some(preference) => slice::from_ref(&preference.provider),
    }
}

/// The providers that a command names.
pub fn providers_of(command: &Command) -> &[Label]
    ensures { result.now ≡ providers_of command.now }
{
    match command {
        Command::Label(NewMirror { provider, .. })
        | Command::Insert(NewComponent { provider, .. })
        | Command::Remove { provider, .. }
        | Command::Deactivate { provider, .. }
        | Command::Activate { provider, .. }
        | Command::Rebuild { provider, .. }
        | Command::Clear { provider }
        | Command::Advance { provider, .. } => slice::from_ref(provider),
        Command::Forget { .. } | Command::Destroy { .. } | Command::Patch { .. } => &[],
        Command::Configure { settings, .. } => preferred(&settings.preference),
        Command::Lost { providers, .. } | Command::Adopt { providers, .. } => providers.as_slice(),
    }
}

/// Those whose images it looks at: lost images may be gone or broken.
pub(crate) fn looked_at(command: &Command) -> &[Label]
    ensures { result.now ≡ looked_at command.now }
{
    match command {
        Command::Lost { .. } => &[],
        _ => providers_of(command),
    }
}

pub(crate) fn has_mid(command: &Command, mirror: &Mirror) -> bool
    ensures { result ≡ has_mid command.now mirror.now }
{
    match command {
        Command::Label(new) => mirror.mid == new.mid,
        _ => false,
    }
}

fn has_did(command: &Command, component: &Component) -> bool
    ensures { result ≡ has_did command.now component.now }
{
    match command {
        Command::Label(new) => component.did == new.did,
        Command::Insert(new) => component.did == new.did,
        _ => false,
    }
}

pub(crate) fn is_member_of(name: Option<Label>, component: &Component) -> bool
    ensures { result ≡ is_member_of name component.now }
{
    match name {
        None => false,
        Some(name) => component.mirror == name,
    }
}

fn has_size(size: Option<u64>, sectors: u32) -> bool
    ensures { result ≡ has_size size sectors }
{
    match size {
        None => false,
        Some(n) => n == u64::from(sectors),
    }
}

fn takes_mid(facts: &Facts, command: &Command, mirror: &Mirror) -> bool
    ensures { result ≡ takes_mid (seen_in facts.now) command.now mirror.now }
{
    match command {
        Command::Adopt { providers, .. } => any_tells_mid(facts, mirror.mid, providers.as_slice()),
        _ => has_mid(command, mirror),
    }
}

fn mid_taken(mirrors: &[Mirror], facts: &Facts, command: &Command) -> bool
    ensures { result ≡ list_any (takes_mid (seen_in facts.now) command.now) mirrors.now }
{
    mirrors.iter().any(|m| takes_mid(facts, command, m))
}

fn any_absent(providers: &[Label], facts: &Facts) -> bool
    ensures { result ≡ list_any (λ p. is_none (size_in facts.now p)) providers.now }
{
    providers.iter().any(|p| facts.size(*p).is_none())
}

fn is_missing(component: &Component, facts: &Facts) -> bool
    ensures { result
        ≡ not (has_size (size_in facts.now component.now.provider) component.now.sectors) }
{
    !has_size(facts.size(component.provider), component.sectors)
}

// Whether the command waits for the component: it doesn't for lost ones.
pub(crate) fn is_awaited(command: &Command, component: &Component) -> bool
    ensures { result ≡ is_awaited command.now component.now }
{
    match command {
        Command::Lost { providers, .. } => !is_on_any(providers.as_slice(), component),
        _ => true,
    }
}

fn misses_some(components: &[Component], command: &Command, facts: &Facts) -> bool
    ensures { result ≡ list_any (λ k. not (has_size (size_in facts.now k.provider) k.sectors))
        (filter (λ k. is_awaited command.now k)
        (filter (λ k. is_member_of (name_of command.now) k) components.now)) }
{
    let name = name_of(command);
    components
        .iter()
        .filter(|k| is_member_of(name, k))
        .filter(|k| is_awaited(command, k))
        .any(|k| is_missing(k, facts))
}

fn any_taken(providers: &[Label], state: &State) -> bool
    ensures { result ≡ list_any (λ p. is_some (component_of state.now p)) providers.now }
{
    providers.iter().any(|p| state.component(*p).is_some())
}

fn any_carries(providers: &[Label], facts: &Facts) -> bool
    ensures { result ≡ list_any (λ p. last_carries (last_in facts.now p)) providers.now }
{
    providers.iter().any(|p| facts.carries(*p))
}

fn any_bare(providers: &[Label], facts: &Facts) -> bool
    ensures { result ≡ list_any (λ p. not (last_carries (last_in facts.now p))) providers.now }
{
    providers.iter().any(|p| !facts.carries(*p))
}

fn is_too_small(size: Option<u64>, mirror: &Mirror) -> bool
    ensures { result ≡ is_there_and size (λ n. nat_lt n (mirror.now.data_sectors + 1)) }
{
    match size {
        None => false,
        Some(n) => n < u64::from(mirror.data_sectors) + 1,
    }
}

fn any_too_small(providers: &[Label], mirror: &Mirror, facts: &Facts) -> bool
    ensures { result ≡ list_any
        (λ p. is_there_and (size_in facts.now p) (λ n. nat_lt n (mirror.now.data_sectors + 1)))
        providers.now }
{
    providers
        .iter()
        .any(|p| is_too_small(facts.size(*p), mirror))
}

fn has_wrong_size(size: Option<u64>) -> bool
    ensures { result ≡ is_there_and size has_wrong_size }
{
    match size {
        None => false,
        Some(n) => n < MIN_SECTORS || n > u64::from(MAX_SECTORS),
    }
}

fn any_of_wrong_size(providers: &[Label], facts: &Facts) -> bool
    ensures { result
        ≡ list_any (λ p. is_there_and (size_in facts.now p) has_wrong_size) providers.now }
{
    providers.iter().any(|p| has_wrong_size(facts.size(*p)))
}

fn has_member(components: &[Component], name: Option<Label>, provider: Label) -> bool
    ensures { result ≡ list_any (λ k. same_label k.provider provider)
        (filter (λ k. is_member_of name k) components.now) }
{
    components
        .iter()
        .filter(|k| is_member_of(name, k))
        .any(|k| k.provider == provider)
}

fn any_stranger(providers: &[Label], components: &[Component], name: Option<Label>) -> bool
    ensures { result ≡ list_any (λ p. not (list_any (λ k. same_label k.provider p)
        (filter (λ k. is_member_of name k) components.now))) providers.now }
{
    providers.iter().any(|p| !has_member(components, name, *p))
}

fn did_taken(components: &[Component], command: &Command) -> bool
    ensures { result ≡ list_any (has_did command.now)
        (filter (λ k. is_member_of (name_of command.now) k) components.now) }
{
    let name = name_of(command);
    components
        .iter()
        .filter(|k| is_member_of(name, k))
        .any(|k| has_did(command, k))
}

fn count_of(components: &[Component], name: Option<Label>) -> usize
    ensures { result ≡ length (filter (λ k. is_member_of name k) components.now) }
{
    components.iter().filter(|k| is_member_of(name, k)).count()
}

pub fn is_on_any(providers: &[Label], component: &Component) -> bool
    ensures { result ≡ is_on_any providers.now component.now }
{
    providers.iter().any(|p| component.provider == *p)
}

/// Whether a command is about a component: one of the mirror that it names, or on a provider that
/// it names, unless it gives that up as lost.
pub fn is_about(command: &Command, component: &Component) -> bool
    ensures { result ≡ is_about command.now component.now }
{
    is_awaited(command, component)
        && (is_member_of(name_of(command), component)
            || is_on_any(providers_of(command), component))
}

// Whether each active component of the mirror is on one of these providers.
fn all_active_on(components: &[Component], name: Option<Label>, providers: &[Label]) -> bool
    ensures { result ≡ list_all (is_on_any providers.now) (filter (λ k. is_active k.disk)
        (filter (λ k. is_member_of name k) components.now)) }
{
    components
        .iter()
        .filter(|k| is_member_of(name, k))
        .filter(|k| k.disk.is_active())
        .all(|k| is_on_any(providers, k))
}

pub fn is_inactive(component: &Component) -> bool
    ensures { result ≡ is_inactive component.now.disk }
{
    matches!(component.disk, Disk::Inactive)
}

// Whether a component of the mirror that is on one of these providers is INACTIVE.
fn any_inactive(components: &[Component], name: Option<Label>, providers: &[Label]) -> bool
    ensures { result ≡ list_any (λ k. is_on_any providers.now k && is_inactive k.disk)
        (filter (λ k. is_member_of name k) components.now) }
{
    components
        .iter()
        .filter(|k| is_member_of(name, k))
        .any(|k| is_on_any(providers, k) && is_inactive(k))
}

// Whether one of them isn't INACTIVE.
fn any_in_use(components: &[Component], name: Option<Label>, providers: &[Label]) -> bool
    ensures { result ≡ list_any (λ k. is_on_any providers.now k && not (is_inactive k.disk))
        (filter (λ k. is_member_of name k) components.now) }
{
    components
        .iter()
        .filter(|k| is_member_of(name, k))
        .any(|k| is_on_any(providers, k) && !is_inactive(k))
}

fn is_synchronizing(state: ComponentState) -> bool
    ensures { result ≡ is_synchronizing state }
{
    matches!(state, ComponentState::Synchronizing)
}

// Whether a component of the mirror that is on one of these providers isn't SYNCHRONIZING.
fn any_not_synchronizing(
    components: &[Component],
    mirror: &Mirror,
    name: Option<Label>,
    providers: &[Label],
) -> bool
    ensures { result ≡ list_any
        (λ k. is_on_any providers.now k
        && not (is_synchronizing (state_by mirror.now.flags k.disk)))
        (filter (λ k. is_member_of name k) components.now) }
{
    components.iter().filter(|k| is_member_of(name, k)).any(|k| is_on_any(providers, k)
        && !is_synchronizing(state_by(mirror.flags, k.disk)))
}

fn is_empty(settings: &Settings) -> bool
    ensures { result ≡ is_empty settings.now }
{
    settings.balance.is_none()
        && settings.slice.is_none()
        && settings.autosync.is_none()
        && settings.failsync.is_none()
        && settings.hardcode.is_none()
        && settings.preference.is_none()
}

fn gives_nothing(command: &Command) -> bool
    ensures { result ≡ gives_nothing command.now }
{
    match command {
        Command::Configure { settings, .. } => is_empty(settings),
        _ => false,
    }
}

// Whether images to be adopted tell of one did twice.
fn finds_did_twice(facts: &Facts, command: &Command) -> bool
    ensures { result ≡ finds_did_twice (seen_in facts.now) command.now }
{
    match command {
        Command::Adopt { providers, .. } => tells_did_twice(facts, providers.as_slice()),
        _ => false,
    }
}

// Whether the component is being filled, or is to be.
fn is_being_filled(component: &Component) -> bool
    ensures { result ≡ is_being_filled component.now.disk }
{
    matches!(component.disk, Disk::Copying { .. })
}

// Whether a component of the mirror is.
fn any_being_filled(components: &[Component], name: Option<Label>) -> bool
    ensures { result ≡ list_any (λ k. is_being_filled k.disk)
        (filter (λ k. is_member_of name k) components.now) }
{
    components
        .iter()
        .filter(|k| is_member_of(name, k))
        .any(|k| is_being_filled(k))
}

// Whether sectors are to be laid beyond the end of the mirror's data.
fn reaches_beyond(command: &Command, mirror: &Mirror) -> bool
    ensures { result ≡ reaches_beyond command.now mirror.now }
{
    match command {
        Command::Patch { first, data, .. } => {
            u64::from(*first) + data.as_slice().len() as u64 > u64::from(mirror.data_sectors)
        }
        _ => false,
    }
}

fn is_full(mirror: &Option<Mirror>) -> bool
    ensures { result ≡ is_there_and mirror.now (λ m. m.all == 16) }
{
    match mirror {
        None => false,
        Some(m) => m.all == MAX_COMPONENTS,
    }
}

// Whether a mirror is to be adopted on more providers than one may have.
fn names_too_many(command: &Command) -> bool
    ensures { result ≡ names_too_many command.now }
{
    match command {
        Command::Adopt { providers, .. } => {
            providers.as_slice().len() > usize::from(MAX_COMPONENTS)
        }
        _ => false,
    }
}

// Whether a mirror is to be adopted that can't be.
fn is_unfit(facts: &Facts, command: &Command) -> bool
    ensures { result ≡ is_unfit (seen_in facts.now) command.now }
{
    match command {
        Command::Adopt { name, providers } => !is_adoptable(facts, *name, providers.as_slice()),
        _ => false,
    }
}

fn mirror_named(state: &State, command: &Command) -> Option<Mirror>
    ensures { result ≡ mirror_named state.now command.now }
{
    match name_of(command) {
        None => None,
        Some(name) => state.mirror(name),
    }
}

// Whether the refusal applies, when so many mirrors are registered.
fn applies(state: &State, count: u64, facts: &Facts, command: &Command, refusal: Refusal) -> bool
    ensures { result ≡ applies_to_part state.now count (seen_in facts.now) command.now refusal }
{
    let name = name_of(command);
    let providers = providers_of(command);
    let seen = looked_at(command);
    let components = state.components();
    let mirror = mirror_named(state, command);
    match refusal {
        Refusal::NoMirror => mirror.is_none(),
        Refusal::NameTaken => mirror.is_some(),
        Refusal::MidTaken => mid_taken(state.mirrors(), facts, command),
        Refusal::Absent => any_absent(seen, facts) || misses_some(components, command, facts),
        Refusal::ProviderTaken => any_taken(providers, state),
        Refusal::CarriesMetadata => any_carries(seen, facts),
        Refusal::TooSmall => match mirror {
            None => false,
            Some(m) => any_too_small(seen, &m, facts),
        },
        Refusal::NotMember => has_twice(providers) || any_stranger(providers, components, name),
        Refusal::DidTaken => did_taken(components, command) || finds_did_twice(facts, command),
        Refusal::Full => is_full(&mirror) || names_too_many(command),
        Refusal::TooManyMirrors => count == MAX_MIRRORS as u64,
        Refusal::SomeLost => match mirror {
            None => false,
            Some(m) => count_of(components, name) < usize::from(m.all),
        },
        Refusal::LastActive => all_active_on(components, name, providers),
        Refusal::AlreadyInactive | Refusal::Inactive => any_inactive(components, name, providers),
        Refusal::NotInactive => any_in_use(components, name, providers),
        Refusal::NoneLost => match mirror {
            None => false,
            Some(m) => count_of(components, name) == usize::from(m.all),
        },
        Refusal::NotSynchronizing => match mirror {
            None => false,
            Some(m) => any_not_synchronizing(components, &m, name, providers),
        },
        Refusal::LastSyncid => match mirror {
            None => false,
            Some(m) => m.syncid == u32::MAX,
        },
        Refusal::LastGenid => match mirror {
            None => false,
            Some(m) => m.genid == u32::MAX,
        },
        Refusal::NothingGiven => gives_nothing(command),
        Refusal::NotAdoptable => is_unfit(facts, command),
        Refusal::WrongSize => any_of_wrong_size(seen, facts),
        Refusal::NoMetadata => any_bare(seen, facts),
        Refusal::BeingFilled => any_being_filled(components, name),
        Refusal::BeyondEnd => match mirror {
            None => false,
            Some(m) => reaches_beyond(command, &m),
        },
    }
}

/// The least refusal that applies, if any does, when so many mirrors are registered.
pub fn least_refusal(state: &State, count: u64, facts: &Facts, command: &Command) -> Option<Refusal>
    ensures { result ≡ find (applies_to_part state.now count (seen_in facts.now) command.now)
        (own command.now) }
{
    own(command)
        .iter()
        .copied()
        .find(|r| applies(state, count, facts, command, *r))
}
