//! Whether records keep the rules of a state.

ghost use Rattle.std.specs.Prelude.{◌≡◌, ◌&&◌, ◌||◌, ◌==◌, not, nat_le, length};
ghost use Rattle.std.specs.List.{list_any, list_all};
ghost use Rattle.gm_metadata.specs.Images.{same_label};
ghost use Rattle.gm_state.specs.Disks.{is_active};
ghost use Rattle.gm_state.specs.Records.{Records, name, provider, members};
ghost use Rattle.gm_state.specs.RuleTests.{is_current, is_component, is_mirror, are_mirrors, has_own_mid, has_own_did, has_home, is_state};
ghost use Rattle.gm_lists.specs.Ordered.{ascending};

use crate::records::{Component, Disk, Mirror};
use gm_metadata::Label;

/// The most mirrors of a state.
pub const MAX_MIRRORS: usize = 64;
/// The most components of a mirror.
pub const MAX_COMPONENTS: u8 = 16;
/// The most sectors of a component's provider.
pub const MAX_SECTORS: u32 = 1_048_576;

fn mirrors_ascend(mirrors: &[Mirror]) -> bool
    ensures { result ≡ ascending name mirrors.now }
{
    mirrors.is_sorted_by(|a, b| a.name < b.name)
}

fn components_ascend(components: &[Component]) -> bool
    ensures { result ≡ ascending provider components.now }
{
    components.is_sorted_by(|a, b| a.provider < b.provider)
}

fn is_current(mirror: Mirror, component: Component) -> bool
    ensures { result ≡ is_current mirror component }
{
    matches!(component.disk, Disk::Inactive) || component.syncid == mirror.syncid
}

fn is_component(mirror: Mirror, component: Component) -> bool
    ensures { result ≡ is_component mirror component }
{
    // As of every label.
    prove!(!component.provider.as_str().is_empty());
    mirror.data_sectors < component.sectors
        && component.sectors <= MAX_SECTORS
        && component.disk.held() < mirror.data_sectors
        && component.syncid <= mirror.syncid
        && is_current(mirror, component)
}

fn member_count(components: &[Component], name: Label) -> usize
    ensures { result ≡ length (members components.now name) }
{
    components.iter().filter(|k| k.mirror == name).count()
}

fn has_active(components: &[Component], name: Label) -> bool
    ensures { result ≡ list_any (λ k. is_active k.disk) (members components.now name) }
{
    components
        .iter()
        .filter(|k| k.mirror == name)
        .any(|k| k.disk.is_active())
}

fn are_components(components: &[Component], mirror: Mirror) -> bool
    ensures { result ≡ list_all (λ k. is_component mirror k) (members components.now mirror.name) }
{
    components
        .iter()
        .filter(|k| k.mirror == mirror.name)
        .all(|k| is_component(mirror, *k))
}

fn is_mirror(components: &[Component], mirror: Mirror) -> bool
    ensures { result ≡ is_mirror (members components.now mirror.name) mirror }
{
    prove!(!mirror.name.as_str().is_empty());
    mirror.all <= MAX_COMPONENTS
        && member_count(components, mirror.name) <= usize::from(mirror.all)
        && has_active(components, mirror.name)
        && are_components(components, mirror)
}

fn are_mirrors(components: &[Component], mirrors: &[Mirror]) -> bool
    ensures { result ≡ are_mirrors components.now mirrors.now }
{
    mirrors.iter().all(|m| is_mirror(components, *m))
}

fn has_own_mid(mirrors: &[Mirror], mirror: &Mirror) -> bool
    ensures { result ≡ has_own_mid mirrors.now mirror.now }
{
    mirrors.iter().all(|other| mirror.mid != other.mid || mirror.name == other.name)
}

fn has_own_did(components: &[Component], component: &Component) -> bool
    ensures { result ≡ has_own_did components.now component.now }
{
    components.iter().all(|other| {
        !(component.mirror == other.mirror && component.did == other.did)
            || component.provider == other.provider
    })
}

fn has_home(mirrors: &[Mirror], component: &Component) -> bool
    ensures { result ≡ has_home mirrors.now component.now }
{
    mirrors.iter().any(|m| m.name == component.mirror)
}

fn have_own_mids(mirrors: &[Mirror]) -> bool
    ensures { result ≡ list_all (has_own_mid mirrors.now) mirrors.now }
{
    mirrors.iter().all(|m| has_own_mid(mirrors, m))
}

fn have_own_dids(components: &[Component]) -> bool
    ensures { result ≡ list_all (has_own_did components.now) components.now }
{
    components.iter().all(|k| has_own_did(components, k))
}

fn have_homes(mirrors: &[Mirror], components: &[Component]) -> bool
    ensures { result ≡ list_all (has_home mirrors.now) components.now }
{
    components.iter().all(|k| has_home(mirrors, k))
}

/// Whether these are the records of a state.
pub(crate) fn keeps_rules(mirrors: &[Mirror], components: &[Component]) -> bool
    ensures { result ≡ is_state (record { mirrors = mirrors.now; components = components.now }) }
{
    mirrors_ascend(mirrors)
        && components_ascend(components)
        && mirrors.len() <= MAX_MIRRORS
        && are_mirrors(components, mirrors)
        && have_homes(mirrors, components)
        && have_own_mids(mirrors)
        && have_own_dids(components)
}
