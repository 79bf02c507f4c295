//! All records, and what is found in them.

ghost use Rattle.std.specs.Prelude.{◌≡◌, ◌≤◌, [], List, Option, Some, None, IfOk, IfSome, IfNone, OnOk, OnErr, false, length};
ghost use Rattle.std.specs.List.{prefix_len};
ghost use Rattle.gm_metadata.specs.Images.{same_label};
ghost use Rattle.gm_state.specs.declared.records.Component.{Component};
ghost use Rattle.gm_state.specs.declared.records.Mirror.{Mirror};
ghost use Rattle.gm_lists.specs.Ordered.{Has, label_lt, put};
ghost use Rattle.gm_state.specs.Records.{Records, IsState, IsStateOf, members, provider};
ghost use Rattle.gm_state.specs.Lookups.{mirror_of, component_of};

use crate::records::{Component, Mirror};
use crate::rules::keeps_rules;
use gm_metadata::Label;
use std::alloc::{AllocError, Global};
use std::marker::Model;

/// The records of the bench, by whose rules each of these holds. In contracts it is the two lists,
/// each in byte order of names.
#[derive(Clone, Debug, Drop)]
pub struct State {
    mirrors: Vec<Mirror>,
    components: Vec<Component>,
}

impl Model for State {
    ghost use Rattle.gm_state.specs.Records.{Records, IsState};

    ghost Value = { Records };

    ghost view = { λ a. record { mirrors = a.mirrors.items; components = a.components.items } };

    ghost invariant = { λ a. IsState
        (record { mirrors = a.mirrors.items; components = a.components.items }) };
}

fn mirror_in(mirrors: &[Mirror], name: Label) -> Option<Mirror>
    ensures { result ≡ mirror_of (record { mirrors = mirrors.now; components = [] }) name }
{
    mirrors.iter().copied().find(|m| m.name == name)
}

fn component_in(components: &[Component], provider: Label) -> Option<Component>
    ensures { result ≡ component_of
        (record { mirrors = []; components = components.now }) provider }
{
    components.iter().copied().find(|k| k.provider == provider)
}

pub(crate) fn members_in(
    alloc: Global,
    components: &[Component],
    name: Label,
) -> Result<Vec<Component>, AllocError>
    ensures { IfOk result (λ v. v.items ≡ members components.now name) }
{
    components
        .iter()
        .copied()
        .filter(|k| k.mirror == name)
        .collect(alloc)
}

/// Puts a component, whose name is new, at its place in byte order.
pub fn put(components: &mut Vec<Component>, new: Component) -> Result<(), AllocError>
    requires { (k : Component) → Has components.old.items k
        → same_label k.provider new.provider ≡ false }
    ensures ok { OnOk result (components.new.items ≡ put provider new components.old.items) }
    ensures err { OnErr result (components.new.items ≡ components.old.items) }
{
    let at = place_of(components, new.provider);
    components.insert(at, new)?;
    Ok(())
}

fn place_of(components: &[Component], provider: Label) -> usize
    ensures value { result ≡ prefix_len (λ k. label_lt k.provider provider) components.now }
    ensures within { result ≤ length components.now }
{
    components
        .iter()
        .take_while(|k| k.provider < provider)
        .count()
}

impl State {
    /// The state with these records, given in any order; `None` if they break a rule.
    pub fn new(mut mirrors: Vec<Mirror>, mut components: Vec<Component>) -> Option<State>
        ensures some { IfSome result (λ s. IsStateOf mirrors.items components.items s) }
        ensures none { IfNone result ((s : Records)
            → IsStateOf mirrors.items components.items s → ⊥) }
    {
        mirrors.sort_unstable_by_key(|m| m.name);
        components.sort_unstable_by_key(|k| k.provider);
        if !keeps_rules(&mirrors, &components) {
            return None;
        }
        Some(State::from_ordered(mirrors, components))
    }

    /// The state with these records, which are known to keep the rules and to stand in order.
    pub fn from_ordered(mirrors: Vec<Mirror>, components: Vec<Component>) -> State
        requires { IsState (record { mirrors = mirrors.items; components = components.items }) }
        ensures { result ≡ record { mirrors = mirrors.items; components = components.items } }
    {
        State {
            mirrors,
            components,
        }
    }

    /// The state without any mirror.
    pub fn empty(alloc: Global) -> State
        ensures { result ≡ record { mirrors = []; components = [] } }
    {
        State::from_ordered(Vec::new(alloc), Vec::new(alloc))
    }

    /// The mirror of this name.
    pub fn mirror(&self, name: Label) -> Option<Mirror>
        ensures value { result ≡ mirror_of self.now name }
        ensures state { IsState self.now }
    {
        mirror_in(&self.mirrors, name)
    }

    /// The component on this provider.
    pub fn component(&self, provider: Label) -> Option<Component>
        ensures value { result ≡ component_of self.now provider }
        ensures state { IsState self.now }
    {
        component_in(&self.components, provider)
    }

    /// The components of a mirror, in byte order.
    pub fn members(&self, alloc: Global, name: Label) -> Result<Vec<Component>, AllocError>
        ensures value { IfOk result (λ v. v.items ≡ members self.now.components name) }
        ensures state { IsState self.now }
    {
        members_in(alloc, &self.components, name)
    }

    /// All mirrors, in byte order of names.
    pub fn mirrors(&self) -> &[Mirror]
        ensures value { result.now ≡ self.now.mirrors }
        ensures state { IsState self.now }
    {
        &self.mirrors
    }

    /// All components, in byte order of providers.
    pub fn components(&self) -> &[Component]
        ensures value { result.now ≡ self.now.components }
        ensures state { IsState self.now }
    {
        &self.components
    }
}

/// Records have one order as a state.
pub fn one_state()
    ensures { (mirrors : List Mirror) (components : List Component) (s t : Records)
        → IsStateOf mirrors components s → IsStateOf mirrors components t → s ≡ t }
{}
