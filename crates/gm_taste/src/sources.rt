//! Which member a mirror takes its data from when it is taken over from its images.

ghost use Rattle.std.specs.Prelude.{◌≡◌, None, option_map};
ghost use Rattle.gm_taste.specs.Sources.{IsSource, first_from, first_of_two, goes_before, has_sure_member, source_of, takes_place};

use crate::tasted::{Group, Member};
use gm_metadata::Label;

fn goes_before(a: &Member, b: &Member) -> bool
    ensures { result ≡ goes_before a.now b.now }
{
    b.metadata.priority < a.metadata.priority
        || a.metadata.priority == b.metadata.priority && a.provider < b.provider
}

fn takes_place(known: &Option<Member>, member: &Member) -> bool
    ensures { result ≡ takes_place known.now member.now }
{
    match known {
        None => member.state.is_active(),
        Some(known) => member.state.is_active() && goes_before(member, known),
    }
}

/// The one of the two that data are rather taken from: the member if it is ACTIVE and goes
/// before the one that is known so far, or none is.
pub fn first_of_two(known: Option<Member>, member: &Member) -> Option<Member>
    ensures { result ≡ first_of_two known member.now }
{
    if takes_place(&known, member) {
        Some(*member)
    } else {
        known
    }
}

fn first_in(members: &[Member]) -> Option<Member>
    ensures { result ≡ first_from None members.now }
{
    let mut first = None;
    for member in members {
        first = first_of_two(first, member);
    }
    first
}

fn name_of(member: &Option<Member>) -> Option<Label>
    ensures { result ≡ option_map (λ x. x.provider) member.now }
{
    match member {
        Some(member) => Some(member.provider),
        None => None,
    }
}

/// The member of a group whose data are the mirror's: the ACTIVE one with the greatest priority,
/// among equals the one with the least name. `None` if none is ACTIVE.
pub fn source_of(group: &Group) -> Option<Label>
    ensures value { result ≡ source_of group.now }
    ensures source { IsSource group.now result }
{
    name_of(&first_in(&group.members))
}

/// Whether a member of the group has the mirror's data for sure: it is ACTIVE, and its metadata
/// don't say DIRTY.
pub fn has_sure_member(group: &Group) -> bool
    ensures { result ≡ has_sure_member group.now }
{
    group
        .members
        .iter()
        .any(|x| x.state.is_active() && !x.metadata.dflags.dirty)
}
