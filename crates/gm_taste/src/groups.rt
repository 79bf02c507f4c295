//! From the taken providers to the groups.

ghost use Rattle.std.specs.Prelude.{◌≡◌, ◌≤◌, length, map, IfOk};
ghost use Rattle.std.specs.List.{prefix_len};
ghost use Rattle.gm_taste.specs.Tasting.{key_in, is_of, genid_in, syncid_in, member, key_of, Made, Grouped};

use crate::member_states::state_of;
use crate::tasted::{Group, Member};
use gm_metadata::{Label, Metadata};
use std::alloc::{AllocError, Global};

/// A provider that is taken, with what its last sector says.
#[derive(Clone, Copy, Debug)]
pub struct Taken {
    pub provider: Label,
    pub metadata: Metadata,
}

// What tells mirrors apart. They go by name, and then by mid.
#[derive(Clone, Copy, PartialEq, Eq, PartialOrd, Ord)]
pub(crate) struct Key {
    name: Label,
    mid: u32,
}

fn key_in(taken: &Taken) -> Key
    ensures { result ≡ key_in taken.now }
{
    Key {
        name: taken.metadata.name,
        mid: taken.metadata.mid,
    }
}

fn is_of(key: &Key, taken: &Taken) -> bool
    ensures { result ≡ is_of key.now taken.now }
{
    key_in(taken) == *key
}

// How many of the key stand first.
fn run_of(key: &Key, taken: &[Taken]) -> usize
    ensures value { result ≡ prefix_len (is_of key.now) taken.now }
    ensures within { result ≤ length taken.now }
{
    taken.iter().take_while(|t| is_of(key, t)).count()
}

fn genid_in(own: &[Taken]) -> u32
    ensures { result ≡ genid_in own.now }
{
    let mut genid = 0;
    for t in own {
        if genid < t.metadata.genid {
            genid = t.metadata.genid;
        }
    }
    genid
}

fn syncid_in(own: &[Taken], genid: u32) -> u32
    ensures { result ≡ syncid_in genid own.now }
{
    let mut syncid = 0;
    for t in own {
        if t.metadata.genid == genid && syncid < t.metadata.syncid {
            syncid = t.metadata.syncid;
        }
    }
    syncid
}

/// What a provider is in a group with this genid and this syncid.
pub fn member(genid: u32, syncid: u32, taken: &Taken) -> Member
    ensures { result ≡ member genid syncid taken.now }
{
    Member {
        provider: taken.provider,
        metadata: taken.metadata,
        state: state_of(genid, syncid, &taken.metadata),
    }
}

fn members_of(
    alloc: Global,
    own: &[Taken],
    genid: u32,
    syncid: u32,
) -> Result<Vec<Member>, AllocError>
    ensures { IfOk result (λ v. v.items ≡ map (member genid syncid) own.now) }
{
    let mut members = Vec::new(alloc);
    for t in own {
        members.push(member(genid, syncid, t))?;
    }
    Ok(members)
}

// The group of the key, made of those that have it.
fn group_of(alloc: Global, key: &Key, own: &[Taken]) -> Result<Group, AllocError>
    ensures key { IfOk result (λ g. key_of g ≡ key.now) }
    ensures made { IfOk result (λ g. Made own.now g) }
{
    let genid = genid_in(own);
    let syncid = syncid_in(own, genid);
    let members = members_of(alloc, own, genid, syncid)?;
    Ok(Group {
        name: key.name,
        mid: key.mid,
        genid,
        syncid,
        members,
    })
}

// The groups of the taken, in the order of their keys; in a group they keep their order. It takes a
// sort and then one pass, however many keys there are.
pub(crate) fn groups_of(alloc: Global, mut taken: Vec<Taken>) -> Result<Vec<Group>, AllocError>
    ensures { IfOk result (λ v. Grouped taken.items v.items) }
{
    taken.sort_by_key(|t| key_in(t))?;
    let mut groups = Vec::new(alloc);
    let mut rest = taken.as_slice();
    while let Some(first) = rest.first() {
        let key = key_in(first);
        let (own, others) = rest.split_at(run_of(&key, rest));
        groups.push(group_of(alloc, &key, own)?)?;
        rest = others;
    }
    Ok(groups)
}
