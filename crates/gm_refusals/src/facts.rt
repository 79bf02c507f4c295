//! What the shelf says of the providers that a command needs.

ghost use Rattle.std.specs.Prelude.{◌≡◌};
ghost use Rattle.gm_refusals.specs.Facts.{fact_of, size_in, last_in, last_carries, equals_in};

use gm_metadata::{Label, carries_metadata};
use std::marker::Model;

/// A provider that is on the shelf: how many sectors it has, and the last of them. A provider
/// without sectors has zeros for its last one.
#[derive(Clone, Copy, Debug)]
pub struct Fact {
    pub provider: Label,
    pub sectors: u64,
    pub last: [u8; 512],
    /// How many of its first sectors equal those of the source that a mirror found on images takes
    /// its data from, counted up to the data and both lengths; 0 if that isn't asked.
    pub equal: u64,
}

/// What the shelf says of the providers that a command needs: those that it looks at, and the
/// components of its mirror that it waits for. A provider that is absent has no entry. In contracts
/// these are the entries.
#[derive(Debug, Drop)]
pub struct Facts {
    entries: Vec<Fact>,
}

impl Model for Facts {
    ghost use Rattle.std.specs.Prelude.{List};
    ghost use Rattle.gm_refusals.specs.declared.facts.Fact.{Fact};

    ghost Value = { List Fact };

    ghost view = { λ a. a.entries.items };
}

fn fact_in(entries: &[Fact], provider: Label) -> Option<Fact>
    ensures { result ≡ fact_of entries.now provider }
{
    entries.iter().copied().find(|f| f.provider == provider)
}

impl Facts {
    /// The facts with these entries; of two for one provider the first counts.
    pub fn new(entries: Vec<Fact>) -> Facts
        ensures { result ≡ entries.items }
    {
        Facts { entries }
    }

    pub(crate) fn fact(&self, provider: Label) -> Option<Fact>
        ensures { result ≡ fact_of self.now provider }
    {
        fact_in(&self.entries, provider)
    }

    /// How many sectors the provider has, if it is there.
    pub fn size(&self, provider: Label) -> Option<u64>
        ensures { result ≡ size_in self.now provider }
    {
        match self.fact(provider) {
            None => None,
            Some(fact) => Some(fact.sectors),
        }
    }

    /// Whether the provider is there and its last sector carries metadata.
    pub fn carries(&self, provider: Label) -> bool
        ensures { result ≡ last_carries (last_in self.now provider) }
    {
        match self.fact(provider) {
            None => false,
            Some(fact) => carries_metadata(&fact.last),
        }
    }

    /// The last sector of the provider, if it is there.
    pub(crate) fn last(&self, provider: Label) -> Option<[u8; 512]>
        ensures { result ≡ last_in self.now provider }
    {
        match self.fact(provider) {
            None => None,
            Some(fact) => Some(fact.last),
        }
    }

    /// How many of its first sectors are known to equal those of the source.
    pub fn equal(&self, provider: Label) -> u64
        ensures { result ≡ equals_in self.now provider }
    {
        match self.fact(provider) {
            None => 0,
            Some(fact) => fact.equal,
        }
    }
}
