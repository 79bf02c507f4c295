//! What a command changes.

ghost use Rattle.std.specs.Prelude.{◌≡◌, ◌++◌, OnOk, OnErr};
ghost use Rattle.gm_changes.specs.After.{metas, clears_of};
ghost use Rattle.gm_changes.specs.Decides.{no_change};

use gm_metadata::Label;
use gm_state::{Component, Intent, Mirror, Reply};
use std::alloc::{AllocError, Global};
use std::marker::Model;

/// A further key under which the same command is accepted, after the one before it, and what it is
/// answered then.
#[derive(Debug, Drop)]
pub struct Further {
    pub key: String,
    pub reply: Reply,
}

/// Records to put, names of records to delete, what is to be written, and what is answered.
/// Deletions come before what is put. If the command is accepted under further keys too, the
/// records and what is to be written are those of all.
#[derive(Debug, Drop)]
pub struct Change {
    pub(crate) mirror: Option<Mirror>,
    pub(crate) gone_mirror: Option<Label>,
    pub(crate) components: Vec<Component>,
    pub(crate) gone_components: Vec<Label>,
    pub(crate) intents: Vec<Intent>,
    pub(crate) bytes: Vec<[u8; 512]>,
    pub(crate) reply: Reply,
    pub(crate) further: Vec<Further>,
}

impl Model for Change {
    ghost use Rattle.gm_changes.specs.Decides.{Changed};

    ghost Value = { Changed };

    ghost view = { λ a. record {
      mirror = a.mirror;
      gone_mirror = a.gone_mirror;
      components = a.components.items;
      gone_components = a.gone_components.items;
      intents = a.intents.items;
      bytes = a.bytes.items;
      reply = a.reply;
      further = a.further.items;
    } };
}

impl Change {
    // Nothing is put, deleted or written, and the answer is plain: what a command changes is laid
    // over it.
    pub(crate) fn nothing(alloc: Global) -> Change
        ensures { result ≡ no_change }
    {
        Change {
            mirror: None,
            gone_mirror: None,
            components: Vec::new(alloc),
            gone_components: Vec::new(alloc),
            intents: Vec::new(alloc),
            bytes: Vec::new(alloc),
            reply: Reply::Plain,
            further: Vec::new(alloc),
        }
    }

    /// The mirror to put, in place of the one of its name.
    pub fn mirror(&self) -> Option<Mirror>
        ensures { result ≡ self.now.mirror }
    {
        self.mirror
    }

    /// The name of the mirror to delete.
    pub fn gone_mirror(&self) -> Option<Label>
        ensures { result ≡ self.now.gone_mirror }
    {
        self.gone_mirror
    }

    /// The components to put, each in place of the one on its provider.
    pub fn components(&self) -> &[Component]
        ensures { result.now ≡ self.now.components }
    {
        &self.components
    }

    /// The providers of the components to delete.
    pub fn gone_components(&self) -> &[Label]
        ensures { result.now ≡ self.now.gone_components }
    {
        &self.gone_components
    }

    /// What is to be written, in order.
    pub fn intents(&self) -> &[Intent]
        ensures { result.now ≡ self.now.intents }
    {
        &self.intents
    }

    /// The sectors that the intents lay over data, in their order.
    pub fn bytes(&self) -> &[[u8; 512]]
        ensures { result.now ≡ self.now.bytes }
    {
        &self.bytes
    }

    /// What is answered, under the first key.
    pub fn reply(&self) -> Reply
        ensures { result ≡ self.now.reply }
    {
        self.reply
    }

    /// The further keys under which it is accepted, in turn.
    pub fn further(&self) -> &[Further]
        ensures { result.now ≡ self.now.further }
    {
        &self.further
    }
}

// Adds Meta of each of the components.
pub(crate) fn push_metas(
    intents: &mut Vec<Intent>,
    components: &[Component],
) -> Result<(), AllocError>
    ensures { OnOk result (intents.new.items ≡ intents.old.items ++ metas components.now) }
{
    for k in components {
        intents.push(Intent::Meta {
            provider: k.provider,
        })?;
    }
    Ok(())
}

// Adds Clear of each of the components.
pub(crate) fn push_clears(
    intents: &mut Vec<Intent>,
    components: &[Component],
) -> Result<(), AllocError>
    ensures { OnOk result (intents.new.items ≡ intents.old.items ++ clears_of components.now) }
{
    for k in components {
        intents.push(Intent::Clear {
            provider: k.provider,
        })?;
    }
    Ok(())
}
