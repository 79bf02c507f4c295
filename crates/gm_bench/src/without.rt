//! An opening without a provider: if the image of a component is gone for good, it is given up
//! by a `lost` of it, in the transaction that takes out what is pending there; the rest is carried
//! out as by any opening.

ghost use Rattle.std.specs.Prelude.{◌≡◌, ◌∷◌, [], IfOk, IfErr, IsErrOf, string_bytes};
ghost use Rattle.gm_commands.specs.declared.command.Command.TheVariants.{Lost};
ghost use Rattle.gm_state.specs.Records.{IsState};
ghost use Rattle.gm_changes.specs.Decides.{changed_by};
ghost use Rattle.gm_bench.specs.Faults.{IsOfMedia, IsOfRegistry};
ghost use Rattle.gm_bench.specs.Without.{IsRedirected};
ghost use Rattle.gm_bench.specs.Judging.{JudgesComponent, JudgesLoss, JudgesMember, RulesOnLoss};

use crate::fault::BenchFault;
use crate::found_key::{Expected, FoundKey};
use crate::loss::{Judged, LossRefusal, loss_with, next_source};
use crate::media::Media;
use crate::sizes::sizes_of;
use gm_changes::{Change, changed_by, decide};
use gm_commands::{Command, Providers, words_of};
use gm_metadata::Label;
use gm_refusals::{CallRefusal, Refusal, needed};
use gm_shelf::Shelf;
use gm_state::{Component, Intent, State};
use sqlite::Alter;
use std::alloc::{AllocError, Global};

// The command that gives a component up.
fn loss_of(alloc: Global, component: &Component) -> Result<Command, BenchFault>
    ensures command { IfOk result (λ c.
        c ≡ Lost component.now.mirror (component.now.provider ∷ [])) }
    ensures fault { IfErr result IsOfMedia }
    ensures disk { IsErrOf result BenchFault.Disk → ⊥ }
    ensures not_store { IsErrOf result BenchFault.Store → ⊥ }
{
    let mut named = Vec::new(alloc);
    if named.push(component.provider).is_err() {
        return Err(BenchFault::Memory);
    }
    match Providers::new(named) {
        Some(providers) => Ok(Command::Lost {
            name: component.mirror,
            providers,
        }),
        None => Err(BenchFault::Memory),
    }
}

impl<S: Alter, H: Shelf> Media<S, H> {
    // What the rules say of a loss, of all records. No sector is read.
    fn rule(
        &self,
        alloc: Global,
        state: &State,
        command: &Command,
    ) -> Result<Result<Change, Refusal>, AllocError>
        ensures { RulesOnLoss state.now (H.size self.now.shelf) command.now result }
    {
        let names = needed(alloc, state, command)?;
        let facts = sizes_of(alloc, &self.shelf, &names)?;
        decide(alloc, state, &facts, command)
    }

    // What a loss comes to whose change the rules allow.
    fn redirect(
        &self,
        alloc: Global,
        state: &State,
        intents: &[Intent],
        bytes: &[[u8; 512]],
        component: &Component,
        words: String,
        change: Change,
    ) -> Result<Judged, BenchFault>
        ensures comes { IfOk result (IsRedirected state.now (H.size self.now.shelf) intents.now
            bytes.now
            component.now.mirror component.now.provider (string_bytes words) change) }
        ensures fault { IfErr result IsOfRegistry }
        ensures not_store { IsErrOf result BenchFault.Store → ⊥ }
        ensures readable { IsErrOf result BenchFault.Unreadable
            → IsState (changed_by change state.now) → ⊥ }
    {
        let after = match changed_by(alloc, state, &change) {
            Ok(Some(after)) => after,
            Ok(None) => return Err(BenchFault::Unreadable),
            Err(_) => return Err(BenchFault::Memory),
        };
        let provider = component.provider;
        let Some(next) = next_source(&after, provider, intents) else {
            return Ok(Judged::Refused(LossRefusal::OnlySource));
        };
        if self.shelf.sectors(provider).is_some() {
            return Ok(Judged::Refused(LossRefusal::OnShelf));
        }
        let mirror = component.mirror;
        match loss_with(
            alloc, mirror, words, change, after, provider, next, intents, bytes,
        ) {
            Ok(loss) => Ok(Judged::New(loss)),
            Err(_) => Err(BenchFault::Memory),
        }
    }

    // What is found of the loss of a component, under a key that is free.
    fn judge_component(
        &self,
        alloc: Global,
        state: &State,
        intents: &[Intent],
        bytes: &[[u8; 512]],
        component: &Component,
    ) -> Result<Judged, BenchFault>
        ensures { JudgesComponent state.now (H.size self.now.shelf) intents.now bytes.now
            component.now result }
    {
        let command = loss_of(alloc, component)?;
        let Ok(words) = words_of(alloc, &command) else {
            return Err(BenchFault::Memory);
        };
        match self.rule(alloc, state, &command) {
            Err(_) => Err(BenchFault::Memory),
            Ok(Err(refusal)) => Ok(Judged::refused(CallRefusal::ByRules(refusal))),
            Ok(Ok(change)) => self.redirect(alloc, state, intents, bytes, component, words, change),
        }
    }

    // What is found of the loss, under a key that is free.
    fn judge_member(
        &self,
        alloc: Global,
        state: &State,
        intents: &[Intent],
        bytes: &[[u8; 512]],
        provider: Label,
    ) -> Result<Judged, BenchFault>
        ensures { JudgesMember state.now (H.size self.now.shelf) intents.now bytes.now
            provider result }
    {
        match state.component(provider) {
            None => Ok(Judged::refused(CallRefusal::ByRules(Refusal::NotMember))),
            Some(component) => self.judge_component(alloc, state, intents, bytes, &component),
        }
    }

    /// What is found of the loss of a provider under a key. It reads the registry alone.
    pub(crate) fn judge_loss(
        &mut self,
        alloc: Global,
        state: &State,
        intents: &[Intent],
        bytes: &[[u8; 512]],
        provider: Label,
        key: &str,
    ) -> Result<Judged, BenchFault>
        ensures { JudgesLoss S.Store H.Shelf self.old self.new state.now intents.now bytes.now
            provider result key.now }
    {
        match self.look_up(key, &Expected::LossOf(provider))? {
            FoundKey::Kept(number, reply) => Ok(Judged::Kept(number, reply)),
            FoundKey::Refused(why) => Ok(Judged::refused(why)),
            FoundKey::Free => self.judge_member(alloc, state, intents, bytes, provider),
        }
    }
}
