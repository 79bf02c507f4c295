//! The loss of a component whose image is gone for good: what becomes of the intents that are
//! pending, and why the loss is refused.

ghost use Rattle.std.specs.Prelude.{◌≡◌, ◌≢◌, ◌↔◌, ◌++◌, ◌∷◌, [], ℕ, List, IfNone, IfOk, IfSome, IsTrue, MatchOption, string_bytes};
ghost use Rattle.std.specs.List.{list_any};
ghost use Rattle.gm_commands.specs.declared.command.Command.TheVariants.{Lost};
ghost use Rattle.gm_commands.specs.Commands.{words_of};
ghost use Rattle.gm_state.specs.Readable.{is_patch};
ghost use Rattle.gm_metadata.specs.Labels.{is_label};
ghost use Rattle.gm_bench.specs.declared.loss.LossRefusal.TheVariants.{ByCall};
ghost use Rattle.gm_bench.specs.declared.loss.Judged.TheVariants.{Refused};
ghost use Rattle.gm_bench.specs.Losing.{left_to_lay, next_of, redirected, remaining, writes_to};
ghost use Rattle.gm_bench.specs.Without.{AreOfLoss, number_of_loss};

use crate::sectors::copied;
use gm_changes::Change;
use gm_metadata::Label;
use gm_refusals::CallRefusal;
use gm_state::{Intent, Reply, State, source as source_of};
use std::alloc::{AllocError, Global};

/// Why a bench isn't opened without a provider. If several apply, the least number is answered.
#[derive(Clone, Copy, Debug, PartialEq, Eq)]
pub enum LossRefusal {
    /// As a `lost` of the provider in its mirror is refused; one of no mirror isn't a component.
    ByCall(CallRefusal),
    /// A pending copy takes from the provider, and nothing else can be its source.
    OnlySource,
    /// The provider's image is there.
    OnShelf,
}

impl LossRefusal {
    /// The number that is answered.
    pub fn number(self) -> u8
        ensures { result ≡ number_of_loss self }
    {
        match self {
            LossRefusal::ByCall(refusal) => refusal.number(),
            LossRefusal::OnlySource => 27,
            LossRefusal::OnShelf => 32,
        }
    }
}

/// A loss that nothing refuses: its mirror, its change, the records and the intents after it, the
/// sectors that those lay, and its words.
#[derive(Drop)]
pub(crate) struct Loss {
    pub(crate) mirror: Label,
    pub(crate) change: Change,
    pub(crate) after: State,
    pub(crate) intents: Vec<Intent>,
    pub(crate) bytes: Vec<[u8; 512]>,
    pub(crate) words: String,
}

/// What is found of an opening without a provider, before anything is written.
#[derive(Drop)]
pub(crate) enum Judged {
    /// The loss was accepted before, under this number.
    Kept(u64, Reply),
    /// The loss is refused.
    Refused(LossRefusal),
    /// The loss is to be written.
    New(Loss),
}

impl Judged {
    /// The loss is refused as a command.
    pub(crate) fn refused(refusal: CallRefusal) -> Judged
        ensures { result ≡ Refused (ByCall refusal) }
    {
        Judged::Refused(LossRefusal::ByCall(refusal))
    }
}

fn writes_to(provider: Label, intent: &Intent) -> bool
    ensures { result ≡ writes_to provider intent.now }
{
    match *intent {
        Intent::Meta { provider: written } | Intent::Clear { provider: written } => {
            written == provider
        }
        Intent::Copy { target, .. } => target == provider,
        Intent::Dirty { provider: written }
        | Intent::Patch {
            provider: written,
            first: _,
            end: _,
        } => written == provider,
    }
}

fn redirected(provider: Label, next: Label, intent: Intent) -> Intent
    ensures { result ≡ redirected provider next intent }
{
    match intent {
        Intent::Copy {
            source,
            target,
            first,
            end,
        } => Intent::Copy {
            source: if source == provider { next } else { source },
            target,
            first,
            end,
        },
        _ => intent,
    }
}

#[tactic(auto, using(crate::proofs::LossIntents::remaining_is))]
/// The intents that don't write to the provider; what one of them copies from it, it takes from the
/// next source.
pub(crate) fn remaining(
    alloc: Global,
    provider: Label,
    next: Label,
    intents: &[Intent],
) -> Result<Vec<Intent>, AllocError>
    ensures { IfOk result (λ v. v.items ≡ remaining provider next intents.now) }
{
    intents
        .iter()
        .copied()
        .filter(|intent| !writes_to(provider, intent))
        .map(|intent| redirected(provider, next, intent))
        .collect(alloc)
}

/// The source, by the records after the loss, of the copy that is pending from the provider; `None`
/// if that has none. If nothing is copied from it, it is named itself.
pub(crate) fn next_source(after: &State, provider: Label, intents: &[Intent]) -> Option<Label>
    ensures { result ≡ next_of after.now provider intents.now }
{
    for intent in intents {
        if let Intent::Copy { source, target, .. } = *intent {
            if source == provider {
                return source_of(after, target);
            }
        }
    }
    Some(provider)
}

fn is_patch(intent: &Intent) -> bool
    ensures { result ≡ is_patch intent.now }
{
    matches!(intent, Intent::Patch { .. })
}

fn has_patch(intents: &[Intent]) -> bool
    ensures { result ≡ list_any is_patch intents.now }
{
    intents.iter().any(|intent| is_patch(intent))
}

// The sectors that are still to be laid: those of before if a Patch remains, else none.
fn left_to_lay(
    alloc: Global,
    intents: &[Intent],
    bytes: &[[u8; 512]],
) -> Result<Vec<[u8; 512]>, AllocError>
    ensures { IfOk result (λ v. v.items ≡ left_to_lay intents.now bytes.now) }
{
    if has_patch(intents) {
        copied(alloc, bytes)
    } else {
        Ok(Vec::new(alloc))
    }
}

// What comes after a beginning, if the text has it.
fn behind<'a>(front: &str, text: &'a str) -> Option<&'a str>
    ensures { MatchOption result ((rest : List ℕ) → text.now ≢ front.now ++ rest)
        (λ rest. text.now ≡ front.now ++ rest.now) }
{
    text.strip_prefix(front)
}

// What comes before an end, if the text has it.
fn before<'a>(back: &str, text: &'a str) -> Option<&'a str>
    ensures { MatchOption result ((rest : List ℕ) → text.now ≢ rest ++ back.now)
        (λ rest. text.now ≡ rest.now ++ back.now) }
{
    text.strip_suffix(back)
}

// The mirror of which the words lose the provider alone.
fn mirror_in(words: &str, provider: Label) -> Option<Label>
    ensures some { IfSome result (λ name. words.now ≡ words_of (Lost name (provider ∷ []))) }
    ensures label { IfSome result (λ name. IsTrue (is_label name) × IsTrue (is_label provider)) }
    ensures none { IfNone result (AreOfLoss provider words.now → ⊥) }
{
    let names = behind("lost ", words)?;
    let name = before(" ", before(provider.as_str(), names)?)?;
    Label::new(name)
}

/// Whether the words are those of a loss of the provider alone, of whatever mirror.
pub(crate) fn are_of_loss(words: &str, provider: Label) -> bool
    ensures { IsTrue result ↔ AreOfLoss provider words.now }
{
    mirror_in(words, provider).is_some()
}

/// The loss of the provider with its change, the records after that and its next source, if
/// these intents and sectors were pending.
pub(crate) fn loss_with(
    alloc: Global,
    mirror: Label,
    words: String,
    change: Change,
    after: State,
    provider: Label,
    next: Label,
    intents: &[Intent],
    bytes: &[[u8; 512]],
) -> Result<Loss, AllocError>
    ensures { IfOk result (λ loss. (loss.mirror ≡ mirror) × (loss.change ≡ change)
        × (loss.after ≡ after)
        × (loss.intents.items ≡ remaining provider next intents.now ++ change.intents)
        × (loss.bytes.items ≡ left_to_lay loss.intents.items bytes.now)
        × (string_bytes loss.words ≡ string_bytes words)) }
{
    let mut left = remaining(alloc, provider, next, intents)?;
    left.extend_from_slice(change.intents())?;
    let bytes = left_to_lay(alloc, &left, bytes)?;
    Ok(Loss {
        mirror,
        change,
        after,
        intents: left,
        bytes,
        words,
    })
}
