//! What the rules answer to a command.

ghost use Rattle.std.specs.Prelude.{◌≡◌, ℕ, List, IfOk, IfErr, IsErrOf};
ghost use Rattle.gm_state.specs.Records.{Records, IsState};
ghost use Rattle.gm_changes.specs.Decides.{changed_by};
ghost use Rattle.gm_refusals.specs.PartOf.{IsPartOf};
ghost use Rattle.gm_refusals.specs.WorldFacts.{needed_by};
ghost use Rattle.gm_bench.specs.Faults.{IsOfCall};
ghost use Rattle.gm_bench.specs.ShelfFacts.{Tell, TellSizes};
ghost use Rattle.gm_lists.specs.Ordered.{Has};
ghost use Rattle.gm_bench.specs.Calls.{Looks};
ghost use Rattle.gm_bench.specs.Asking.{AsksRules, Counts, DecidesPart, Gathers, ReadsPart};

use crate::adopt_scope::{Compared, adopted_from, compared_with};
use crate::answer::Work;
use crate::facts::facts_of;
use crate::fault::BenchFault;
use crate::media::Media;
use crate::sectors::copied;
use gm_apply::Watch;
use gm_changes::{Change, changed_by, decide_part};
use gm_commands::Command;
use gm_metadata::Label;
use gm_refusals::{Facts, Refusal, adopt_source, found_mids, needed};
use gm_registry::Part;
use gm_shelf::Shelf;
use gm_state::{Intent, State};
use sqlite::Alter;
use std::alloc::Global;

/// What is to be done for a command that nothing refuses: the change, and what is then to be
/// carried out.
#[derive(Drop)]
pub(crate) struct Planned {
    pub(crate) change: Change,
    pub(crate) work: Work,
}

// What is known to decide on a command: its part of the records, and what the shelf says.
#[derive(Drop)]
pub(crate) struct Gathered {
    pub(crate) part: Part,
    pub(crate) facts: Facts,
}

/// What a change leaves to be done.
pub(crate) fn plan(alloc: Global, part: &State, change: Change) -> Result<Planned, BenchFault>
    ensures planned { IfOk result (λ p. (p.change ≡ change)
        × (p.work.part ≡ changed_by change part.now)
        × (p.work.intents.items ≡ change.intents) × (p.work.bytes.items ≡ change.bytes)) }
    ensures disk { IsErrOf result BenchFault.Disk → ⊥ }
    ensures not_store { IsErrOf result BenchFault.Store → ⊥ }
    ensures fault { IfErr result IsOfCall }
    ensures readable { IsErrOf result BenchFault.Unreadable → IsState (changed_by change part.now)
        → ⊥ }
{
    let left = match changed_by(alloc, part, &change) {
        Ok(Some(left)) => left,
        Ok(None) => return Err(BenchFault::Unreadable),
        Err(_) => return Err(BenchFault::Memory),
    };
    let Ok(intents) = change.intents().to_vec(alloc) else {
        return Err(BenchFault::Memory);
    };
    match copied(alloc, change.bytes()) {
        Ok(bytes) => Ok(Planned {
            change,
            work: Work {
                part: left,
                intents,
                bytes,
            },
        }),
        Err(_) => Err(BenchFault::Memory),
    }
}

// What the rules answer, of a part of the records.
fn decide_on(
    alloc: Global,
    part: &State,
    count: u64,
    facts: &Facts,
    command: &Command,
) -> Result<Result<Planned, Refusal>, BenchFault>
    ensures { DecidesPart part.now count facts.now command.now result }
{
    match decide_part(alloc, part, count, facts, command) {
        Ok(Ok(change)) => {
            let planned = plan(alloc, part, change)?;
            Ok(Ok(planned))
        }
        Ok(Err(refusal)) => Ok(Err(refusal)),
        Err(_) => Err(BenchFault::Memory),
    }
}

impl<S: Alter, H: Shelf> Media<S, H> {
    /// How many commands were accepted. It writes nothing.
    pub(crate) fn accepted(&mut self) -> Result<u64, BenchFault>
        ensures { Counts S.Store self.old self.new result (λ n count. n ≡ count) }
    {
        match self.registry.accepted() {
            Ok(count) => Ok(count),
            Err(fault) => Err(BenchFault::of_store(fault)),
        }
    }

    /// The part of the records that the command asks for, and that has each of these mids, and how
    /// many mirrors there are. It writes nothing.
    pub(crate) fn part(
        &mut self,
        alloc: Global,
        command: &Command,
        mids: &[u32],
    ) -> Result<Part, BenchFault>
        ensures { ReadsPart S.Store self.old self.new result command.now mids.now }
    {
        match self.registry.part(alloc, command, mids) {
            Ok(part) => Ok(part),
            Err(fault) => Err(BenchFault::of_store(fault)),
        }
    }

    // What the images of these providers say; with the others, those are compared with this.
    fn look_at<W: Watch>(
        &mut self,
        alloc: Global,
        against: &Option<Compared>,
        names: &[Label],
        watch: &mut W,
    ) -> Result<Facts, BenchFault>
        ensures tell { H.honest self.old.shelf → IfOk result (λ facts. (q : List ℕ)
            → Has names.now q → Tell facts (H.size self.old.shelf)
            (H.view self.old.shelf).seen against.now q) }
        ensures sizes { IfOk result (λ facts. TellSizes facts (H.size self.old.shelf)) }
        ensures registry { self.new.registry ≡ self.old.registry }
        ensures looks { Looks H.Shelf self.old.shelf self.new.shelf result }
    {
        facts_of(alloc, &mut self.shelf, against, names, watch)
    }

    // What the shelf says of the providers that a command needs, of which the part is known.
    fn look<W: Watch>(
        &mut self,
        alloc: Global,
        part: &State,
        command: &Command,
        against: &Option<Compared>,
        watch: &mut W,
    ) -> Result<Facts, BenchFault>
        ensures tell { H.honest self.old.shelf → IfOk result (λ facts. (s : Records)
            → IsPartOf part.now command.now s → (q : List ℕ) → Has (needed_by s command.now) q
            → Tell facts (H.size self.old.shelf) (H.view self.old.shelf).seen against.now q) }
        ensures sizes { IfOk result (λ facts. TellSizes facts (H.size self.old.shelf)) }
        ensures registry { self.new.registry ≡ self.old.registry }
        ensures looks { Looks H.Shelf self.old.shelf self.new.shelf result }
    {
        match needed(alloc, part, command) {
            Ok(names) => self.look_at(alloc, against, &names, watch),
            Err(_) => Err(BenchFault::Memory),
        }
    }

    // What is to be known to decide on the command: the images that it adopts from say which mids
    // its part has, and which data are to be compared.
    fn gather<W: Watch>(
        &mut self,
        alloc: Global,
        command: &Command,
        watch: &mut W,
    ) -> Result<Gathered, BenchFault>
        ensures { Gathers S.Store H.Shelf self.old self.new result command.now }
    {
        let providers = adopted_from(command);
        let first = self.look_at(alloc, &None, providers, watch)?;
        let mids = match found_mids(alloc, &first, providers) {
            Ok(mids) => mids,
            Err(_) => return Err(BenchFault::Memory),
        };
        let part = self.part(alloc, command, &mids)?;
        let against = compared_with(adopt_source(&first, providers));
        let facts = self.look(alloc, &part.state, command, &against, watch)?;
        Ok(Gathered { part, facts })
    }

    /// What the rules answer, with what is carried out once that is accepted. It writes nothing.
    /// The watch is told how far data are compared.
    pub(crate) fn ask<W: Watch>(
        &mut self,
        alloc: Global,
        command: &Command,
        watch: &mut W,
    ) -> Result<Result<Planned, Refusal>, BenchFault>
        ensures { AsksRules S.Store H.Shelf self.old self.new result command.now }
    {
        let known = self.gather(alloc, command, watch)?;
        let part = &known.part;
        decide_on(alloc, &part.state, part.mirrors, &known.facts, command)
    }
}
