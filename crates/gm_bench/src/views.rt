//! What a bench shows of its media, mostly by the rows of mirrors and components alone. It changes
//! neither.

ghost use Rattle.std.specs.Prelude.{◌≡◌, ◌≢◌, ◌≤◌, IfOk, IfErr, OnOk, OnErr, IsErrOf};
ghost use Rattle.gm_shelf.specs.LastSector.{last_sector};
ghost use Rattle.gm_state.specs.Records.{Records};
ghost use Rattle.gm_state.specs.Rows.{Tables};
ghost use Rattle.gm_rows.specs.ReadableTables.{AreRecordsOf};
ghost use Rattle.gm_registry.specs.Registry.{DiskKept, HasTables};
ghost use Rattle.gm_registry.specs.Replies.{AreWrittenUnder, count_of};
ghost use Rattle.gm_looks.specs.Audits.{IsAudit};
ghost use Rattle.gm_looks.specs.Scrubs.{IsScrub};
ghost use Rattle.gm_looks.specs.Unlikes.{IsUnlike};
ghost use Rattle.gm_refusals.specs.Applies.{is_about};
ghost use Rattle.gm_bench.specs.Benches.{media_of, progress_of, redone_of, registry_of, shelf_of};
ghost use Rattle.gm_bench.specs.KeptCommands.{TellsKept};
ghost use Rattle.gm_bench.specs.Calls.{ClosesOnFault, LooksOn, TellsOfBoth, TellsOfRecords, TellsStore};

use crate::answer::Kept;
use crate::bench::Bench;
use crate::fault::BenchFault;
use crate::phase::Progress;
use gm_apply::Watch;
use gm_commands::Command;
use gm_looks::{Meant, Scrubbed, Unlike, audit_shelf, scrub_shelf, unlike_shelf};
use gm_metadata::Label;
use gm_shelf::{Shelf, read_last};
use gm_state::State;
use sqlite::Alter;
use std::alloc::Global;

impl<S: Alter, H: Shelf> Bench<S, H> {
    // `Closed` after an earlier fault.
    fn check_open(&self) -> Result<(), BenchFault>
        ensures open { OnOk result (progress_of self.now ≢ Progress.Failed) }
        ensures closed { IfErr result (λ fault. fault ≡ BenchFault.Closed) }
        ensures failed { OnErr result (progress_of self.now ≡ Progress.Failed) }
    {
        match self.progress {
            Progress::Failed => Err(BenchFault::Closed),
            _ => Ok(()),
        }
    }

    // Closes the bench because of a fault.
    fn close_on(&mut self, fault: BenchFault) -> BenchFault
        ensures fault { result ≡ fault }
        ensures closes { progress_of self.new ≡ Progress.Failed }
        ensures media { media_of self.new ≡ media_of self.old }
        ensures redone { redone_of self.new ≡ redone_of self.old }
    {
        self.progress = Progress::Failed;
        fault
    }

    /// The mirrors and their components, as the registry has them: what is pending counts as
    /// carried out. `Closed` after an earlier fault; any other fault closes the bench.
    pub fn view(&mut self, alloc: Global) -> Result<State, BenchFault>
        // The records that the registry holds, whatever its other tables and the images hold.
        ensures shows { DiskKept S.Store (registry_of self.new)
            → IfOk result (λ state. (t : Tables) (s : Records)
            → HasTables S.Store (registry_of self.old) t → AreRecordsOf t s → state ≡ s) }
        ensures records { TellsOfRecords S.Store (registry_of self.old) (registry_of self.new)
            result }
        ensures shelf { shelf_of self.new ≡ shelf_of self.old }
        ensures looks { LooksOn S.Store H.Shelf self.old self.new result }
        ensures closes { ClosesOnFault self.old self.new result }
    {
        self.check_open()?;
        match self.media.registry.state(alloc) {
            Ok(state) => Ok(state),
            Err(fault) => Err(self.close_on(BenchFault::of_store(fault))),
        }
    }

    /// The last sector of a provider; None if it is absent or has no sectors. `Closed` after an
    /// earlier fault; any other fault closes the bench.
    pub fn last_sector(&mut self, provider: Label) -> Result<Option<[u8; 512]>, BenchFault>
        ensures shows { H.honest (shelf_of self.old) → IfOk result (λ found. found
            ≡ last_sector (H.size (shelf_of self.old)) (H.view (shelf_of self.old)).seen
            provider) }
        ensures unreadable { IsErrOf result BenchFault.Unreadable → ⊥ }
        ensures not_store { IsErrOf result BenchFault.Store → ⊥ }
        ensures registry { registry_of self.new ≡ registry_of self.old }
        ensures looks { LooksOn S.Store H.Shelf self.old self.new result }
        ensures closes { ClosesOnFault self.old self.new result }
    {
        self.check_open()?;
        match read_last(&mut self.media.shelf, provider) {
            Ok(last) => Ok(last),
            Err(fault) => Err(self.close_on(BenchFault::of_shelf(fault))),
        }
    }

    /// The components that the shelf shows otherwise than they are registered, by the names of
    /// their providers in byte order: a provider that isn't there or has another size, or a last
    /// sector that isn't byte for byte the component's metadata. `Closed` after an earlier fault;
    /// any other fault closes the bench.
    pub fn audit(&mut self, alloc: Global) -> Result<Vec<Label>, BenchFault>
        ensures audits { TellsOfBoth S.Store H.Shelf self.old self.new result
            (λ s size seen names. IsAudit s size seen names.items) }
        ensures records { TellsOfRecords S.Store (registry_of self.old) (registry_of self.new)
            result }
        ensures looks { LooksOn S.Store H.Shelf self.old self.new result }
        ensures closes { ClosesOnFault self.old self.new result }
    {
        let state = self.view(alloc)?;
        match audit_shelf(alloc, &mut self.media.shelf, &state) {
            Ok(names) => Ok(names),
            Err(fault) => Err(self.close_on(BenchFault::of_shelf(fault))),
        }
    }

    /// The components that a command is about, and whose images aren't as they are registered, in
    /// byte order of their providers, each with how it stands: those of the mirror that the command
    /// names and those on providers that it names, but for those that it gives up as lost. `Closed`
    /// after an earlier fault; any other fault closes the bench.
    pub fn unlike(&mut self, alloc: Global, command: &Command) -> Result<Vec<Unlike>, BenchFault>
        ensures unlike { TellsOfBoth S.Store H.Shelf self.old self.new result
            (λ s size seen list. IsUnlike (is_about command.now) s size seen list.items) }
        ensures records { TellsOfRecords S.Store (registry_of self.old) (registry_of self.new)
            result }
        ensures looks { LooksOn S.Store H.Shelf self.old self.new result }
        ensures closes { ClosesOnFault self.old self.new result }
    {
        let state = self.view(alloc)?;
        match unlike_shelf(alloc, &mut self.media.shelf, &state, Meant::By(command)) {
            Ok(list) => Ok(list),
            Err(fault) => Err(self.close_on(BenchFault::of_shelf(fault))),
        }
    }

    /// The ACTIVE components that hold other data than their mirror's source, in byte order of
    /// their providers, each with what is amiss: of this mirror, or of all if none is named. A
    /// mirror's source is its ACTIVE component with the greatest priority, among equals the one
    /// with the least name. The watch is told how far it is. `Closed` after an earlier fault; any
    /// other fault closes the bench.
    pub fn scrub<W: Watch>(
        &mut self,
        alloc: Global,
        mirror: Option<Label>,
        watch: &mut W,
    ) -> Result<Vec<Scrubbed>, BenchFault>
        ensures scrubs { TellsOfBoth S.Store H.Shelf self.old self.new result
            (λ s size seen list. IsScrub s size seen mirror list.items) }
        ensures records { TellsOfRecords S.Store (registry_of self.old) (registry_of self.new)
            result }
        ensures looks { LooksOn S.Store H.Shelf self.old self.new result }
        ensures closes { ClosesOnFault self.old self.new result }
    {
        let state = self.view(alloc)?;
        match scrub_shelf(alloc, &mut self.media.shelf, &state, &mirror, watch) {
            Ok(list) => Ok(list),
            Err(fault) => Err(self.close_on(BenchFault::of_shelf(fault))),
        }
    }

    /// The command that was accepted under a key, or `None`. `Closed` after an earlier fault; any
    /// other fault closes the bench.
    pub fn kept(&mut self, key: &str) -> Result<Option<Kept>, BenchFault>
        ensures shows { DiskKept S.Store (registry_of self.new)
            → IfOk result (λ found. (t : Tables) → HasTables S.Store (registry_of self.old) t
            → TellsKept t key.now found) }
        ensures unreadable { DiskKept S.Store (registry_of self.new)
            → IsErrOf result BenchFault.Unreadable → (t : Tables)
            → HasTables S.Store (registry_of self.old) t → AreWrittenUnder key.now t → ⊥ }
        ensures store { TellsStore S.Store (registry_of self.old) (registry_of self.new) result }
        ensures shelf { shelf_of self.new ≡ shelf_of self.old }
        ensures looks { LooksOn S.Store H.Shelf self.old self.new result }
        ensures closes { ClosesOnFault self.old self.new result }
    {
        self.check_open()?;
        match self.media.registry.reply_of(key) {
            Ok(Some((number, words, reply))) => {
                Ok(Some(Kept {
                    number,
                    words,
                    reply,
                }))
            }
            Ok(None) => Ok(None),
            Err(fault) => Err(self.close_on(BenchFault::of_store(fault))),
        }
    }

    /// How many commands were accepted so far. `Closed` after an earlier fault; any other fault
    /// closes the bench.
    pub fn accepted(&mut self) -> Result<u64, BenchFault>
        ensures shows { DiskKept S.Store (registry_of self.new)
            → IfOk result (λ n. (t : Tables) → HasTables S.Store (registry_of self.old) t
            → n ≡ count_of t) }
        ensures unreadable { DiskKept S.Store (registry_of self.new)
            → IsErrOf result BenchFault.Unreadable → (t : Tables)
            → HasTables S.Store (registry_of self.old) t → count_of t ≤ 100000 → ⊥ }
        ensures store { TellsStore S.Store (registry_of self.old) (registry_of self.new) result }
        ensures shelf { shelf_of self.new ≡ shelf_of self.old }
        ensures looks { LooksOn S.Store H.Shelf self.old self.new result }
        ensures closes { ClosesOnFault self.old self.new result }
    {
        self.check_open()?;
        match self.media.accepted() {
            Ok(count) => Ok(count),
            Err(fault) => Err(self.close_on(fault)),
        }
    }
}
