//! What a check finds of a registry and of the images beside it, and whether all is well then.

ghost use Rattle.std.specs.Prelude.{◌≡◌, [], IfOk, None, false, map, true};
ghost use Rattle.std.specs.List.{list_all};
ghost use Rattle.gm_shelf.specs.Keeping.{Looks};
ghost use Rattle.gm_looks.specs.Scrubs.{IsScrub};
ghost use Rattle.gm_looks.specs.Unlikes.{IsUnlike, is_meant};
ghost use Rattle.gm_looks.specs.declared.unlike.Meant.TheVariants.{All};
ghost use Rattle.gm_unlike.specs.Checkups.{has_its_images, is_complete_in, is_well, renewal_of, renewal_word};
ghost use Rattle.gm_unlike.specs.Claims.{AreClaims};
ghost use Rattle.gm_unlike.specs.Unequals.{AreUnequal, scrubbed};

use crate::claims::{Claim, claims_shelf};
use crate::unequal::{Unequal, unequal_shelf};
use gm_apply::Watch;
use gm_looks::{Meant, Unlike, scrub_shelf, unlike_shelf};
use gm_shelf::{Shelf, ShelfFault};
use gm_state::{Mirror, MirrorState, State, mirror_state};
use std::alloc::Global;

// From how many commands on a new registry is due, and from how many on it is urgent: a registry
// takes 100,000.
const RENEW_SOON: u64 = 80_000;

const RENEW_NOW: u64 = 95_000;

/// Whether a new registry is due, because this one has accepted most of the commands that it takes.
#[derive(Clone, Copy, Debug, PartialEq, Eq)]
pub enum Renewal {
    NotYet,
    Soon,
    Now,
}

impl Renewal {
    // That of a registry which has accepted so many commands.
    fn of(commands: u64) -> Renewal
        ensures { result ≡ renewal_of commands }
    {
        if commands < RENEW_SOON {
            Renewal::NotYet
        } else if commands < RENEW_NOW {
            Renewal::Soon
        } else {
            Renewal::Now
        }
    }

    /// When it is due, in a word for programs.
    pub fn word(self) -> &'static str
        ensures { result.now ≡ renewal_word self }
    {
        match self {
            Renewal::NotYet => "not yet",
            Renewal::Soon => "soon",
            Renewal::Now => "now",
        }
    }
}

/// What is amiss of images.
#[derive(Drop)]
pub struct Amiss {
    /// The components whose images aren't as they are registered.
    pub unlike: Vec<Unlike>,
    /// The ACTIVE components whose data aren't their mirror's; none if no data were compared.
    pub flaws: Vec<Unequal>,
    /// The images that carry a registered mirror's metadata, and are no components of it.
    pub claims: Vec<Claim>,
}

/// What a check finds.
#[derive(Clone, Copy)]
pub struct Checkup<'a> {
    pub state: &'a State,
    pub unlike: &'a [Unlike],
    pub flaws: &'a [Unequal],
    pub claims: &'a [Claim],
    /// How many writes are pending.
    pub pending: usize,
    /// How many commands were accepted.
    pub commands: u64,
    /// How long the registry's file is, in bytes.
    pub bytes: u64,
}

// Whether as many components of a mirror are ACTIVE as it has in all.
fn is_complete_in(state: &State, mirror: &Mirror) -> bool
    ensures { result ≡ is_complete_in state.now mirror.now }
{
    matches!(mirror_state(state, mirror), MirrorState::Complete)
}

// Whether that is so of each of these mirrors.
fn are_complete_in(state: &State, mirrors: &[Mirror]) -> bool
    ensures { result ≡ list_all (is_complete_in state.now) mirrors.now }
{
    mirrors.iter().all(|mirror| is_complete_in(state, mirror))
}

impl Checkup<'_> {
    /// Whether a new registry is due.
    pub fn renewal(&self) -> Renewal
        ensures { result ≡ renewal_of self.now.commands }
    {
        Renewal::of(self.commands)
    }

    // Whether each image that claims to be a component was given up.
    fn are_given_up(&self) -> bool
        ensures { result ≡ list_all (λ c. c.is_given_up) self.now.claims.now }
    {
        self.claims.iter().all(|claim| claim.is_given_up)
    }

    // Whether nothing is amiss of the images.
    fn has_its_images(&self) -> bool
        ensures { result ≡ has_its_images self.now }
    {
        self.unlike.is_empty() && self.flaws.is_empty() && self.are_given_up()
    }

    /// Whether there is a mirror, each is COMPLETE, nothing is pending or amiss, no image claims to
    /// be a component that it isn't, unless it was given up, and a new registry isn't urgent.
    pub fn is_well(&self) -> bool
        ensures { result ≡ is_well self.now }
    {
        self.pending == 0
            && self.has_its_images()
            && self.commands < RENEW_NOW
            && !self.state.mirrors().is_empty()
            && are_complete_in(self.state, self.state.mirrors())
    }
}

// The components whose data aren't their mirror's, if that is asked for.
fn flaws_of<H: Shelf, W: Watch>(
    alloc: Global,
    shelf: &mut H,
    state: &State,
    compares: bool,
    watch: &mut W,
) -> Result<Vec<Unequal>, ShelfFault>
    ensures scrub { H.honest shelf.old → compares ≡ true → IfOk result (λ flaws.
        IsScrub state.now (H.size shelf.old) (H.view shelf.old).seen None
        (map scrubbed flaws.items)) }
    ensures beside { H.honest shelf.old → compares ≡ true → IfOk result (λ flaws.
        AreUnequal state.now (H.view shelf.old).seen flaws.items) }
    ensures unasked { compares ≡ false → IfOk result (λ flaws. flaws.items ≡ []) }
    ensures looks { Looks H.Shelf shelf.old shelf.new result }
{
    if !compares {
        return Ok(Vec::new(alloc));
    }
    let found = scrub_shelf(alloc, shelf, state, &None, watch)?;
    unequal_shelf(alloc, shelf, state, &found, watch)
}

/// Holds the images against the records, those of the folder that are none of its components too,
/// and if that is asked for the data of the components against each other; of these the watch is
/// told how far it is. `Device` if a sector can't be
/// read, or `Memory`.
pub fn amiss_shelf<H: Shelf, W: Watch>(
    alloc: Global,
    shelf: &mut H,
    state: &State,
    compares: bool,
    watch: &mut W,
) -> Result<Amiss, ShelfFault>
    ensures unlike { H.honest shelf.old → IfOk result (λ amiss.
        IsUnlike (is_meant All) state.now (H.size shelf.old) (H.view shelf.old).seen
        amiss.unlike.items) }
    ensures scrub { H.honest shelf.old → compares ≡ true → IfOk result (λ amiss.
        IsScrub state.now (H.size shelf.old) (H.view shelf.old).seen None
        (map scrubbed amiss.flaws.items)) }
    ensures beside { H.honest shelf.old → compares ≡ true → IfOk result (λ amiss.
        AreUnequal state.now (H.view shelf.old).seen amiss.flaws.items) }
    ensures claims { H.honest shelf.old → IfOk result (λ amiss.
        AreClaims state.now (H.size shelf.old) (H.view shelf.old).seen amiss.claims.items) }
    ensures unasked { compares ≡ false → IfOk result (λ amiss. amiss.flaws.items ≡ []) }
    ensures looks { Looks H.Shelf shelf.old shelf.new result }
{
    let unlike = unlike_shelf(alloc, shelf, state, Meant::All)?;
    let claims = claims_shelf(alloc, shelf, state)?;
    let flaws = flaws_of(alloc, shelf, state, compares, watch)?;
    Ok(Amiss {
        unlike,
        flaws,
        claims,
    })
}
