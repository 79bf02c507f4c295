//! The sentences.

use gm_refusals::{CallRefusal, Refusal};
use gm_shelf::Cause;

// Why the rules refuse a command.
fn refusal_sentence(why: Refusal) -> &'static str {
    match why {
        Refusal::NoMirror => "no mirror is named MIRROR",
        Refusal::NameTaken => "a mirror is named MIRROR already",
        Refusal::MidTaken => "another mirror has the same mid",
        Refusal::Absent => "IMAGE isn't on the shelf",
        Refusal::ProviderTaken => "IMAGE is a component of a mirror already",
        Refusal::CarriesMetadata =>
            "IMAGE carries metadata: see dump; adopt it or, if nobody needs it, clear it",
        Refusal::TooSmall =>
            "IMAGE is too small: it needs a sector more than the Mediasize of MIRROR, see list",
        Refusal::NotMember => "IMAGE isn't a component of MIRROR, or is named twice",
        Refusal::DidTaken => "a component of MIRROR has the same did",
        Refusal::Full => "MIRROR counts 16 components, and takes no more",
        Refusal::TooManyMirrors => "64 mirrors are registered, and no more can be",
        Refusal::SomeLost => "MIRROR counts components that were lost; forget gives them up",
        Refusal::LastActive => "no ACTIVE component of MIRROR would be left",
        Refusal::AlreadyInactive => "IMAGE is INACTIVE already",
        Refusal::NotInactive => "IMAGE isn't INACTIVE",
        Refusal::NoneLost => "MIRROR counts no component that was lost",
        Refusal::Inactive => "IMAGE is INACTIVE; activate takes it back",
        Refusal::NotSynchronizing => "IMAGE isn't SYNCHRONIZING",
        Refusal::LastSyncid => "the syncid of MIRROR is the greatest there is",
        Refusal::LastGenid => "the genid of MIRROR is the greatest there is",
        Refusal::NothingGiven => "configure is given nothing to change",
        Refusal::NotAdoptable =>
            "these images don't tell of one mirror MIRROR; taste says what they tell",
        Refusal::WrongSize => "IMAGE has fewer than 2 or more than 1,048,576 sectors",
        Refusal::NoMetadata => "IMAGE carries no metadata",
        Refusal::BeingFilled =>
            "a component of MIRROR is SYNCHRONIZING: sync it; or STALE: rebuild it, then sync it",
        Refusal::BeyondEnd => "the data of MIRROR end before the last of these sectors",
    }
}

/// Why a call is refused.
pub fn call_sentence(why: CallRefusal) -> &'static str {
    match why {
        CallRefusal::NoKey => "a key is 1 to 32 of A-Z, a-z, 0-9, '.', '_' and '-'",
        CallRefusal::KeyTaken => "the key was accepted for another command",
        CallRefusal::NoRoom =>
            "100,000 commands were accepted, and no more can be: renew the registry",
        CallRefusal::ByRules(refusal) => refusal_sentence(refusal),
    }
}

/// Why an image failed.
pub fn cause_sentence(cause: Cause) -> &'static str {
    match cause {
        Cause::Replaced => "IMAGE was replaced since the folder was read",
        Cause::Gone => "IMAGE went away since the folder was read",
        Cause::Forbidden => "IMAGE may not be read or written by this user",
        Cause::ReadOnly => "IMAGE is on a medium that can't be written",
        Cause::Full => "IMAGE is on a medium that is full",
        Cause::TooLong => "IMAGE is longer than the system lets this process write a file",
        Cause::Device => "IMAGE can't be read or written",
    }
}
