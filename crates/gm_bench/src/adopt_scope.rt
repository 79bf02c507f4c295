//! What is to be known of the images that a mirror is adopted from, before it is decided on.

ghost use Rattle.std.specs.Prelude.{◌≡◌, option_map};
ghost use Rattle.gm_bench.specs.AdoptScope.{adopted_from, compared_with};

use gm_commands::Command;
use gm_metadata::Label;
use gm_refusals::data_of;
use gm_taste::Member;

/// The provider that others are compared with, and how many of its first sectors.
#[derive(Clone, Copy)]
pub(crate) struct Compared {
    pub(crate) source: Label,
    pub(crate) limit: u64,
}

/// The providers that the command adopts a mirror from.
pub(crate) fn adopted_from(command: &Command) -> &[Label]
    ensures { result.now ≡ adopted_from command.now }
{
    match command {
        Command::Adopt { providers, .. } => providers.as_slice(),
        _ => &[],
    }
}

/// If there is a source, its data are what others are compared with.
pub(crate) fn compared_with(source: Option<Member>) -> Option<Compared>
    ensures { result ≡ option_map compared_with source }
{
    match source {
        None => None,
        Some(source) => Some(Compared {
            source: source.provider,
            limit: data_of(&source.metadata),
        }),
    }
}
