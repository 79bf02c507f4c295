//! What is to be compared of an image before its last sector is written again.

ghost use Rattle.std.specs.Prelude.{◌≡◌};
ghost use Rattle.gm_state.specs.Disks.{held_by};
ghost use Rattle.gm_mending.specs.Owed.{owed_of};

use gm_metadata::Label;
use gm_state::{Component, Disk, Mirror, State, source};

/// What is to be compared of a component's image, so that its registered last sector claims no
/// data that it hasn't.
#[derive(Clone, Copy, Debug, PartialEq, Eq)]
pub enum Owed {
    /// Nothing: the component is registered to hold no data of the mirror.
    Nothing,
    /// So many first sectors, with those of this image, its mirror's source.
    With { source: Label, sectors: u32 },
    /// It is registered to hold data, and no other component is ACTIVE with which they could be
    /// compared.
    Alone,
}

// How many of so many data sectors a component holds that is so.
fn held_by(disk: Disk, all: u32) -> u32
    ensures { result ≡ held_by disk all }
{
    match disk {
        Disk::InSync => all,
        Disk::Inactive => 0,
        Disk::Copying { forced: _, held } => held,
    }
}

/// What is to be compared of the image of a component of this mirror.
pub fn owed_of(state: &State, mirror: &Mirror, component: &Component) -> Owed
    ensures { result ≡ owed_of state.now mirror.now component.now }
{
    let sectors = held_by(component.disk, mirror.data_sectors);
    if sectors == 0 {
        return Owed::Nothing;
    }
    match source(state, component.provider) {
        Some(source) => Owed::With { source, sectors },
        None => Owed::Alone,
    }
}
