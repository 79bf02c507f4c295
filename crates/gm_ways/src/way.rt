//! In which order an image takes another one's place.

ghost use Rattle.std.specs.Prelude.{◌≡◌, ◌≢◌, ◌==◌, ◌&&◌, not, true};
ghost use Rattle.std.specs.List.{list_any};
ghost use Rattle.gm_metadata.specs.Images.{same_label};
ghost use Rattle.gm_state.specs.Lookups.{is_active};
ghost use Rattle.gm_state.specs.Records.{members};
ghost use Rattle.gm_ways.specs.Ways.{another_stays, first_command, gives_up_first, is_given_up, is_member, must_make_room, removes_filled, steps_of, way_by};

use crate::step::{Act, Exchange, Step};
use gm_metadata::Label;
use gm_state::{Component, ComponentState, MAX_COMPONENTS, State, component_state};

/// What is seen of the image that is taken out.
#[derive(Clone, Copy, Debug, PartialEq, Eq)]
pub enum OldImage {
    /// It is there, and its last sector says something.
    There,
    /// It is there, but in another size than is registered, or its last sector says nothing.
    Ruined,
    /// It isn't there.
    Gone,
}

/// In which order an image takes another one's place. The new one is always filled before the old
/// one is removed, but if that can't be.
#[derive(Clone, Copy, Debug, PartialEq, Eq)]
pub enum Way {
    /// The new one is inserted and filled, and the old one is removed.
    InsertFirst,
    /// The old one's image is gone or ruined: it is given up and forgotten, and the new one is
    /// inserted and filled.
    LostFirst,
    /// The mirror has no room for both: the old one is removed, and the new one is inserted and
    /// filled.
    RemoveFirst,
    /// The new one is in the mirror already: it is filled, and the old one is removed.
    Inserted,
    /// The new one is ACTIVE in the mirror already, so that the mirror gets a copy less: the old
    /// one is removed if that is wanted.
    Filled,
    /// The old one isn't in the mirror any more: the new one is filled.
    OnlyFill,
}

impl Way {
    /// Its steps, in their order.
    pub fn steps(self) -> &'static [Step]
        ensures { result.now ≡ steps_of self }
    {
        match self {
            Way::InsertFirst => &[
                Step::HandIn {
                    act: Act::Insert,
                    number: 1,
                },
                Step::Fill,
                Step::HandIn {
                    act: Act::Remove,
                    number: 2,
                },
            ],
            Way::LostFirst => &[
                Step::HandIn {
                    act: Act::Lost,
                    number: 1,
                },
                Step::HandIn {
                    act: Act::Forget,
                    number: 2,
                },
                Step::HandIn {
                    act: Act::Insert,
                    number: 3,
                },
                Step::Fill,
            ],
            Way::RemoveFirst => &[
                Step::HandIn {
                    act: Act::Remove,
                    number: 1,
                },
                Step::HandIn {
                    act: Act::Insert,
                    number: 2,
                },
                Step::Fill,
            ],
            Way::Inserted | Way::Filled => &[
                Step::Fill,
                Step::HandIn {
                    act: Act::Remove,
                    number: 2,
                },
            ],
            Way::OnlyFill => &[Step::Fill],
        }
    }
}

/// The old image is removed only after the new one was filled, unless the mirror is full.
pub fn removes_only_what_is_filled()
    ensures { (way : Way) → way ≢ Way.RemoveFirst → removes_filled (steps_of way) ≡ true }
{}

/// Whether the first of the steps gives the old image up, before the new one is filled.
pub fn gives_up_first(steps: &[Step]) -> bool
    ensures { result ≡ gives_up_first steps.now }
{
    match steps.first() {
        Some(
            Step::HandIn {
                act,
                number: _number,
            },
        ) => matches!(act, Act::Remove | Act::Lost),
        _ => false,
    }
}

/// The first command of the steps, with the number of its key.
pub fn first_command(steps: &[Step]) -> Option<(Act, usize)>
    ensures { result ≡ first_command steps.now }
{
    for step in steps {
        if let Step::HandIn { act, number } = *step {
            return Some((act, number));
        }
    }
    None
}

/// The way that was begun by a command, by its words as they are kept.
pub fn way_begun(words: &str) -> Way {
    match words.split(' ').next() {
        Some("lost") => Way::LostFirst,
        Some("remove") => Way::RemoveFirst,
        _ => Way::InsertFirst,
    }
}

/// Whether the image is a component of the mirror.
pub fn is_member(state: &State, mirror: Label, image: Label) -> bool
    ensures { result ≡ is_member state.now mirror image }
{
    match state.component(image) {
        Some(component) => component.mirror == mirror,
        None => false,
    }
}

// Whether one of them is ACTIVE in the mirror, and is another image than this one.
fn another_stays(components: &[Component], mirror: Label, old: Label) -> bool
    ensures { result ≡ another_stays components.now mirror old }
{
    components.iter().any(|k| k.mirror == mirror && k.provider != old && k.disk.is_active())
}

// Whether a mirror has as many components as one may have, and one is ACTIVE beside this one.
fn must_make_room(state: &State, mirror: Label, old: Label) -> bool
    ensures { result ≡ must_make_room state.now mirror old }
{
    match state.mirror(mirror) {
        Some(found) => {
            found.all == MAX_COMPONENTS && another_stays(state.components(), mirror, old)
        }
        None => false,
    }
}

// Whether the old one is given up: its image is gone, or it is ruined and another one is ACTIVE.
fn is_given_up(state: &State, exchange: &Exchange, image: OldImage) -> bool
    ensures { result ≡ is_given_up state.now exchange.now image }
{
    match image {
        OldImage::There => false,
        OldImage::Ruined => another_stays(state.components(), exchange.mirror, exchange.old),
        OldImage::Gone => true,
    }
}

/// The way that is to be gone, by the records, and by what is seen of the old one's image; `None`
/// if neither the old one nor the new one is in the mirror.
pub fn way_by(state: &State, exchange: &Exchange, image: OldImage) -> Option<Way>
    ensures { result ≡ way_by state.now exchange.now image }
{
    let Exchange { mirror, old, new } = *exchange;
    let has_old = is_member(state, mirror, old);
    let has_new = is_member(state, mirror, new);
    match (has_old, has_new) {
        (false, false) => None,
        (false, true) => Some(Way::OnlyFill),
        (true, true) => match component_state(state, new) {
            Some(ComponentState::Active) => Some(Way::Filled),
            _ => Some(Way::Inserted),
        },
        (true, false) if is_given_up(state, exchange, image) => Some(Way::LostFirst),
        (true, false) if must_make_room(state, mirror, old) => Some(Way::RemoveFirst),
        (true, false) => Some(Way::InsertFirst),
    }
}
