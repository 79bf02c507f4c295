//! What holds of all records and worlds: laws, each the contract of a function that does nothing.

ghost use Rattle.std.specs.Prelude.{◌≡◌, ℕ, Bool};
ghost use Rattle.gm_metadata.specs.Images.{Image, SameThere};
ghost use Rattle.gm_state.specs.declared.intents.Reply.{Reply};
ghost use Rattle.gm_state.specs.declared.records.Component.{Component};
ghost use Rattle.gm_state.specs.declared.records.Disk.TheVariants.{InSync, Copying};
ghost use Rattle.gm_state.specs.declared.records.Mirror.{Mirror};
ghost use Rattle.gm_state.specs.Intents.{IsOf};
ghost use Rattle.gm_state.specs.Rows.{mirror_row, component_row, answer_row, copied_of, total_of};
ghost use Rattle.gm_state.specs.World.{Answered, AnswerFits, ReplyFits, World, Sound, Whole, Below, Claims};

/// A row says its record: no two records have one row.
pub fn one_row()
    ensures mirror { (a b : Mirror) → mirror_row a ≡ mirror_row b → a ≡ b }
    ensures component { (a b : Component) → component_row a ≡ component_row b → a ≡ b }
    ensures answer { (a b : Answered) → AnswerFits a → AnswerFits b
        → answer_row a ≡ answer_row b → a ≡ b }
{}

/// The two numbers that a row keeps of a reply say the reply that was written.
pub fn one_reply()
    ensures { (a b : Reply) → ReplyFits a → ReplyFits b
        → copied_of a ≡ copied_of b → total_of a ≡ total_of b → a ≡ b }
{}

/// In a sound world no component claims a sector that it lacks, in any image that is the world's on
/// its providers.
pub fn sound_claims()
    ensures { (w : World) (x : Image) → Sound w → SameThere w.size x w.shelf
        → Claims w w x }
{}

/// What soundness says of data: an ACTIVE component has all of its mirror's, and one that is being
/// copied to has those below its offset.
pub fn sound_data()
    ensures active { (w : World) (m : Mirror) (k : Component) → Sound w → IsOf w.state m k
        → k.disk ≡ InSync → Whole w m k.provider }
    ensures copying { (w : World) (m : Mirror) (k : Component) (forced : Bool) (held : ℕ)
        → Sound w → IsOf w.state m k → k.disk ≡ Copying forced held
        → Below w.shelf (w.holds m.name) k.provider held }
{}
