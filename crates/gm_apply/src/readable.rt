//! What holds of readable intents: laws, each the contract of a function that does nothing.

ghost use Rattle.std.specs.Prelude.{ℕ, List};
ghost use Rattle.gm_metadata.specs.Images.{Image, Sizes};
ghost use Rattle.gm_state.specs.declared.intents.Intent.{Intent};
ghost use Rattle.gm_state.specs.Intents.{LeaveNoDirt};
ghost use Rattle.gm_state.specs.Readable.{AreReadable};
ghost use Rattle.gm_state.specs.World.{World, CopiesData, Sound};
ghost use Rattle.gm_apply.specs.Pending.{AreSafe, HoldsSaid, IsNaming, LeadTo, MayPend, Pending, SaysAs};

/// Intents that are readable for a state put data before claims and dirt before patches, leave no
/// dirt in the end, and no copy lends what another intent writes, if the components that they
/// read or write are there with their registered sizes. What they copy to a component is its
/// mirror's data.
pub fn readable_intents_are_safe()
    ensures safe { (t : Pending) → MayPend t → AreSafe t }
    ensures clean { (t : Pending) → AreReadable t.state t.bytes t.intents → LeaveNoDirt t.intents }
    ensures data { (w : World) (bytes : List (List ℕ)) (size : Sizes) (ts : List Intent)
        → Sound w → HoldsSaid w bytes size ts → CopiesData w w ts }
{}

/// If two readable intents name one sector, they say the same of it: so their order doesn't matter.
pub fn one_sector_one_value()
    ensures { (t : Pending) (r o : Intent) (q : List ℕ) (j : ℕ) → MayPend t
        → IsNaming t q j r → IsNaming t q j o → SaysAs t j r o }
{}

/// Readable intents lead somewhere from each image, if what they read or write is there.
pub fn readable_intents_lead_somewhere()
    ensures { (t : Pending) (x : Image) → MayPend t → (w : Image) × LeadTo t x w }
{}
