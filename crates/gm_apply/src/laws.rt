//! What follows of the images that are left on the way: laws, each the contract of a function that
//! does nothing.

ghost use Rattle.std.specs.Prelude.{List};
ghost use Rattle.gm_metadata.specs.Images.{Image};
ghost use Rattle.gm_state.specs.declared.intents.Intent.{Intent};
ghost use Rattle.gm_state.specs.World.{World, Claims, NewClaims};
ghost use Rattle.gm_apply.specs.Pending.{EachLeadsOn, LeadTo, Pending, StaysTrue};

/// The intents lead every image that they leave on the way to where they led before.
pub fn every_image_leads_on()
    ensures { (t : Pending) (d w : Image) → LeadTo t d w → EachLeadsOn t d w }
{}

/// A claim that was true stays true on the way, since data come before claims, and dirt before
/// patches: of the components of before, and of those that are new where the intents lead.
pub fn true_claims_stay_true()
    ensures old { (u w : World) (ts : List Intent) → StaysTrue u w ts (Claims u w) }
    ensures new { (u w : World) (ts : List Intent) → StaysTrue w w ts (NewClaims u w) }
{}
