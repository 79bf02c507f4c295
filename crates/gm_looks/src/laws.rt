//! What holds of an audit that lists none.

ghost use Rattle.std.specs.Prelude.{List, []};
ghost use Rattle.gm_metadata.specs.Images.{Image, Sizes};
ghost use Rattle.gm_state.specs.Records.{IsState, Records};
ghost use Rattle.gm_taste.specs.declared.provider.Provider.{Provider};
ghost use Rattle.gm_taste.specs.declared.tasted.Tasted.{Tasted};
ghost use Rattle.gm_taste.specs.Tasted.{IsTasted};
ghost use Rattle.gm_looks.specs.Agreeing.{Agree, AreRegistered};
ghost use Rattle.gm_looks.specs.Audits.{IsAudit};

use gm_state::metadata_fits;

/// If an audit lists none, the last sectors of the registered components tell by themselves what
/// the registry says: tasted alone, each is a member, and has the state that the records name.
pub fn clean_audit_law()
    ensures { (s : Records) (size : Sizes) (seen : Image) (ps : List Provider) (t : Tasted)
        → IsState s → IsAudit s size seen [] → AreRegistered s size seen ps → IsTasted ps t
        → Agree s t }
{
    metadata_fits();
}
