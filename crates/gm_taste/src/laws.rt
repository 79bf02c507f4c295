//! What holds of all that is told: laws, each the contract of a function that does nothing.

ghost use Rattle.std.specs.Prelude.{◌≡◌, List, Err, map};
ghost use Rattle.gm_metadata.specs.Sector.{carries};
ghost use Rattle.gm_taste.specs.declared.provider.Provider.{Provider};
ghost use Rattle.gm_taste.specs.declared.tasted.Tasted.{Tasted};
ghost use Rattle.gm_taste.specs.declared.tasted.Reason.{Reason};
ghost use Rattle.gm_taste.specs.Tasted.{IsTasted, SameProviders, seen};
ghost use Rattle.gm_taste.specs.Verdicts.{of_metadata, verdict};

/// What is told of providers goes by their set: of the same providers, in whatever order, the same
/// is told.
pub fn one_tasting()
    ensures groups { (ps qs : List Provider) (t u : Tasted) → SameProviders ps qs
        → IsTasted ps t → IsTasted qs u → map seen t.groups.items ≡ map seen u.groups.items }
    ensures left { (ps qs : List Provider) (t u : Tasted) → SameProviders ps qs
        → IsTasted ps t → IsTasted qs u → t.left.items ≡ u.left.items }
{}

/// Of what is left out the reason tells whether its last sector carries metadata.
pub fn reasons_tell()
    ensures { (p : Provider) (why : Reason) → verdict p ≡ Err why
        → of_metadata why ≡ carries p.last }
{}
