//! What holds of all sectors and metadata: laws, each the contract of a function that does nothing.

ghost use Rattle.std.specs.Prelude.{◌≡◌, ℕ, List, length};
ghost use Rattle.gm_metadata.specs.declared.metadata.Metadata.{Metadata};
ghost use Rattle.gm_metadata.specs.declared.version.Version.{Version};
ghost use Rattle.gm_metadata.specs.Sector.{IsMetadata, Spells, BearsIn, Full};
ghost use Rattle.gm_metadata.specs.Versions.{CanSay};
ghost use Rattle.gm_metadata.specs.Reading.{spelling, encoded};

/// No two metadata have one spelling, in whichever versions; and metadata have one spelling in each
/// version that can say them.
pub fn one_spelling()
    ensures one_meaning { (m n : Metadata) (v w : Version) (b : List ℕ) → IsMetadata m
        → IsMetadata n → Spells m v b → Spells n w b → (m ≡ n) × (v ≡ w) }
    ensures one_sector { (x : List ℕ) (m n : Metadata) (v w : Version) → length x ≡ 512
        → IsMetadata m → IsMetadata n → BearsIn v x m → BearsIn w x n → (m ≡ n) × (v ≡ w) }
    ensures one_form { (v : Version) (m : Metadata) (b : List ℕ) → Spells m v b
        → b ≡ spelling v m }
    ensures spelled { (v : Version) (m : Metadata) → IsMetadata m → CanSay v m
        → Spells m v (spelling v m) }
{}

/// Just one sector is full with a metadata.
pub fn one_sector()
    ensures is_full { (m : Metadata) → IsMetadata m → Full (encoded m) m }
    ensures no_other { (m : Metadata) (x : List ℕ) → Full x m → x ≡ encoded m }
    ensures length_is { (m : Metadata) → IsMetadata m → length (encoded m) ≡ 512 }
{}
