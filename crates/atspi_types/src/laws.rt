//! The laws of types and values: the contract of a function without a body, so that they are proved with the crate.

ghost use Rattle.std.specs.Prelude.{◌≡◌, ◌↔◌, ◌⊎◌, ℕ, List, IsTrue};
ghost use Rattle.atspi_types.specs.Kinds.{Kind, Kinds, IsLawful, is_lawful};
ghost use Rattle.atspi_types.specs.Signatures.{signature_bytes, IsSignature};
ghost use Rattle.atspi_types.specs.SignatureFaults.{WrongSignature, IsFirstSignatureFault};
ghost use Rattle.atspi_types.specs.Data.{Data, Items, IsWellTyped, AreWellTyped};
ghost use Rattle.atspi_types.specs.WellTyped.{same_kind, is_well_typed, are_well_typed};

/// What computes whether a type is lawful, whether two are the same, and whether values are well typed, says what the
/// definitions say.
pub fn tests_decide()
    ensures lawful { (k : Kind) → (IsTrue (is_lawful k) ↔ IsLawful k) }
    ensures same { (k : Kind) → (l : Kind) → (IsTrue (same_kind k l) ↔ (k ≡ l)) }
    ensures typed { (d : Data) → (IsTrue (is_well_typed d) ↔ IsWellTyped d) }
    ensures all_typed { (ds : Items) → (IsTrue (are_well_typed ds) ↔ AreWellTyped ds) }
{}

/// Bytes are a signature, or have a first fault, and never both.
pub fn signature_or_fault()
    ensures either { (bytes : List ℕ)
        → (((ks : Kinds) × IsSignature ks × (bytes ≡ signature_bytes ks))
        ⊎ ((place : ℕ) × (reason : ℕ) × IsFirstSignatureFault bytes place reason)) }
    ensures never_both { (ks : Kinds) → (place : ℕ) → (reason : ℕ) → IsSignature ks
        → WrongSignature (signature_bytes ks) place reason → ⊥ }
{}
