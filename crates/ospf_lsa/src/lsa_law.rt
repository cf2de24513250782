//! Bytes and LSAs. It holds of the definitions alone; the function does nothing.

ghost use Rattle.std.specs.Prelude.{◌≡◌, ◌⊎◌, ℕ, List};
ghost use Rattle.std.specs.List.{AllByRecursion};
ghost use Rattle.ospf_lsa.specs.{declared.error.LsaKind.LsaKind, declared.lsa.Lsa.Lsa, LsaText.lsas_text, Lsas.AreLsas, Lsas.IsByte};
ghost use Rattle.ospf_lsa.specs.Outcome.{IsFirstLsaFault};

/// Any bytes are LSAs without a fault, one after another, or have a first record with a fault; never both, and each in
/// one way.
pub fn bytes_are_lsas_or_have_a_fault()
    ensures either { (bytes : List ℕ) → AllByRecursion IsByte bytes
        → ((lsas : List Lsa) × AreLsas 0 lsas × (bytes ≡ lsas_text lsas))
        ⊎ ((at : ℕ) × (kind : LsaKind) × IsFirstLsaFault bytes at kind) }
    ensures never_both { (bytes : List ℕ) (lsas : List Lsa) (at : ℕ) (kind : LsaKind)
        → AreLsas 0 lsas → bytes ≡ lsas_text lsas → IsFirstLsaFault bytes at kind → ⊥ }
    ensures one_list { (bytes : List ℕ) (lsas others : List Lsa)
        → AreLsas 0 lsas → bytes ≡ lsas_text lsas
        → AreLsas 0 others → bytes ≡ lsas_text others → lsas ≡ others }
    ensures one_fault { (bytes : List ℕ) (at place : ℕ) (kind other : LsaKind)
        → IsFirstLsaFault bytes at kind → IsFirstLsaFault bytes place other
        → (at ≡ place) × (kind ≡ other) }
{}
