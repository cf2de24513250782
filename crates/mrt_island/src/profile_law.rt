//! What holds of the lines of each profile file. The law holds of the definitions alone; the function does nothing.

ghost use Rattle.std.specs.Prelude.{◌≡◌, ◌⊎◌, ℕ, List};
ghost use Rattle.mrt_island.specs.{declared.profile_error.ProfileKind.ProfileKind, declared.setting.Setting.Setting};
ghost use Rattle.mrt_island.specs.ProfileFaults.{AreSettings, IsFirstProfileFault};

/// Laws: lines are settings or have a first fault, never both, and each in one way.
pub fn lines_are_settings_or_have_a_fault()
    ensures either { (lines : List (List ℕ)) → ((settings : List Setting) × AreSettings lines settings)
        ⊎ ((number : ℕ) × (kind : ProfileKind) × IsFirstProfileFault lines number kind) }
    ensures never_both { (lines : List (List ℕ)) (settings : List Setting) (number : ℕ) (kind : ProfileKind)
        → AreSettings lines settings → IsFirstProfileFault lines number kind → ⊥ }
    ensures one_list { (lines : List (List ℕ)) (settings others : List Setting) → AreSettings lines settings
        → AreSettings lines others → settings ≡ others }
    ensures one_fault { (lines : List (List ℕ)) (number place : ℕ) (kind other : ProfileKind)
        → IsFirstProfileFault lines number kind → IsFirstProfileFault lines place other → (number ≡ place) × (kind ≡ other) }
{}
