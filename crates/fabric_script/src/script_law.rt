//! What holds of the lines of each file. The law holds of the definitions alone; the function does nothing.

ghost use Rattle.std.specs.Prelude.{◌≡◌, ◌⊎◌, ℕ, List};
ghost use Rattle.fabric_script.specs.{declared.script.Script.Script, ScriptFaults.IsFirstScriptFault, ScriptFaults.IsScript};

/// Laws: lines are a script or have a first fault, never both, and each in one way.
pub fn lines_are_a_script_or_have_a_fault()
    ensures either { (lines : List (List ℕ))
        → ((script : Script) × IsScript lines script) ⊎ ((number : ℕ) × IsFirstScriptFault lines number) }
    ensures never_both { (lines : List (List ℕ)) (script : Script) (number : ℕ) → IsScript lines script
        → IsFirstScriptFault lines number → ⊥ }
    ensures one_script { (lines : List (List ℕ)) (script other : Script) → IsScript lines script
        → IsScript lines other → script ≡ other }
    ensures one_fault { (lines : List (List ℕ)) (number other : ℕ) → IsFirstScriptFault lines number
        → IsFirstScriptFault lines other → number ≡ other }
{}
