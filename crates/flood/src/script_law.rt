//! What holds of the lines of each file. The law holds of the definitions alone; the function does nothing.

ghost use Rattle.std.specs.Prelude.{◌≡◌, ◌⊎◌, ℕ, List};
ghost use Rattle.flood.specs.{declared.script.FloodScript.FloodScript, FloodScripts.IsFirstFloodFault, FloodScripts.IsScript};

/// Laws: lines are a script of deliveries or have a first fault, never both, and each in one way.
pub fn lines_are_a_flood_script_or_have_a_fault()
    ensures either { (lines : List (List ℕ))
        → ((script : FloodScript) × IsScript lines script) ⊎ ((number : ℕ) × IsFirstFloodFault lines number) }
    ensures never_both { (lines : List (List ℕ)) (script : FloodScript) (number : ℕ) → IsScript lines script
        → IsFirstFloodFault lines number → ⊥ }
    ensures one_script { (lines : List (List ℕ)) (script other : FloodScript) → IsScript lines script
        → IsScript lines other → script ≡ other }
    ensures one_fault { (lines : List (List ℕ)) (number other : ℕ) → IsFirstFloodFault lines number
        → IsFirstFloodFault lines other → number ≡ other }
{}
