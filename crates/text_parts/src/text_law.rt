//! What holds of the lines of each text. The law holds of the definitions alone; the function does nothing.

ghost use Rattle.std.specs.Prelude.{◌≡◌, ◌⊎◌, ℕ, List};
ghost use Rattle.text_parts.specs.TextRule.{IsFirstFault, IsText};

use crate::reading::TakesLines;

/// Laws: lines are a whole text or have a first fault, never both, and each in one way.
pub fn lines_are_a_text_or_have_a_fault<T: TakesLines>()
    ensures either { (lines : List (List ℕ)) → ((text : T.Text) × IsText T.rule lines text)
        ⊎ ((number : ℕ) × (fault : T.Fault) × IsFirstFault T.rule lines number fault) }
    ensures never_both { (lines : List (List ℕ)) (text : T.Text) (number : ℕ) (fault : T.Fault)
        → IsText T.rule lines text → IsFirstFault T.rule lines number fault → ⊥ }
    ensures one_text { (lines : List (List ℕ)) (text other : T.Text) → IsText T.rule lines text
        → IsText T.rule lines other → text ≡ other }
    ensures one_fault { (lines : List (List ℕ)) (number place : ℕ) (fault other : T.Fault)
        → IsFirstFault T.rule lines number fault → IsFirstFault T.rule lines place other
        → (number ≡ place) × (fault ≡ other) }
{}
