//! That there is one survey.

ghost use Rattle.std.specs.Prelude.{◌≡◌, ℕ, List};
ghost use Rattle.mrt_graph.specs.{AcceptedFor.IsAcceptedAt, Certificate.Certificate, Topology.Topology};
ghost use Rattle.mrt_survey.specs.SurveyText.{IsSurveyText};

/// Laws: a graph and a certificate that is accepted for it have exactly one survey, for one root and one number.
pub fn one_survey_each()
    ensures some { (number : ℕ) (g : Topology) (root : ℕ) (c : Certificate) → IsAcceptedAt g root c
        → (text : List ℕ) × IsSurveyText number g root c text }
    ensures one { (number : ℕ) (g : Topology) (root : ℕ) (c : Certificate) (text other : List ℕ)
        → IsSurveyText number g root c text → IsSurveyText number g root c other
        → text ≡ other }
{}
