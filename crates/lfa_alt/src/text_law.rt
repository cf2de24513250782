//! That a router has one text.

ghost use Rattle.std.specs.Prelude.{◌≡◌, ◌<◌, ℕ, List, length};
ghost use Rattle.area_graph.specs.{AreaInvariant.IsArea, Parts.AreaParts};
ghost use Rattle.mrt_graph.specs.GraphInvariant.{IsNetwork};
ghost use Rattle.lfa_alt.specs.LfaText.{IsLfaText};

/// Laws: a router has exactly one text on its loop-free alternates.
pub fn one_text_each()
    ensures some { (area : AreaParts) (s : ℕ) → IsArea area → s < length area.ids
        → ¬ IsNetwork area.ids s → (text : List ℕ) × IsLfaText area s text }
    ensures one { (area : AreaParts) (s : ℕ) (text other : List ℕ) → IsLfaText area s text
        → IsLfaText area s other → text ≡ other }
{}
