//! Laws over the texts of scripts, and over databases that are compared. They hold of the definitions alone; the
//! functions do nothing.

ghost use Rattle.std.specs.Prelude.{◌≡◌, ◌++◌, ◌∷◌, ℕ, List};
ghost use Rattle.ospf_lsa.specs.declared.lsa.Lsa.{Lsa};
ghost use Rattle.area_graph.specs.AreaOf.{area_of};
ghost use Rattle.flood.specs.{FloodState.FloodState, Runs.AreNewestOfTheSame, Runs.after_deliveries};
ghost use Rattle.flood.specs.{declared.script.FloodLine.FloodLine, declared.verdict.Verdict.Verdict};
ghost use Rattle.flood.specs.declared.script.FloodLine.TheVariants as lines;
ghost use Rattle.flood.specs.FloodTexts.{IsCompared, IsFloodText, SaysOnce, deliveries_of, verdict_line};

use crate::comparing::Compare;

/// A law: the line of a comparison tells of the databases as they are after the deliveries of the lines before it.
pub fn a_comparison_tells_of_the_deliveries_before_it<C: Compare>(_comparing: &C)
    ensures { (first : FloodState) (before after : List FloodLine) (one other router : ℕ) (text : List ℕ)
        → IsFloodText (C.says _comparing.now) first (before ++ lines.Same one other router ∷ after) text
        → (front : List ℕ) × (rest : List ℕ) × (verdict : Verdict)
        × IsFloodText (C.says _comparing.now) first before front
        × IsCompared (C.says _comparing.now) (after_deliveries first (deliveries_of before)) one other router verdict
        × (text ≡ front ++ (verdict_line verdict ++ rest)) }
{}

/// A law: where there is one verdict at most of two databases and a router, the lines of a script have one text at most.
pub fn one_text_each<C: Compare>()
    ensures { (comparing : C) → SaysOnce (C.says comparing)
        → (state : FloodState) (lines : List FloodLine) (text other : List ℕ)
        → IsFloodText (C.says comparing) state lines text → IsFloodText (C.says comparing) state lines other
        → text ≡ other }
{}

/// A law: the first newest instances of two settled lists that hold the same LSAs, which may stand in a database, give one
/// area. With those of `run_law.rt` this speaks of databases after deliveries.
pub fn newest_of_the_same_give_one_area()
    ensures { (its others : List Lsa) → AreNewestOfTheSame its others → area_of its ≡ area_of others }
{}
