//! Which rows decide the texts of runs. The laws hold of the definitions alone; the function does nothing.

ghost use Rattle.std.specs.Prelude.{ℕ, Contains, List};
ghost use Rattle.fabric.specs.{FabricParts.FabricParts, Served.AgreeFor, Served.with_rows};
ghost use Rattle.fabric.specs.{Destinations.AgreeForEvent, NamedEvents.spot_of, RunTexts.IsScriptText, RunTexts.IsTraceText};
ghost use Rattle.fabric_script.specs.{declared.event.ScriptEvent.ScriptEvent, declared.script.Script.Script, declared.trace.Trace.Trace};
ghost use Rattle.mrt_graph.specs.Rows.{Rows};

use crate::rows_law::rows_for_destinations_decide;

/// Laws: where other rows agree with those of the parts for the destinations of all its packets, a script has the same
/// text by them; and so has a trace.
pub fn texts_by_rows_for_destinations()
    ensures script { (parts : FabricParts) (rows : Rows) (script : Script)
        → ((event : ScriptEvent) → Contains script.events event → AgreeForEvent parts rows event)
        → (text : List ℕ) → IsScriptText parts script text
        → IsScriptText (with_rows parts rows) script text }
    ensures trace { (parts : FabricParts) (rows : Rows) (trace : Trace)
        → AgreeFor parts rows (spot_of parts.area trace.to)
        → (text : List ℕ) → IsTraceText parts trace text
        → IsTraceText (with_rows parts rows) trace text }
{
    rows_for_destinations_decide();
}
