//! What holds of the texts of runs. The law holds of the definitions alone; the function does nothing.

ghost use Rattle.std.specs.Prelude.{◌≡◌, ℕ, List};
ghost use Rattle.fabric.specs.FabricParts.{ArePartsKept, AreRowsFor, FabricParts};
ghost use Rattle.fabric_script.specs.{declared.script.Script.Script, declared.trace.Trace.Trace};
ghost use Rattle.fabric.specs.RunTexts.{IsScriptText, IsTraceText};

use crate::packet_law::packets_end;
use crate::step_law::one_answer_each;

/// Laws: a script has one text at most, and so has a trace; where there are rows for all destinations, each has one.
pub fn one_text_each()
    ensures some_script { (parts : FabricParts) → ArePartsKept parts → ((t : ℕ) → AreRowsFor parts t)
        → (script : Script) → (text : List ℕ) × IsScriptText parts script text }
    ensures some_trace { (parts : FabricParts) → ArePartsKept parts → ((t : ℕ) → AreRowsFor parts t)
        → (trace : Trace) → (text : List ℕ) × IsTraceText parts trace text }
    ensures script { (parts : FabricParts) → ArePartsKept parts → (script : Script) (text other : List ℕ)
        → IsScriptText parts script text → IsScriptText parts script other → text ≡ other }
    ensures trace { (parts : FabricParts) → ArePartsKept parts → (trace : Trace) (text other : List ℕ)
        → IsTraceText parts trace text → IsTraceText parts trace other → text ≡ other }
{
    one_answer_each();
    packets_end();
}
