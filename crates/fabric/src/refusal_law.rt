//! What happens where the area does not have what an event names. The law holds of the definitions alone; the function
//! does nothing.

ghost use Rattle.std.specs.Prelude.{◌≡◌, ◌↔◌, Err};
ghost use Rattle.fabric.specs.declared.event.Refused.TheVariants as refusals;
ghost use Rattle.fabric.specs.{FabricParts.FabricParts, FabricState.Answer, FabricState.FabricState, Runs.FabricStep};
ghost use Rattle.fabric_script.specs.declared.event.ScriptEvent.{ScriptEvent};
ghost use Rattle.fabric.specs.NamedEvents.{AreThere, event_of};

/// A law: an event that names a router, a network or a link that the area does not have is refused, as no such place, and
/// changes nothing.
pub fn what_is_not_there_is_refused()
    ensures { (parts : FabricParts) (old new : FabricState) (event : ScriptEvent) (answer : Answer)
        → ¬ AreThere parts.area event
        → FabricStep parts old (event_of parts.area event) answer new
        ↔ ((answer ≡ Err refusals.NoSuchPlace) × (new ≡ old)) }
{}
