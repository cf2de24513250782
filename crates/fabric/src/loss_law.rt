//! Why packets are lost. The law holds of the definitions alone; the function does nothing.

ghost use Rattle.std.specs.Prelude.{◌≡◌, ℕ, List, Ok, Some, slice_get};
ghost use Rattle.fabric.specs.{Causes.LossCauses, FabricParts.ArePartsKept, FabricParts.FabricParts, Runs.FabricStep, Runs.IsRun};
ghost use Rattle.fabric.specs.{Served.AreRowsOn, declared.event.Event.Event, declared.event.Event.TheVariants.Step, declared.event.Outcome.Outcome};
ghost use Rattle.fabric.specs.declared.packet.Packet.{Packet};
ghost use Rattle.fabric.specs.FabricState.{Answer, FabricState, start};

/// A law: after each run from the start, an answered step of a packet loses it exactly where the cause of the loss
/// stands.
pub fn losses_have_their_causes()
    ensures { (parts : FabricParts) → ArePartsKept parts → (room : ℕ) (events : List Event)
        (answers : List Answer) (end : FabricState) → AreRowsOn parts events
        → IsRun parts (start room) events answers end
        → (p : ℕ) (packet : Packet) → slice_get end.packets p ≡ Some packet
        → (outcome : Outcome) (new : FabricState) → FabricStep parts end (Step p) (Ok outcome) new
        → LossCauses parts end.failure packet outcome }
{}
