//! What decides the answers to a packet's steps. The law holds of the definitions alone; the function does nothing.

ghost use Rattle.std.specs.Prelude.{◌≡◌, ℕ, List};
ghost use Rattle.fabric.specs.{FabricParts.ArePartsKept, FabricParts.FabricParts, OwnEvents.own_events, OwnEvents.step_answers, Runs.IsRun};
ghost use Rattle.fabric.specs.declared.event.Event.{Event};
ghost use Rattle.fabric.specs.FabricState.{Answer, FabricState, start};

/// A law: in two runs from the start, let a packet of the one and a packet of the other enter alike, and let their steps
/// and the failure that is kept stand in the same order. Then these steps have the same answers, whatever events of
/// other packets and whatever refused events stand between them.
pub fn own_events_decide_the_answers()
    ensures { (parts : FabricParts) → ArePartsKept parts
        → (room : ℕ) (events : List Event) (answers : List Answer) (end : FabricState)
        → IsRun parts (start room) events answers end
        → (other_room : ℕ) (others : List Event) (other_answers : List Answer)
        (other_end : FabricState)
        → IsRun parts (start other_room) others other_answers other_end
        → (p q : ℕ) → own_events p events answers ≡ own_events q others other_answers
        → step_answers p events answers ≡ step_answers q others other_answers }
{}
