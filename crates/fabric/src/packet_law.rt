//! What holds of each packet, whatever the events. The laws hold of the definitions alone; the functions do nothing. Of
//! rows they ask for those for the destinations of packets alone.

ghost use Rattle.std.specs.Prelude.{◌≡◌, ◌<◌, ◌≤◌, ◌-◌, ◌*◌, ℕ, AllPairs, List, Some, length, slice_get};
ghost use Rattle.fabric.specs.Course.{KeepsMode, course, is_on_color, is_primary, steps_of, visits};
ghost use Rattle.fabric.specs.{FabricParts.ArePartsKept, FabricParts.FabricParts, Runs.IsRun, Served.AreRowsOn, declared.event.Event.Event};
ghost use Rattle.fabric.specs.{declared.packet.Loss.Loss, declared.packet.Packet.Packet};
ghost use Rattle.fabric.specs.FabricState.{Answer, FabricState, start};
ghost use Rattle.fabric.specs.declared.packet.Mode.TheVariants as modes;
ghost use Rattle.fabric.specs.declared.packet.State.TheVariants as states;
ghost use Rattle.mrt_graph.specs.{Reaches.AreDifferent, declared.cert.Color.Color};

/// Laws: a packet visits no place twice in primary mode, and none twice on a color.
pub fn no_place_twice()
    ensures in_primary_mode { (parts : FabricParts) → ArePartsKept parts
        → (room : ℕ) (events : List Event) (answers : List Answer) (end : FabricState)
        → AreRowsOn parts events → IsRun parts (start room) events answers end
        → (p : ℕ) → AreDifferent (visits is_primary (course p (start room) events answers)) }
    ensures on_a_color { (parts : FabricParts) → ArePartsKept parts
        → (room : ℕ) (events : List Event) (answers : List Answer) (end : FabricState)
        → AreRowsOn parts events → IsRun parts (start room) events answers end
        → (p : ℕ) → AreDifferent (visits is_on_color (course p (start room) events answers)) }
{}

/// A law: a packet keeps its mode, but for one change at most, from primary mode to a color, which it keeps then.
pub fn one_change_of_mode()
    ensures { (parts : FabricParts) → ArePartsKept parts → (room : ℕ) (events : List Event)
        (answers : List Answer) (end : FabricState)
        → IsRun parts (start room) events answers end
        → (p : ℕ) → AllPairs (λ (earlier later : Packet). KeepsMode earlier.mode later.mode)
        (course p (start room) events answers) }
{}

/// A law: a packet that was switched to a color is never lost.
pub fn a_switched_packet_is_never_lost()
    ensures { (parts : FabricParts) → ArePartsKept parts → (room : ℕ) (events : List Event)
        (answers : List Answer) (end : FabricState)
        → AreRowsOn parts events → IsRun parts (start room) events answers end
        → (p : ℕ) (packet : Packet) → slice_get end.packets p ≡ Some packet
        → (color : Color) → packet.mode ≡ modes.Switched color
        → (loss : Loss) → packet.state ≡ states.Lost loss → ⊥ }
{}

/// Laws: a packet has at most twice as many answered steps as its area has other nodes; after so many it is delivered or
/// lost.
pub fn packets_end()
    ensures few_steps { (parts : FabricParts) → ArePartsKept parts
        → (room : ℕ) (events : List Event) (answers : List Answer) (end : FabricState)
        → AreRowsOn parts events → IsRun parts (start room) events answers end
        → (p : ℕ) → steps_of p events answers ≤ 2 * (length parts.area.ids - 1) }
    ensures going { (parts : FabricParts) → ArePartsKept parts
        → (room : ℕ) (events : List Event) (answers : List Answer) (end : FabricState)
        → AreRowsOn parts events → IsRun parts (start room) events answers end
        → (p : ℕ) (packet : Packet) → slice_get end.packets p ≡ Some packet
        → packet.state ≡ states.Going
        → steps_of p events answers < 2 * (length parts.area.ids - 1) }
{}
