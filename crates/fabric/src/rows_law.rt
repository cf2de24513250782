//! Which rows decide what happens to packets. The law holds of the definitions alone; the function does nothing.

ghost use Rattle.std.specs.Prelude.{ℕ, List};
ghost use Rattle.fabric.specs.{FabricParts.FabricParts, Runs.IsRun, Served.AgreeOn, Served.with_rows, declared.event.Event.Event};
ghost use Rattle.fabric.specs.FabricState.{Answer, FabricState, start};
ghost use Rattle.mrt_graph.specs.Rows.{Rows};

/// A law: where other rows agree with those of the parts for the destinations of all packets that enter, a run by the one
/// is a run by the others: with the same answers, to the same state.
pub fn rows_for_destinations_decide()
    ensures { (parts : FabricParts) (rows : Rows) (room : ℕ) (events : List Event)
        → AgreeOn parts rows events
        → (answers : List Answer) (end : FabricState) → IsRun parts (start room) events answers end
        → IsRun (with_rows parts rows) (start room) events answers end }
{}
