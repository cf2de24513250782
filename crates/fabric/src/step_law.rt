//! What holds of each step. The laws hold of the definitions alone; the functions do nothing.

ghost use Rattle.std.specs.Prelude.{◌≡◌, ◌≢◌, ℕ, Err, List, Some, slice_get};
ghost use Rattle.fabric.specs.{Answers.IsAnswer, FabricParts.ArePartsKept, FabricParts.FabricParts, Runs.FabricStep, Runs.IsRun};
ghost use Rattle.fabric.specs.{OutcomeText.IsTellable, Served.AreRowsOn, declared.event.Event.Event, declared.event.Failure.Failure, declared.event.Refused.Refused};
ghost use Rattle.fabric.specs.declared.packet.Packet.{Packet};
ghost use Rattle.fabric_script.specs.declared.entry.Entry.{Entry};
ghost use Rattle.fabric.specs.FabricState.{Answer, FabricState, start};
ghost use Rattle.fabric.specs.declared.event.Event.TheVariants as events;

use primary_alt::each_router_has_its_primaries;

/// Laws: in each state that a run from the start leads to, each event has an answer, and only one, and its node, if there
/// is one, is of the area; so a run has one list of answers, and leads to one state.
pub fn one_answer_each()
    ensures some { (parts : FabricParts) → ArePartsKept parts
        → (room : ℕ) (events : List Event) (answers : List Answer) (end : FabricState)
        → AreRowsOn parts events → IsRun parts (start room) events answers end
        → (event : Event) → (answer : Answer) × IsAnswer parts end event answer }
    ensures told { (parts : FabricParts) → ArePartsKept parts
        → (room : ℕ) (events : List Event) (answers : List Answer) (end : FabricState)
        → AreRowsOn parts events → IsRun parts (start room) events answers end
        → (event : Event) (answer : Answer) → IsAnswer parts end event answer
        → IsTellable parts.area.ids answer }
    ensures only_one { (parts : FabricParts) → ArePartsKept parts
        → (state : FabricState) (event : Event) (answer other : Answer)
        → IsAnswer parts state event answer → IsAnswer parts state event other → answer ≡ other }
    ensures one_run { (parts : FabricParts) → ArePartsKept parts
        → (state : FabricState) (events : List Event) (answers others : List Answer)
        (end other : FabricState)
        → IsRun parts state events answers end → IsRun parts state events others other
        → (answers ≡ others) × (end ≡ other) }
{
    each_router_has_its_primaries();
}

/// Laws: a refused event changes nothing; a step of a packet leaves all other packets and the failure as they were; a
/// packet that enters leaves all others and the failure; a failure leaves all packets.
pub fn other_things_stay()
    ensures refused { (parts : FabricParts) (old new : FabricState) (event : Event)
        (refused : Refused)
        → FabricStep parts old event (Err refused) new → new ≡ old }
    ensures steps { (parts : FabricParts) (old new : FabricState) (p : ℕ) (answer : Answer)
        → FabricStep parts old (events.Step p) answer new
        → (new.failure ≡ old.failure)
        × ((q : ℕ) → q ≢ p → slice_get new.packets q ≡ slice_get old.packets q) }
    ensures injects { (parts : FabricParts) (old new : FabricState) (at to : ℕ)
        (entry : Entry) (answer : Answer)
        → FabricStep parts old (events.Inject at to entry) answer new
        → (new.failure ≡ old.failure)
        × ((q : ℕ) (packet : Packet) → slice_get old.packets q ≡ Some packet
        → slice_get new.packets q ≡ Some packet) }
    ensures fails { (parts : FabricParts) (old new : FabricState) (failed : Failure)
        (answer : Answer)
        → FabricStep parts old (events.Fail failed) answer new → new.packets ≡ old.packets }
{}
