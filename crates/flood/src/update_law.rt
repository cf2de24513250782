//! Bytes and Link State Update packets. The laws hold of the definitions alone; the functions do nothing.

ghost use Rattle.std.specs.Prelude.{◌≡◌, ◌⊎◌, ◌<◌, ◌^◌, ℕ, List, []};
ghost use Rattle.std.specs.List.{AllByRecursion};
ghost use Rattle.ospf_lsa.specs.Lsas.{FitsBody, IsByte};
ghost use Rattle.flood.specs.{declared.error.UpdateKind.UpdateKind, declared.update.Update.Update, Updates.AreUpdates};
ghost use Rattle.flood.specs.{Receiving.MayFlood, Runs.lsas_of, UpdateOutcome.IsFirstUpdateFault};

/// Any bytes are packets without a fault, one after another, or have a first packet with a fault; never both, and each
/// in one way.
pub fn bytes_are_updates_or_have_a_fault()
    ensures either { (bytes : List ℕ) → AllByRecursion IsByte bytes
        → ((updates : List Update) × AreUpdates 0 bytes updates [])
        ⊎ ((at : ℕ) × (kind : UpdateKind) × IsFirstUpdateFault bytes at kind) }
    ensures never_both { (bytes : List ℕ) (updates : List Update) (at : ℕ) (kind : UpdateKind)
        → AreUpdates 0 bytes updates [] → IsFirstUpdateFault bytes at kind → ⊥ }
    ensures one_list { (bytes : List ℕ) (updates others : List Update)
        → AreUpdates 0 bytes updates [] → AreUpdates 0 bytes others [] → updates ≡ others }
    ensures one_fault { (bytes : List ℕ) (at place : ℕ) (kind other : UpdateKind)
        → IsFirstUpdateFault bytes at kind → IsFirstUpdateFault bytes place other
        → (at ≡ place) × (kind ≡ other) }
{}

/// Laws: packets that bytes are may be flooded, and the numbers of their LSAs fit their fields.
pub fn what_is_read_may_be_flooded()
    ensures may { (bytes : List ℕ) (updates : List Update) → AllByRecursion IsByte bytes
        → AreUpdates 0 bytes updates [] → AllByRecursion MayFlood updates }
    ensures bodies { (bytes : List ℕ) (updates : List Update) → AreUpdates 0 bytes updates []
        → AllByRecursion (λ lsa. FitsBody lsa.body) (lsas_of updates) }
    ensures ids { (bytes : List ℕ) (updates : List Update) → AreUpdates 0 bytes updates []
        → AllByRecursion (λ lsa. lsa.id < 2 ^ 32) (lsas_of updates) }
{}
