//! Laws over runs of deliveries. They hold of the definitions alone; the functions do nothing.

ghost use Rattle.std.specs.Prelude.{◌≡◌, ◌<◌, ◌^◌, ◌↔◌, ℕ, List, [], None, Some, Contains, IsPermutation, map};
ghost use Rattle.std.specs.{List.AllByRecursion, List.IsDistinct, Option.IsSomeAnd};
ghost use Rattle.ospf_lsa.specs.{Lsas.FitsBody, declared.lsa.Lsa.Lsa};
ghost use Rattle.lsdb.specs.{Conflicts.least_conflict, Entries.Database, Installing.IsKept, Installs.all_installed, Installs.AreBehind, Keys.key_of};
ghost use Rattle.lsdb.specs.Newest.{IsSettled};
ghost use Rattle.lsdb.specs.Orders.{newest_in, timeless, without_place, HoldTheSame};
ghost use Rattle.flood.specs.{Databases.after_installs, Databases.empty_database, FloodState.database_of, FloodState.started};
ghost use Rattle.flood.specs.{Receiving.MayFlood, declared.update.Update.Update};
ghost use Rattle.flood.specs.Runs.{AreNewestOfTheSame, Delivery, IsFlooded, after_deliveries, delivered_to, lsas_of, same_instance, sent};

/// Laws: after any deliveries a router's database, its entries and the greatest place in it, is that of installing, one
/// after another, the LSAs of types 1 and 2 of all packets that were delivered to it, with arrival numbers that rise. So
/// what it gives as newest are the first newest instances of these, and it has no conflict exactly where the newest
/// instances of each key agree. What holds of the numbers of the file's LSAs holds of these.
pub fn a_database_is_that_of_what_was_delivered()
    ensures database { (updates : List Update) (count : ℕ) (deliveries : List Delivery) (router : ℕ) → router < count
        → database_of (after_deliveries (started updates count) deliveries) router
        ≡ Some (after_installs empty_database (delivered_to updates count deliveries router)) }
    ensures entries { (updates : List Update) (count : ℕ) (deliveries : List Delivery) (router : ℕ) → router < count
        → IsSomeAnd (database_of (after_deliveries (started updates count) deliveries) router) (λ database.
        database.entries ≡ all_installed [] (delivered_to updates count deliveries router)) }
    ensures newest { (updates : List Update) (count : ℕ) (deliveries : List Delivery) (router : ℕ) → router < count
        → IsSomeAnd (database_of (after_deliveries (started updates count) deliveries) router) (λ database.
        map (λ entry. entry.lsa) database.entries ≡ newest_in (delivered_to updates count deliveries router)) }
    ensures settled { (updates : List Update) (count : ℕ) (deliveries : List Delivery) (router : ℕ) → router < count
        → IsSomeAnd (database_of (after_deliveries (started updates count) deliveries) router) (λ database.
        (least_conflict database.entries ≡ None) ↔ IsSettled (delivered_to updates count deliveries router)) }
    ensures numbers { (updates : List Update) (count : ℕ) (deliveries : List Delivery) (router : ℕ)
        → AreBehind None (delivered_to updates count deliveries router) }
    ensures kept { (updates : List Update) (count : ℕ) (deliveries : List Delivery) (router : ℕ)
        → AllByRecursion MayFlood updates
        → AllByRecursion IsKept (delivered_to updates count deliveries router) }
    ensures bodies { (updates : List Update) (count : ℕ) (deliveries : List Delivery) (router : ℕ)
        → AllByRecursion (λ lsa. FitsBody lsa.body) (lsas_of updates)
        → AllByRecursion (λ lsa. FitsBody lsa.body) (delivered_to updates count deliveries router) }
    ensures ids { (updates : List Update) (count : ℕ) (deliveries : List Delivery) (router : ℕ)
        → AllByRecursion (λ lsa. lsa.id < 2 ^ 32) (lsas_of updates)
        → AllByRecursion (λ lsa. lsa.id < 2 ^ 32) (delivered_to updates count deliveries router) }
{}

/// Laws: each LSA of a packet is one of the file, and each LSA of a database is one of the file but for its place.
pub fn nothing_is_made_up()
    ensures packets { (updates : List Update) (count : ℕ) (deliveries : List Delivery) (update : Update) (lsa : Lsa)
        → Contains (after_deliveries (started updates count) deliveries).packets update → Contains update.lsas lsa
        → Contains (lsas_of updates) lsa }
    ensures databases { (updates : List Update) (count : ℕ) (deliveries : List Delivery) (router : ℕ)
        (database : Database) (lsa : Lsa) → router < count
        → database_of (after_deliveries (started updates count) deliveries) router ≡ Some database
        → Contains (map (λ entry. entry.lsa) database.entries) lsa
        → Contains (map without_place (lsas_of updates)) (without_place lsa) }
{}

/// A law: a router sends on at most one instance of each key and rank.
pub fn an_instance_is_sent_on_once()
    ensures { (updates : List Update) (count : ℕ) (deliveries : List Delivery) (router : ℕ) → router < count
        → IsDistinct same_instance (sent (started updates count) deliveries router) }
{}

/// Laws: where what was delivered to two routers holds the same LSAs, in whatever order and number, the places left out,
/// the one database is settled exactly where the other is. Then what they give as newest are the first newest instances
/// of two lists that hold the same LSAs.
pub fn the_same_deliveries_give_the_same_database()
    ensures settled { (updates : List Update) (count : ℕ) (deliveries : List Delivery) (router other : ℕ)
        (its others : Database) → router < count → other < count
        → database_of (after_deliveries (started updates count) deliveries) router ≡ Some its
        → database_of (after_deliveries (started updates count) deliveries) other ≡ Some others
        → HoldTheSame (delivered_to updates count deliveries router) (delivered_to updates count deliveries other)
        → (least_conflict its.entries ≡ None) ↔ (least_conflict others.entries ≡ None) }
    ensures newest { (updates : List Update) (count : ℕ) (deliveries : List Delivery) (router other : ℕ)
        (its others : Database) → AllByRecursion MayFlood updates → router < count → other < count
        → database_of (after_deliveries (started updates count) deliveries) router ≡ Some its
        → database_of (after_deliveries (started updates count) deliveries) other ≡ Some others
        → HoldTheSame (delivered_to updates count deliveries router) (delivered_to updates count deliveries other)
        → least_conflict its.entries ≡ None
        → AreNewestOfTheSame (map (λ entry. entry.lsa) its.entries) (map (λ entry. entry.lsa) others.entries) }
{}

/// Laws: flooding converges. Where each packet of the file was delivered to at least one router, each packet that was
/// sent on was delivered to every router, and the newest instances of each key in the file agree, every database is
/// settled, and what any two of them give as newest are the first newest instances of two lists that hold the same LSAs.
pub fn flooding_converges()
    ensures settled { (updates : List Update) (count : ℕ) (deliveries : List Delivery) (router : ℕ)
        (database : Database) → IsFlooded updates count deliveries → router < count
        → database_of (after_deliveries (started updates count) deliveries) router ≡ Some database
        → least_conflict database.entries ≡ None }
    ensures newest { (updates : List Update) (count : ℕ) (deliveries : List Delivery) (router other : ℕ)
        (its others : Database) → AllByRecursion MayFlood updates → IsFlooded updates count deliveries
        → router < count → other < count
        → database_of (after_deliveries (started updates count) deliveries) router ≡ Some its
        → database_of (after_deliveries (started updates count) deliveries) other ≡ Some others
        → AreNewestOfTheSame (map (λ entry. entry.lsa) its.entries) (map (λ entry. entry.lsa) others.entries) }
{}

/// Laws: where two settled lists hold the same LSAs, their first newest instances have the same keys, and each is the same
/// in both but for its place and its age field; both are at MaxAge, or neither is.
pub fn newest_of_the_same_are_the_same()
    ensures keys { (its others : List Lsa) → AreNewestOfTheSame its others
        → IsPermutation (map key_of its) (map key_of others) }
    ensures timeless { (its others : List Lsa) → AreNewestOfTheSame its others
        → IsPermutation (map timeless its) (map timeless others) }
{}
