//! Laws over the records of databases. They hold of the definitions alone; the functions do nothing.

ghost use Rattle.std.specs.Prelude.{◌≡◌, List};
ghost use Rattle.std.specs.List.{AllByRecursion};
ghost use Rattle.ospf_lsa.specs.declared.lsa.Lsa.{Lsa};
ghost use Rattle.lsdb.specs.{Installing.IsKept, Instances.HoldTheSameInstances, Newest.IsSettled};
ghost use Rattle.lsdb.specs.Orders.{newest_in, AreReordered, HoldTheSame};
ghost use Rattle.area_graph.specs.{AreaOf.area_of, LiveLsas.HoldTheSameLive};

/// Where the newest instances of each key differ in nothing but their places and ages, records that hold the same LSAs
/// give the same area; so do records in another order.
pub fn the_same_records_give_the_same_area()
    ensures same { (lsas others : List Lsa) → AllByRecursion IsKept lsas → IsSettled lsas → HoldTheSame lsas others
        → area_of (newest_in lsas) ≡ area_of (newest_in others) }
    ensures reordered { (lsas others : List Lsa) → AllByRecursion IsKept lsas → IsSettled lsas → AreReordered lsas others
        → area_of (newest_in lsas) ≡ area_of (newest_in others) }
{}

/// Newest records of two databases, of which those not at MaxAge differ in nothing but their places and ages, give the same
/// area, whatever else either database holds at MaxAge; so do databases that hold the same instances.
pub fn the_same_live_lsas_give_the_same_area()
    ensures same { (lsas others : List Lsa) → AllByRecursion IsKept lsas
        → HoldTheSameLive (newest_in lsas) (newest_in others)
        → area_of (newest_in lsas) ≡ area_of (newest_in others) }
    ensures instances { (lsas others : List Lsa) → HoldTheSameInstances lsas others → HoldTheSameLive lsas others }
{}
