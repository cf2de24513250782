//! That the newest ones of the records of a database give an area, and that its numbers fit.

ghost use Rattle.std.specs.Prelude.{◌<◌, ◌^◌, List, length};
ghost use Rattle.std.specs.List.{AllByRecursion};
ghost use Rattle.ospf_lsa.specs.{Lsas.FitsBody, declared.lsa.Lsa.Lsa};
ghost use Rattle.lsdb.specs.{Installing.IsKept, Orders.newest_in};
ghost use Rattle.area_graph.specs.{AreaInvariant.IsArea, AreaOf.area_of, AreaSize.IsTooLarge, Ranges.FitsBond};

/// A law: the newest ones of records that may stand in a database give an area that keeps what each area keeps, where
/// it has at most as many nodes and arcs as an area may have.
pub fn the_newest_records_give_an_area()
    ensures { (lsas : List Lsa) → AllByRecursion IsKept lsas
        → (IsTooLarge (length (area_of (newest_in lsas)).ids) (length (area_of (newest_in lsas)).arcs) → ⊥)
        → IsArea (area_of (newest_in lsas)) }
{}

/// A law: where the numbers of records fit their fields, so do those of the bonds of the area that the newest ones give.
pub fn bonds_of_the_newest_records_fit()
    ensures { (lsas : List Lsa) → AllByRecursion (λ lsa. FitsBody lsa.body) lsas
        → AllByRecursion FitsBond (area_of (newest_in lsas)).bonds }
{}

/// A law: where the link state IDs of records have 32 bits, so have the numbers of the nodes of that area.
pub fn ids_of_the_newest_records_fit()
    ensures { (lsas : List Lsa) → AllByRecursion (λ lsa. lsa.id < 2 ^ 32) lsas
        → AllByRecursion (λ id. id.number < 2 ^ 32) (area_of (newest_in lsas)).ids }
{}
