//! How arcs are paired, and the bonds that they make.

ghost use Rattle.std.specs.Prelude.{◌≡◌, ◌<◌, ◌≤◌, ◌+◌, ◌++◌, ◌∷◌, [], length, map, take, if◌then◌else◌, IfOk, IfErr, OnOk, MatchOption, IfSome, Some, None, slice_index_or};
ghost use Rattle.std.specs.{List.AllByRecursion, List.position, Option.is_none, Option.unwrap_or};
ghost use Rattle.area_graph.specs.steps.NumberedArea.{arcs_of, bonds_of, bond_by, bond_from};
ghost use Rattle.area_graph.specs.steps.NumberedArcs.{arc_cmp};
ghost use Rattle.area_graph.specs.steps.NumberedBonds.{is_of, pairs, partner};
ghost use Rattle.area_graph.specs.steps.EntryOrder.{IsFirstOf};
ghost use Rattle.mrt_graph.specs.InOrder.{in_order};
ghost use Rattle.area_graph.specs.steps.Pairing.{AreOrdered, IsBetween, pairs_upto, with_pair};

use crate::area_error::AreaError;
use crate::area_types::{Arc, Bond};
use crate::back_marks::{first_back, first_from, marks_at_start};
use crate::entry::NumberedEntry;
use crate::numbers::{BondNo, Spot};
use std::alloc::Global;

/// An arc, and the number of the pair that it is of, if it is of one.
#[derive(Clone, Copy)]
pub struct Numbered {
    pub arc: NumberedEntry,
    pub pair: Option<usize>,
}

/// How many arcs stand before those that lead from one node to another, and before those that lead back.
#[derive(Clone, Copy)]
pub struct Firsts {
    pub own: usize,
    pub back: usize,
}

/// The arcs of an area in their order, and its bonds.
#[derive(Drop)]
pub struct Paired {
    pub arcs: Vec<Arc>,
    pub bonds: Vec<Bond>,
}

/// The arcs and the bonds that these entries make between so many nodes.
pub fn pair_arcs(alloc: Global, nodes: usize, arcs: &[NumberedEntry]) -> Result<Paired, AreaError>
    requires ordered { AreOrdered arcs.now }
    requires between { AllByRecursion IsBetween arcs.now }
    requires few { length arcs.now ≤ 32768 }
    ensures arcs { IfOk result (λ paired. paired.arcs.items ≡ arcs_of arcs.now) }
    ensures bonds { IfOk result (λ paired. paired.bonds.items ≡ bonds_of arcs.now) }
    ensures refused { IfErr result (λ error. error ≡ AreaError.NoMemory) }
{
    let mut bonds = Vec::with_capacity(alloc, arcs.len())?;
    let mut numbered = number_pairs(alloc, nodes, arcs, &mut bonds)?;
    sort_by_arc(arcs, &mut numbered);
    let arcs = number_all(alloc, arcs, numbered.as_slice(), &mut bonds)?;
    Ok(Paired { arcs, bonds })
}

/// The place of an arc's partner, if it has one.
fn partner_place(
    arcs: &[NumberedEntry],
    place: usize,
    arc: NumberedEntry,
    firsts: Firsts,
) -> Option<usize>
    requires ordered { AreOrdered arcs.now }
    requires within { place < length arcs.now }
    requires there { slice_index_or arcs.now place arc ≡ arc }
    requires own { IsFirstOf arc.tail arc.far arcs.now firsts.own }
    requires back { IsFirstOf arc.far arc.tail arcs.now firsts.back }
    ensures partner { MatchOption result (partner arcs.now arc ≡ None) (λ other. partner arcs.now arc ≡ Some (slice_index_or arcs.now other arc)) }
    ensures bound { IfSome result (λ other. other < length arcs.now) }
    ensures before { IfSome result (λ other. arc.far < arc.tail → other < place) }
{
    let turn = place - firsts.own;
    let other = firsts.back + turn;
    if other < arcs.len() && arcs[other].tail == arc.far && arcs[other].far == arc.tail {
        Some(other)
    } else {
        None
    }
}

/// The bond that an arc and its partner make.
fn pair_bond(one: NumberedEntry, other: NumberedEntry) -> Bond
    requires { IsBetween one }
    ensures { result ≡ bond_by one (Some other) }
{
    Bond {
        a: Spot::new(one.tail as u16),
        b: Spot::new(one.far as u16),
        paired: true,
        data_a: one.link_data,
        data_b: other.link_data,
        metric_a: one.metric,
        metric_b: other.metric,
    }
}

/// The bond that an arc without a partner makes.
fn single_bond(one: NumberedEntry) -> Bond
    requires { IsBetween one }
    ensures { result ≡ bond_by one None }
{
    Bond {
        a: Spot::new(one.tail as u16),
        b: Spot::new(one.far as u16),
        paired: false,
        data_a: one.link_data,
        data_b: 0,
        metric_a: one.metric,
        metric_b: 0,
    }
}

/// The number of the pair that an arc is of. The arc that leaves the lower node puts their bond after the others; the
/// other one comes later, and takes its number.
fn pair_number(
    arcs: &[NumberedEntry],
    place: usize,
    arc: NumberedEntry,
    firsts: Firsts,
    numbered: &[Numbered],
    bonds: &mut Vec<Bond>,
) -> Result<Option<usize>, AreaError>
    requires ordered { AreOrdered arcs.now }
    requires within { place < length arcs.now }
    requires there { slice_index_or arcs.now place arc ≡ arc }
    requires own { IsFirstOf arc.tail arc.far arcs.now firsts.own }
    requires back { IsFirstOf arc.far arc.tail arcs.now firsts.back }
    requires between { IsBetween arc }
    requires earlier { numbered.now ≡ map (with_pair arcs.now) (take place arcs.now) }
    requires pairs { bonds.old.items ≡ map (bond_from arcs.now) (pairs_upto arcs.now place) }
    ensures number { IfOk result (λ pair. pair ≡ position (is_of arcs.now arc) (pairs arcs.now)) }
    ensures pairs { OnOk result (bonds.new.items ≡ map (bond_from arcs.now) (pairs_upto arcs.now (place + 1))) }
    ensures refused { IfErr result (λ error. error ≡ AreaError.NoMemory) }
{
    let Some(other) = partner_place(arcs, place, arc, firsts) else {
        return Ok(None);
    };
    if arc.tail < arc.far {
        let number = bonds.len();
        bonds.push(pair_bond(arc, arcs[other]))?;
        Ok(Some(number))
    } else {
        Ok(numbered[other].pair)
    }
}

/// The arcs, each with the number of its pair. Puts the bonds of the pairs into the list.
fn number_pairs(
    alloc: Global,
    nodes: usize,
    arcs: &[NumberedEntry],
    bonds: &mut Vec<Bond>,
) -> Result<Vec<Numbered>, AreaError>
    requires ordered { AreOrdered arcs.now }
    requires between { AllByRecursion IsBetween arcs.now }
    requires none { bonds.old.items ≡ [] }
    ensures numbered { IfOk result (λ numbered. numbered.items ≡ map (with_pair arcs.now) arcs.now) }
    ensures pairs { OnOk result (bonds.new.items ≡ map (bond_from arcs.now) (pairs arcs.now)) }
    ensures refused { IfErr result (λ error. error ≡ AreaError.NoMemory) }
{
    let mut marks = marks_at_start(alloc, nodes, arcs)?;
    let mut numbered = Vec::with_capacity(alloc, arcs.len())?;
    let mut own = 0;
    for (place, arc) in arcs.iter().enumerate() {
        own = first_from(arcs, own, arc.tail as usize, arc.far as usize);
        let back = first_back(arcs, place, *arc, &mut marks);
        let firsts = Firsts { own, back };
        let pair = pair_number(arcs, place, *arc, firsts, numbered.as_slice(), bonds)?;
        numbered.push(Numbered { arc: *arc, pair })?;
    }
    Ok(numbered)
}

/// Orders numbered arcs by tail, metric, far node, link data and place.
fn sort_by_arc(arcs: &[NumberedEntry], numbered: &mut Vec<Numbered>)
    requires ordered { AreOrdered arcs.now }
    requires numbered { numbered.old.items ≡ map (with_pair arcs.now) arcs.now }
    ensures { numbered.new.items ≡ map (with_pair arcs.now) (in_order arc_cmp arcs.now) }
{
    numbered.sort_unstable_by_key(|x| {
        (
            x.arc.tail,
            x.arc.metric,
            x.arc.far,
            x.arc.link_data,
            x.arc.place,
        )
    });
}

/// The number of an arc's bond. An arc without a partner puts its bond after the others.
fn bond_number(numbered: Numbered, bonds: &mut Vec<Bond>) -> Result<usize, AreaError>
    requires { IsBetween numbered.arc }
    ensures number { IfOk result (λ number. number ≡ unwrap_or numbered.pair (length bonds.old.items)) }
    ensures bonds { OnOk result (bonds.new.items ≡ bonds.old.items ++ (if is_none numbered.pair then bond_by numbered.arc None ∷ [] else [])) }
    ensures refused { IfErr result (λ error. error ≡ AreaError.NoMemory) }
{
    match numbered.pair {
        Some(number) => Ok(number),
        None => {
            let number = bonds.len();
            bonds.push(single_bond(numbered.arc))?;
            Ok(number)
        }
    }
}

/// The arcs with the numbers of their bonds. Puts the bonds of single arcs after those of the pairs.
fn number_all(
    alloc: Global,
    arcs: &[NumberedEntry],
    numbered: &[Numbered],
    bonds: &mut Vec<Bond>,
) -> Result<Vec<Arc>, AreaError>
    requires ordered { AreOrdered arcs.now }
    requires between { AllByRecursion IsBetween arcs.now }
    requires few { length arcs.now ≤ 32768 }
    requires numbered { numbered.now ≡ map (with_pair arcs.now) (in_order arc_cmp arcs.now) }
    requires pairs { bonds.old.items ≡ map (bond_from arcs.now) (pairs arcs.now) }
    ensures arcs { IfOk result (λ all. all.items ≡ arcs_of arcs.now) }
    ensures bonds { OnOk result (bonds.new.items ≡ bonds_of arcs.now) }
    ensures refused { IfErr result (λ error. error ≡ AreaError.NoMemory) }
{
    let mut all = Vec::with_capacity(alloc, arcs.len())?;
    for x in numbered {
        let number = bond_number(*x, bonds)?;
        all.push(Arc {
            tail: Spot::new(x.arc.tail as u16),
            to: Spot::new(x.arc.far as u16),
            metric: x.arc.metric,
            link_data: x.arc.link_data,
            bond: BondNo::new(number as u16),
        })?;
    }
    Ok(all)
}
