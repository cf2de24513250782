//! The numbers of an island's nodes and links.

ghost use Rattle.std.specs.Prelude.{◌≡◌, ◌<◌, ◌≤◌, ℕ, IfOk, length, map, slice_index};
ghost use Rattle.std.specs.List.{AllByRecursion};
ghost use Rattle.mrt_island.specs.steps.Numbering.{AreFlagNumbers};
ghost use Rattle.mrt_island.specs.Numbering.{flagged, link_by, number_inside};

use area_graph::{Area, Bond, Spot};
use mrt_graph::{LinkIn, LinkNo, NoMemory, NodeId, NodeNo};
use std::alloc::Global;

/// The identifiers of the nodes that are inside.
pub fn ids_inside(alloc: Global, area: &Area, inside: &[bool]) -> Result<Vec<NodeId>, NoMemory>
    requires few { length inside.now ≤ 4096 }
    requires count { length inside.now ≡ length area.now.ids }
    ensures { IfOk result (λ ids. ids.items ≡ flagged inside.now area.now.ids) }
{
    let mut ids = Vec::with_capacity(alloc, inside.len())?;
    for s in 0..inside.len() {
        if inside[s] {
            ids.push_reserved(area.id(Spot::new(s as u16)));
        }
    }
    Ok(ids)
}

/// Of each node the number that it has in the island, if it is inside.
pub fn node_numbers(alloc: Global, inside: &[bool]) -> Result<Vec<NodeNo>, NoMemory>
    requires few { length inside.now ≤ 4096 }
    ensures count { IfOk result (λ numbers. length numbers.items ≡ length inside.now) }
    ensures numbers { IfOk result (λ numbers. (s : ℕ) → s < length inside.now → slice_index numbers.items s ≡ number_inside inside.now s) }
{
    let mut numbers = Vec::with_capacity(alloc, inside.len())?;
    let mut number: u16 = 0;
    for flag in inside {
        numbers.push_reserved(NodeNo::new(number));
        if *flag {
            number += 1;
        }
    }
    Ok(numbers)
}

/// The links that the bonds are whose flags are set.
pub fn links_between(
    alloc: Global,
    inside: &[bool],
    flags: &[bool],
    bonds: &[Bond],
) -> Result<Vec<LinkIn>, NoMemory>
    requires few { length inside.now ≤ 4096 }
    requires flags { length flags.now ≡ length bonds.now }
    requires within { AllByRecursion (λ bond. (bond.a < length inside.now) × (bond.b < length inside.now)) bonds.now }
    ensures { IfOk result (λ links. links.items ≡ map (link_by inside.now) (flagged flags.now bonds.now)) }
{
    let numbers = node_numbers(alloc, inside)?;
    let mut links = Vec::with_capacity(alloc, bonds.len())?;
    for k in 0..bonds.len() {
        if flags[k] {
            links.push_reserved(link(inside, &numbers, &bonds[k]));
        }
    }
    Ok(links)
}

fn link(inside: &[bool], numbers: &[NodeNo], bond: &Bond) -> LinkIn
    requires a { bond.now.a < length inside.now }
    requires b { bond.now.b < length inside.now }
    requires count { length numbers.now ≡ length inside.now }
    requires numbers { (s : ℕ) → s < length inside.now → slice_index numbers.now s ≡ number_inside inside.now s }
    ensures { result ≡ link_by inside.now bond.now }
{
    LinkIn {
        a: numbers[bond.a.get() as usize],
        b: numbers[bond.b.get() as usize],
        metric_a: bond.metric_a,
        metric_b: bond.metric_b,
        data_a: bond.data_a,
        data_b: bond.data_b,
    }
}

/// Of each flag that is set its number: how many of those before it are set.
pub fn link_numbers(alloc: Global, flags: &[bool]) -> Result<Vec<Option<LinkNo>>, NoMemory>
    requires { length flags.now ≤ 32768 }
    ensures { IfOk result (λ numbers. AreFlagNumbers flags.now numbers.items) }
{
    let mut numbers = Vec::with_capacity(alloc, flags.len())?;
    let mut number: u16 = 0;
    for flag in flags {
        if *flag {
            numbers.push_reserved(Some(LinkNo::new(number)));
            number += 1;
        } else {
            numbers.push_reserved(None);
        }
    }
    Ok(numbers)
}
