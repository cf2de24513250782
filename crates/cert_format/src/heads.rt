//! The heads of the nodes, which lead to one top.

ghost use Rattle.std.specs.Prelude.{◌≡◌, ◌==◌, ◌<◌, ◌≤◌, ◌/◌, [], Some, IfOk, length, not, if◌then◌else◌};
ghost use Rattle.std.specs.List.{AllByRecursion, slice_index_or};
ghost use Rattle.mrt_graph.specs.{Certificate.IsCertNode, Certificate.certificate_of, CertFields.head_of, Foldable.is_own_head};
ghost use Rattle.cert_format.specs.{steps.Reading.AreEnds, Folded.head_fault, Folded.least};

use mrt_graph::{CertNode, NoMemory};
use std::alloc::Global;

/// The node whose head is at fault, if there is one.
/// It takes time in proportion to the nodes, and as many times that as their number has binary digits.
pub fn stray_head(alloc: Global, nodes: &[CertNode]) -> Result<Option<u16>, NoMemory>
    requires few { length nodes.now ≤ 65535 }
    requires kept { AllByRecursion (IsCertNode (length nodes.now)) nodes.now }
    ensures { IfOk result (λ stray. stray ≡ head_fault (certificate_of nodes.now [] [])) }
{
    let Some(top) = least_own_head(nodes) else {
        return Ok(Some(0));
    };
    let ends = ends_of_chains(alloc, nodes, nodes.len())?;
    Ok(first_other(&ends, top))
}

/// The least node that is its own head.
fn least_own_head(nodes: &[CertNode]) -> Option<u16>
    requires { length nodes.now ≤ 65535 }
    ensures { result ≡ least (is_own_head (certificate_of nodes.now [] [])) (length nodes.now) }
{
    for a in 0..nodes.len() {
        if nodes[a].head.get() as usize == a {
            return Some(a as u16);
        }
    }
    None
}

/// Of each node the one to which its chain of heads comes after so many steps.
fn ends_of_chains(alloc: Global, nodes: &[CertNode], steps: usize) -> Result<Vec<u16>, NoMemory>
    requires few { length nodes.now ≤ 65535 }
    requires kept { AllByRecursion (IsCertNode (length nodes.now)) nodes.now }
    ensures { IfOk result (λ ends. AreEnds nodes.now steps ends.items) }
{
    if steps == 0 {
        return all_numbers(alloc, nodes);
    }
    let half = ends_of_chains(alloc, nodes, steps / 2)?;
    twice(alloc, nodes, &half, steps)
}

/// After no step.
fn all_numbers(alloc: Global, nodes: &[CertNode]) -> Result<Vec<u16>, NoMemory>
    requires { length nodes.now ≤ 65535 }
    ensures { IfOk result (λ ends. AreEnds nodes.now 0 ends.items) }
{
    let mut ends = Vec::with_capacity(alloc, nodes.len())?;
    for v in 0..nodes.len() {
        ends.push_reserved(v as u16);
    }
    Ok(ends)
}

/// After so many steps, where half of them lead so far.
fn twice(
    alloc: Global,
    nodes: &[CertNode],
    half: &[u16],
    steps: usize,
) -> Result<Vec<u16>, NoMemory>
    requires few { length nodes.now ≤ 65535 }
    requires kept { AllByRecursion (IsCertNode (length nodes.now)) nodes.now }
    requires half { AreEnds nodes.now (steps / 2) half.now }
    ensures { IfOk result (λ ends. AreEnds nodes.now steps ends.items) }
{
    let mut ends = Vec::with_capacity(alloc, nodes.len())?;
    for v in 0..nodes.len() {
        let end = half[half[v] as usize];
        ends.push_reserved(one_more(nodes, end, steps % 2));
    }
    Ok(ends)
}

/// A node after no step, or after one.
fn one_more(nodes: &[CertNode], v: u16, step: usize) -> u16
    requires within { v < length nodes.now }
    ensures { Some result ≡ (if step == 0 then Some v else head_of (certificate_of nodes.now [] []) v) }
{
    if step == 0 {
        return v;
    }
    nodes[v as usize].head.get()
}

/// The least node that ends elsewhere.
fn first_other(ends: &[u16], top: u16) -> Option<u16>
    requires { length ends.now ≤ 65535 }
    ensures { result ≡ least (λ v. not (slice_index_or ends.now v 0 == top)) (length ends.now) }
{
    for v in 0..ends.len() {
        if ends[v] != top {
            return Some(v as u16);
        }
    }
    None
}
