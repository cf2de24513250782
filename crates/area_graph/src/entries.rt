//! What LSAs list, as entries.

ghost use Rattle.std.specs.Prelude.{◌≡◌, ◌+◌, ◌<◌, ◌≤◌, ◌^◌, ◌++◌, IfOk, IfErr, OnOk, length, vec_len, vec_capacity};
ghost use Rattle.std.specs.{List.AllZip, List.Sorted.IsStrictlySortedBy, Option.option_and_then, Option.option_to_list};
ghost use Rattle.mrt_graph.specs.NodeOrder.{node_id_cmp};
ghost use Rattle.area_graph.specs.steps.NumberedEntries.{by_number, entries_from, numbered_entry};
ghost use Rattle.area_graph.specs.Entries.{far_of, entry_of_link, entry_of_listed, entries_of_links, entries_of_listed, entries_of};
ghost use Rattle.area_graph.specs.Nodes.{speakers as all_speakers};
ghost use Rattle.area_graph.specs.steps.Speaking.{IsSpeakerOf};

use crate::area_error::AreaError;
use crate::entry::NumberedEntry;
use crate::speaker::Speaker;
use mrt_graph::{NodeId, place_of};
use ospf_lsa::{Body, Lsa, POINT_TO_POINT, RouterLink, TRANSIT};
use std::alloc::Global;

/// The entries of the LSAs that speak for the nodes.
pub fn entries(
    alloc: Global,
    lsas: &[Lsa],
    speakers: &[Speaker],
    ids: &[NodeId],
) -> Result<Vec<NumberedEntry>, AreaError>
    requires speak { AllZip (IsSpeakerOf lsas.now) speakers.now (all_speakers lsas.now) }
    requires ascend { IsStrictlySortedBy node_id_cmp ids.now }
    ensures entries { IfOk result (λ found. found.items ≡ entries_from ids.now 0 (all_speakers lsas.now)) }
    ensures refused { IfErr result (λ error. error ≡ AreaError.NoMemory) }
{
    check_numbers(ids.len())?;
    check_numbers(speakers.len())?;
    let mut found = Vec::with_capacity(alloc, listed_by(lsas, speakers))?;
    for (tail, speaker) in speakers.iter().enumerate() {
        add_entries(&mut found, ids, tail, speaker.id, &lsas[speaker.at].body)?;
    }
    Ok(found)
}

/// Refuses more nodes, or more links or routers of an LSA, than 32 bits number, for which there is no memory either.
fn check_numbers(count: usize) -> Result<(), AreaError>
    ensures few { OnOk result (count < 2 ^ 32) }
    ensures refused { IfErr result (λ error. error ≡ AreaError.NoMemory) }
{
    if count > u32::MAX as usize {
        return Err(AreaError::NoMemory);
    }
    Ok(())
}

/// How many links and routers the LSAs list that speak for the nodes, so that there is room for an entry of each at once.
fn listed_by(lsas: &[Lsa], speakers: &[Speaker]) -> usize {
    let mut count = 0usize;
    for speaker in speakers {
        if let Some(lsa) = lsas.get(speaker.at) {
            count = count.saturating_add(listed_in(&lsa.body));
        }
    }
    count
}

fn listed_in(body: &Body) -> usize {
    match body {
        Body::Router { links, .. } => links.as_slice().len(),
        Body::Network { routers, .. } => routers.as_slice().len(),
        Body::Other { .. } => 0,
    }
}

/// Adds the entries of the LSA that speaks for node number `tail`, which is `own`.
fn add_entries(
    found: &mut Vec<NumberedEntry>,
    ids: &[NodeId],
    tail: usize,
    own: NodeId,
    body: &Body,
) -> Result<(), AreaError>
    requires ascend { IsStrictlySortedBy node_id_cmp ids.now }
    requires few { length ids.now < 2 ^ 32 }
    requires tail { tail < 2 ^ 32 }
    ensures entries { OnOk result (found.new.items ≡ found.old.items ++ by_number ids.now tail (entries_of own body.now)) }
    ensures refused { IfErr result (λ error. error ≡ AreaError.NoMemory) }
{
    match body {
        Body::Router { links, .. } => add_links(found, ids, tail, own, links.as_slice()),
        Body::Network { routers, .. } => add_listed(found, ids, tail, routers.as_slice()),
        Body::Other { .. } => Ok(()),
    }
}

/// Adds the entries for the links of the router `own`, which is node number `tail`.
fn add_links(
    found: &mut Vec<NumberedEntry>,
    ids: &[NodeId],
    tail: usize,
    own: NodeId,
    links: &[RouterLink],
) -> Result<(), AreaError>
    requires ascend { IsStrictlySortedBy node_id_cmp ids.now }
    requires few { length ids.now < 2 ^ 32 }
    requires tail { tail < 2 ^ 32 }
    ensures entries { OnOk result (found.new.items ≡ found.old.items ++ by_number ids.now tail (entries_of_links own 0 links.now)) }
    ensures refused { IfErr result (λ error. error ≡ AreaError.NoMemory) }
{
    check_numbers(links.len())?;
    found.reserve(links.len())?;
    for (place, link) in links.iter().enumerate() {
        put(found, of_link(ids, tail, own, place, link));
    }
    Ok(())
}

/// Adds the entries for the routers of a network, node number `tail`.
fn add_listed(
    found: &mut Vec<NumberedEntry>,
    ids: &[NodeId],
    tail: usize,
    routers: &[u32],
) -> Result<(), AreaError>
    requires ascend { IsStrictlySortedBy node_id_cmp ids.now }
    requires few { length ids.now < 2 ^ 32 }
    requires tail { tail < 2 ^ 32 }
    ensures entries { (own : NodeId) → OnOk result (found.new.items ≡ found.old.items ++ by_number ids.now tail (entries_of_listed own 0 routers.now)) }
    ensures refused { IfErr result (λ error. error ≡ AreaError.NoMemory) }
{
    check_numbers(routers.len())?;
    found.reserve(routers.len())?;
    for (place, router) in routers.iter().enumerate() {
        put(found, of_listed(ids, tail, place, *router));
    }
    Ok(())
}

/// Adds an entry, if there is one, where there is room.
fn put(found: &mut Vec<NumberedEntry>, entry: Option<NumberedEntry>)
    requires { vec_len found.old < vec_capacity found.old }
    ensures items { found.new.items ≡ found.old.items ++ option_to_list entry }
    ensures len { vec_len found.new ≤ vec_len found.old + 1 }
    ensures capacity { vec_capacity found.new ≡ vec_capacity found.old }
{
    if let Some(entry) = entry {
        found.push_reserved(entry);
    }
}

/// The entry for a link, if it leads to a node.
fn of_link(
    ids: &[NodeId],
    tail: usize,
    own: NodeId,
    place: usize,
    link: &RouterLink,
) -> Option<NumberedEntry>
    requires ascend { IsStrictlySortedBy node_id_cmp ids.now }
    requires few { length ids.now < 2 ^ 32 }
    requires tail { tail < 2 ^ 32 }
    requires place { place < 2 ^ 32 }
    ensures { result ≡ option_and_then (numbered_entry ids.now tail) (entry_of_link own place link.now) }
{
    let far = place_of(ids, far_end(own, link)?)?;
    Some(NumberedEntry {
        tail: tail as u32,
        far: far as u32,
        metric: link.metric,
        link_data: link.link_data,
        place: place as u32,
    })
}

/// Where a link of the router `own` leads, if it is to a node.
fn far_end(own: NodeId, link: &RouterLink) -> Option<NodeId>
    ensures { result ≡ far_of own.number link.now }
{
    match link.kind {
        POINT_TO_POINT if link.id != own.number => Some(NodeId::router(link.id)),
        TRANSIT => Some(NodeId::network(link.id)),
        _ => None,
    }
}

/// The entry for a router that a network lists, if it is a node.
fn of_listed(ids: &[NodeId], tail: usize, place: usize, router: u32) -> Option<NumberedEntry>
    requires ascend { IsStrictlySortedBy node_id_cmp ids.now }
    requires few { length ids.now < 2 ^ 32 }
    requires tail { tail < 2 ^ 32 }
    requires place { place < 2 ^ 32 }
    ensures { (own : NodeId) → result ≡ numbered_entry ids.now tail (entry_of_listed own place router) }
{
    let far = place_of(ids, NodeId::router(router))?;
    Some(NumberedEntry {
        tail: tail as u32,
        far: far as u32,
        metric: 0,
        link_data: 0,
        place: place as u32,
    })
}
