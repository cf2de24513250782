//! The links of a network that is made: a ring, its chords, and spurs.

ghost use Rattle.std.specs.Prelude.{◌≡◌, ◌+◌, ◌-◌, ◌*◌, ◌≤◌, ◌<◌, ◌^◌, ◌++◌, IfOk, map};
ghost use Rattle.std.specs.{List.range_with_len, Vec.vec_capacity, Vec.vec_len};
ghost use Rattle.mrt_survey.specs.Draws.{draw_after, with_draws};
ghost use Rattle.mrt_survey.specs.MadeLinks.{
  chord_count,
  chord_link,
  drawn_from,
  made_link,
  made_links,
  metric_of,
  ring_count,
  ring_link,
  spur_count,
  spur_link,
};

use crate::draws::Draws;
use crate::made_link::MadeLink;
use mrt_graph::NoMemory;
use std::alloc::Global;

/// The links of a network of so many routers, in their order.
pub fn links_from(alloc: Global, number: u32, nodes: u16) -> Result<Vec<MadeLink>, NoMemory>
    requires few { 4 ≤ nodes }
    requires many { nodes ≤ 2048 }
    ensures { IfOk result (λ links. links.items ≡ made_links number nodes) }
{
    let nodes = u32::from(nodes);
    let spurs = nodes / 5;
    let ring = nodes - spurs;
    let chords = ring / 4;
    let mut links = Vec::with_capacity(alloc, (ring + chords + spurs) as usize)?;
    let mut draws = Draws {
        x: u64::from(number),
    };
    push_ring(&mut links, &mut draws, ring);
    push_chords(&mut links, &mut draws, ring, chords);
    push_spurs(&mut links, &mut draws, ring, spurs, number);
    Ok(links)
}

/// Puts the links of the ring at the end: of each router with the next one.
fn push_ring(links: &mut Vec<MadeLink>, draws: &mut Draws, ring: u32)
    requires some { 4 ≤ ring }
    requires few { ring ≤ 2048 }
    requires room { vec_len links.old + ring ≤ vec_capacity links.old }
    requires small { draws.old.x < 2 ^ 32 }
    ensures added { links.new.items ≡ links.old.items
        ++ map (ring_link ring (drawn_from draws.old.x 0)) (range_with_len 0 ring) }
    ensures drawn { draws.new.x ≡ with_draws (2 * ring) draws.old.x }
    ensures len { vec_len links.new ≡ vec_len links.old + ring }
    ensures room { vec_capacity links.old ≤ vec_capacity links.new }
    ensures small { draws.new.x < 2 ^ 32 }
{
    for i in 0..ring {
        let link = link_between(i + 1, (i + 1) % ring + 1, draws);
        links.push_reserved(link);
    }
}

/// Puts the chords at the end: of every fourth router with one that a draw gives.
fn push_chords(links: &mut Vec<MadeLink>, draws: &mut Draws, ring: u32, chords: u32)
    requires some { 4 ≤ ring }
    requires few { ring ≤ 2048 }
    requires fit { 4 * chords ≤ ring }
    requires room { vec_len links.old + chords ≤ vec_capacity links.old }
    requires small { draws.old.x < 2 ^ 32 }
    ensures added { links.new.items ≡ links.old.items
        ++ map (chord_link ring (drawn_from draws.old.x 0)) (range_with_len 0 chords) }
    ensures drawn { draws.new.x ≡ with_draws (3 * chords) draws.old.x }
    ensures len { vec_len links.new ≡ vec_len links.old + chords }
    ensures room { vec_capacity links.old ≤ vec_capacity links.new }
    ensures small { draws.new.x < 2 ^ 32 }
{
    for i in 0..chords {
        let far = 4 * i + 2 + draws.draw() % (ring - 3);
        let link = link_between(4 * i + 1, far % ring + 1, draws);
        links.push_reserved(link);
    }
}

/// Puts the spurs at the end: each joins a router of its own with one of the ring.
fn push_spurs(links: &mut Vec<MadeLink>, draws: &mut Draws, ring: u32, spurs: u32, number: u32)
    requires some { 4 ≤ ring }
    requires few { ring ≤ 2048 }
    requires fit { spurs ≤ ring }
    requires room { vec_len links.old + spurs ≤ vec_capacity links.old }
    requires small { draws.old.x < 2 ^ 32 }
    ensures added { links.new.items ≡ links.old.items
        ++ map (spur_link number ring (drawn_from draws.old.x 0)) (range_with_len 0 spurs) }
{
    for j in 0..spurs {
        let far = (3 * u64::from(j) + u64::from(number)) % u64::from(ring);
        let link = link_between(ring + 1 + j, far as u32 + 1, draws);
        links.push_reserved(link);
    }
}

/// A link between two routers, whose metrics are drawn.
fn link_between(first: u32, second: u32, draws: &mut Draws) -> MadeLink
    requires { draws.old.x < 2 ^ 32 }
    ensures link { result ≡ made_link first second (drawn_from draws.old.x 0) 0 }
    ensures drawn { draws.new.x ≡ with_draws 2 draws.old.x }
    ensures small { draws.new.x < 2 ^ 32 }
{
    MadeLink {
        first,
        second,
        first_metric: metric(draws),
        second_metric: metric(draws),
    }
}

/// A metric that is drawn, from 1 to 64.
fn metric(draws: &mut Draws) -> u16
    requires { draws.old.x < 2 ^ 32 }
    ensures value { result ≡ metric_of (draw_after 0 draws.old.x) }
    ensures drawn { draws.new.x ≡ with_draws 1 draws.old.x }
    ensures small { draws.new.x < 2 ^ 32 }
{
    1 + (draws.draw() % 64) as u16
}
