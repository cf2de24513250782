//! The router-LSAs of a network that is made.

ghost use Rattle.std.specs.Prelude.{◌≡◌, ◌≤◌, ◌++◌, IfOk, length};
ghost use Rattle.std.specs.Option.{option_to_list};
ghost use Rattle.ospf_lsa.specs.LsaText.{lsa_text};
ghost use Rattle.mrt_survey.specs.MadeLsas.{end_at, ends_of, link_to, lsa_of, plain_lsa};

use crate::made_link::MadeLink;
use mrt_graph::{NoMemory, Seq};
use ospf_lsa::{Body, Lsa, ROUTER_LSA, RouterLink, write_lsa};
use std::alloc::Global;

/// The type of a point-to-point link (RFC 2328, section A.4.2).
const POINT_TO_POINT: u8 = 1;

/// The first sequence number (RFC 2328, section 12.1.6).
const FIRST_SEQUENCE: i32 = -0x7fff_ffff;

/// Puts a router's LSA at the end of a database.
pub fn put_lsa(
    bytes: &mut Vec<u8>,
    alloc: Global,
    links: &[MadeLink],
    router: u32,
) -> Result<(), NoMemory>
    requires { length links.now ≤ 4096 }
    ensures { IfOk result (λ _. bytes.new.items
        ≡ bytes.old.items ++ lsa_text (lsa_of links.now router)) }
{
    let lsa = router_lsa(alloc, links, router)?;
    let text = write_lsa(alloc, &lsa)?;
    bytes.extend_from_slice(&text)?;
    Ok(())
}

/// A router's LSA; its checksum is made where it is written.
fn router_lsa(alloc: Global, links: &[MadeLink], router: u32) -> Result<Lsa, NoMemory>
    requires { length links.now ≤ 4096 }
    ensures { IfOk result (λ lsa. lsa ≡ plain_lsa links.now router) }
{
    let ends = ends(alloc, links, router)?;
    Ok(Lsa {
        at: 0,
        age: 1,
        options: 2,
        kind: ROUTER_LSA,
        id: router,
        router,
        sequence: FIRST_SEQUENCE,
        checksum: 0,
        body: Body::Router {
            flags: 0,
            spare: 0,
            links: Seq::from_vec(ends),
            tos: Seq::from_vec(Vec::new(alloc)),
        },
    })
}

/// A router's ends of the links.
fn ends(alloc: Global, links: &[MadeLink], router: u32) -> Result<Vec<RouterLink>, NoMemory>
    requires { length links.now ≤ 4096 }
    ensures { IfOk result (λ ends. ends.items ≡ ends_of links.now router) }
{
    let mut found = Vec::new(alloc);
    for (place, link) in links.iter().enumerate() {
        put_end(&mut found, end(link, router, place as u32 + 1))?;
    }
    Ok(found)
}

/// Puts a router's end of a link, if it has one, after the others.
fn put_end(found: &mut Vec<RouterLink>, end: Option<RouterLink>) -> Result<(), NoMemory>
    ensures { IfOk result (λ _. found.new.items ≡ found.old.items ++ option_to_list end) }
{
    if let Some(end) = end {
        found.push(end)?;
    }
    Ok(())
}

/// A router's end of a link with its number, if it has one.
fn end(link: &MadeLink, router: u32, number: u32) -> Option<RouterLink>
    ensures { result ≡ end_at router (number, link.now) }
{
    if link.first == router {
        Some(link_of(link.second, number, link.first_metric))
    } else if link.second == router {
        Some(link_of(link.first, number, link.second_metric))
    } else {
        None
    }
}

/// A point-to-point link to a router.
fn link_of(router: u32, number: u32, metric: u16) -> RouterLink
    ensures { result ≡ link_to router number metric }
{
    RouterLink {
        id: router,
        link_data: number,
        kind: POINT_TO_POINT,
        entries: 0,
        metric,
    }
}
