//! The links of a router-LSA (RFC 2328, section A.4.2).

ghost use Rattle.std.specs.Prelude.{◌≡◌, ◌≤◌, IfOk, IfSome, length};
ghost use Rattle.std.specs.{List.list_any, Option.option_map};
ghost use Rattle.ospf_lsa.specs.steps.Reading.{first_link, link_length, links_in};
ghost use Rattle.ospf_lsa.specs.Lsas.{has_zero_metric};

use crate::field::{add_numbers, after, number_8, number_16, number_32};
use crate::lsa::{POINT_TO_POINT, RouterLink, TRANSIT};
use std::alloc::{AllocError, Global};

/// How many bytes a link has without its TOS entries.
pub const LINK: usize = 12;

/// So many links, and the TOS entries of all of them, and nothing after them, where the bytes are that.
pub fn links(
    alloc: Global,
    bytes: &[u8],
    count: u16,
) -> Result<Option<(Vec<RouterLink>, Vec<u32>)>, AllocError>
    ensures { IfOk result (λ found. option_map (λ v. (v.0.items, v.1.items)) found ≡ links_in count bytes.now) }
{
    let most = usize::from(count).min(bytes.len() / LINK);
    let mut links = Vec::with_capacity(alloc, most)?;
    let mut tos = Vec::with_capacity(alloc, (bytes.len() - LINK * most) / 4)?;
    let mut rest = bytes;
    for _ in 0..count {
        let Some(link) = first_link(rest) else {
            return Ok(None);
        };
        let entries = usize::from(link.entries);
        add_numbers(&mut tos, after(rest, LINK), entries)?;
        links.push_reserved(link);
        rest = after(rest, LINK + 4 * entries);
    }
    if rest.is_empty() {
        Ok(Some((links, tos)))
    } else {
        Ok(None)
    }
}

/// The link at the front, where it is whole with its TOS entries.
fn first_link(bytes: &[u8]) -> Option<RouterLink>
    ensures value { result ≡ first_link bytes.now }
    ensures within { IfSome result (λ link. link_length link ≤ length bytes.now) }
{
    if bytes.len() < LINK {
        return None;
    }
    let link = RouterLink {
        id: number_32(bytes, 0),
        link_data: number_32(bytes, 4),
        kind: number_8(bytes, 8),
        entries: number_8(bytes, 9),
        metric: number_16(bytes, 10),
    };
    if bytes.len() < LINK + 4 * usize::from(link.entries) {
        return None;
    }
    Some(link)
}

/// Whether a link to a router or to a transit network has metric 0.
pub fn any_zero_metric(links: &[RouterLink]) -> bool
    ensures { result ≡ list_any has_zero_metric links.now }
{
    for link in links {
        if is_zero_metric(link) {
            return true;
        }
    }
    false
}

fn is_zero_metric(link: &RouterLink) -> bool
    ensures { result ≡ has_zero_metric link.now }
{
    link.metric == 0 && (link.kind == POINT_TO_POINT || link.kind == TRANSIT)
}
