//! What stands after the header of an LSA, by its type.

ghost use Rattle.std.specs.Prelude.{◌≡◌, ◌≤◌, IfOk, IfSome, length};
ghost use Rattle.std.specs.Option.{option_map};
ghost use Rattle.ospf_lsa.specs.steps.Reading.{body_links, network_body, router_body, typed_body};

use crate::error::LsaKind;
use crate::field::{after, number_8, number_16, number_32, numbers};
use crate::link::{any_zero_metric, links};
use crate::lsa::{Body, NETWORK_LSA, ROUTER_LSA, RouterLink};
use mrt_graph::Seq;
use std::alloc::{AllocError, Global};

/// The body of an LSA of this type, or its first fault.
pub fn body(alloc: Global, kind: u8, bytes: &[u8]) -> Result<Result<Body, LsaKind>, AllocError>
    ensures { IfOk result (λ body. body ≡ typed_body kind bytes.now) }
{
    if kind == ROUTER_LSA {
        return router(alloc, bytes);
    }
    if kind == NETWORK_LSA {
        return network(alloc, bytes);
    }
    let bytes = Seq::from_vec(Vec::from_slice(alloc, bytes)?);
    Ok(Ok(Body::Other { bytes }))
}

/// The body of a router-LSA (RFC 2328, section A.4.2).
fn router(alloc: Global, bytes: &[u8]) -> Result<Result<Body, LsaKind>, AllocError>
    ensures { IfOk result (λ body. body ≡ router_body bytes.now) }
{
    let Some((links, tos)) = links_of_body(alloc, bytes)? else {
        return Ok(Err(LsaKind::Body));
    };
    if any_zero_metric(&links) {
        return Ok(Err(LsaKind::ZeroMetric));
    }
    Ok(Ok(Body::Router {
        flags: number_8(bytes, 0),
        spare: number_8(bytes, 1),
        links: Seq::from_vec(links),
        tos: Seq::from_vec(tos),
    }))
}

/// The links of a router-LSA's body and the TOS entries of all of them, where it is one.
fn links_of_body(
    alloc: Global,
    body: &[u8],
) -> Result<Option<(Vec<RouterLink>, Vec<u32>)>, AllocError>
    ensures links { IfOk result (λ links. option_map (λ v. (v.0.items, v.1.items)) links ≡ body_links body.now) }
    ensures front { IfOk result (λ links. IfSome links (λ v. 4 ≤ length body.now)) }
{
    if body.len() < 4 {
        return Ok(None);
    }
    links(alloc, &body[4..], number_16(body, 2))
}

/// The body of a network-LSA (RFC 2328, section A.4.3).
fn network(alloc: Global, bytes: &[u8]) -> Result<Result<Body, LsaKind>, AllocError>
    ensures { IfOk result (λ body. body ≡ network_body bytes.now) }
{
    if bytes.len() < 4 {
        return Ok(Err(LsaKind::Body));
    }
    if bytes.len() % 4 != 0 {
        return Ok(Err(LsaKind::Body));
    }
    let routers = numbers(alloc, after(bytes, 4), (bytes.len() - 4) / 4)?;
    Ok(Ok(Body::Network {
        mask: number_32(bytes, 0),
        routers: Seq::from_vec(routers),
    }))
}
