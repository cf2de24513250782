//! LSAs written.

ghost use Rattle.std.specs.Prelude.{◌≡◌, ◌≤◌, ◌<◌, ◌+◌, ◌*◌, ◌^◌, ◌++◌, IfOk, [], ◌∷◌, length, vec_len, vec_capacity};
ghost use Rattle.std.specs.{Int.w32, Int.to_be_bytes, List.flat_map, List.AllByRecursion};
ghost use Rattle.ospf_lsa.specs.LsaText.{link_text, links_text, body_text, header_text, lsa_length, lsa_text, lsas_text};
ghost use Rattle.ospf_lsa.specs.Lsas.{AreEntriesOf, AreLsas, FitsBody, FitsHeader, FitsLink, Is32Bits, IsByte, IsOfType};
ghost use Rattle.ospf_lsa.specs.Written.{renewed, renewed_at_front, with_checksum, HasItsEntries, IsReadable};

use crate::checksum::fresh;
use crate::field::after;
use crate::link::LINK;
use crate::lsa::{Body, Lsa, RouterLink};
use crate::record::HEADER;
use mrt_graph::NoMemory;
use std::alloc::Global;

/// How many bytes the age has, which the checksum does not cover (RFC 2328, section 12.1.7).
const AGE: usize = 2;

/// The place of the checksum field (RFC 2328, section A.4.1).
const CHECKSUM: usize = 16;

/// The bytes of an LSA (RFC 2328, section A.4), with its length and a fresh checksum (section 12.1.7); its own
/// `checksum` is not used.
///
/// The type must be 1 for a router-LSA's body, 2 for a network-LSA's, and another one for [`Body::Other`]. A router-LSA
/// must have as many TOS entries as its links say, and the whole may have at most 65,535 bytes.
///
/// Where its sequence number is not the reserved one, a router-LSA has its advertising router as link state ID, and no
/// link to a router or to a transit network in it has metric 0, [`read_lsas`](crate::read_lsas) reads this one LSA
/// from the bytes, equal but for `at`, which is 0, and for the checksum.
///
/// It takes time in proportion to the bytes that it gives, which are reserved once and summed once.
///
/// # Errors
///
/// [`NoMemory`] where there was none for the bytes.
pub fn write_lsa(alloc: Global, lsa: &Lsa) -> Result<Vec<u8>, NoMemory>
    requires kind { IsOfType lsa.now.kind lsa.now.body }
    requires entries { HasItsEntries lsa.now.body }
    requires fits { lsa_length lsa.now ≤ 65535 }
    ensures text { IfOk result (λ bytes. bytes.items ≡ lsa_text (renewed lsa.now)) }
    ensures len { IfOk result (λ bytes. length bytes.items ≡ lsa_length lsa.now) }
    // What is written is read as the one LSA.
    ensures read { IsReadable lsa.now → IfOk result (λ bytes.
        AreLsas 0 (renewed_at_front lsa.now ∷ [])
        × (bytes.items ≡ lsas_text (renewed_at_front lsa.now ∷ []))) }
{
    let mut bytes = unchecked(alloc, lsa)?;
    let checksum = fresh(after(&bytes, AGE));
    let [high, low] = checksum.to_be_bytes();
    bytes[CHECKSUM] = high;
    bytes[CHECKSUM + 1] = low;
    Ok(bytes)
}

/// The bytes of an LSA with the checksum 0.
fn unchecked(alloc: Global, lsa: &Lsa) -> Result<Vec<u8>, NoMemory>
    requires kind { IsOfType lsa.now.kind lsa.now.body }
    requires entries { HasItsEntries lsa.now.body }
    requires fits { lsa_length lsa.now ≤ 65535 }
    ensures text { IfOk result (λ bytes. bytes.items ≡ lsa_text (with_checksum lsa.now 0)) }
    ensures header { IfOk result (λ bytes. FitsHeader lsa.now) }
    ensures body { IfOk result (λ bytes. FitsBody lsa.now.body) }
{
    let length = HEADER + body_length(&lsa.body);
    let mut bytes = Vec::with_capacity(alloc, length)?;
    bytes
        .extend_from_slice(&header(lsa, length as u16))
        .unwrap();
    put_body(&mut bytes, lsa.kind, &lsa.body);
    Ok(bytes)
}

/// How many bytes a body has.
fn body_length(body: &Body) -> usize
    requires entries { HasItsEntries body.now }
    requires short { length (body_text body.now) < 2 ^ 16 }
    ensures { result ≡ length (body_text body.now) }
{
    match body {
        Body::Router { links, tos, .. } => 4 + links_length(links.as_slice(), tos.as_slice()),
        Body::Network { routers, .. } => 4 + 4 * routers.as_slice().len(),
        Body::Other { bytes } => bytes.as_slice().len(),
    }
}

/// How many bytes links have with their TOS entries.
fn links_length(links: &[RouterLink], tos: &[u32]) -> usize
    requires entries { AreEntriesOf links.now tos.now }
    requires short { length (links_text links.now tos.now) < 2 ^ 16 }
    ensures { result ≡ length (links_text links.now tos.now) }
{
    LINK * links.len() + 4 * tos.len()
}

/// The header of an LSA of this length with the checksum 0.
fn header(lsa: &Lsa, length: u16) -> [u8; 20]
    ensures text { result ≡ header_text (with_checksum lsa.now 0) length }
    ensures fits { FitsHeader lsa.now }
{
    let Lsa {
        age,
        options,
        kind,
        id,
        router,
        sequence,
        ..
    } = lsa;
    let [age, age_low] = age.to_be_bytes();
    let [i, j, k, l] = id.to_be_bytes();
    let [r, s, t, u] = router.to_be_bytes();
    let [a, b, c, d] = sequence.to_be_bytes();
    let [length, length_low] = length.to_be_bytes();
    [
        age, age_low, *options, *kind, i, j, k, l, r, s, t, u, a, b, c, d, 0, 0, length, length_low,
    ]
}

/// Adds a body.
fn put_body(out: &mut Vec<u8>, kind: u8, body: &Body)
    requires kind { IsOfType kind body.now }
    requires entries { HasItsEntries body.now }
    requires short { length (body_text body.now) < 2 ^ 16 }
    requires room { vec_len out.old + length (body_text body.now) ≤ vec_capacity out.old }
    ensures text { out.new.items ≡ out.old.items ++ body_text body.now }
    ensures fits { FitsBody body.now }
{
    match body {
        Body::Router {
            flags,
            spare,
            links,
            tos,
        } => put_router(out, *flags, *spare, links.as_slice(), tos.as_slice()),
        Body::Network { mask, routers } => put_network(out, *mask, routers.as_slice()),
        Body::Other { bytes } => put_bytes(out, bytes.as_slice()),
    }
}

/// Adds the body of a router-LSA (RFC 2328, section A.4.2).
fn put_router(out: &mut Vec<u8>, flags: u8, spare: u8, links: &[RouterLink], tos: &[u32])
    requires entries { AreEntriesOf links.now tos.now }
    requires short { length (links_text links.now tos.now) < 2 ^ 16 }
    requires room { vec_len out.old + (4 + length (links_text links.now tos.now)) ≤ vec_capacity out.old }
    ensures text { out.new.items ≡ out.old.items ++ body_text (Body.Router flags spare links.now tos.now) }
    ensures fits { FitsBody (Body.Router flags spare links.now tos.now) }
{
    let [count, count_low] = (links.len() as u16).to_be_bytes();
    out.extend_from_slice(&[flags, spare, count, count_low])
        .unwrap();
    put_links(out, links, tos);
}

/// Adds links, each with its TOS entries after it.
fn put_links(out: &mut Vec<u8>, links: &[RouterLink], tos: &[u32])
    requires entries { AreEntriesOf links.now tos.now }
    requires room { vec_len out.old + length (links_text links.now tos.now) ≤ vec_capacity out.old }
    ensures text { out.new.items ≡ out.old.items ++ links_text links.now tos.now }
    ensures links_fit { AllByRecursion FitsLink links.now }
    ensures entries_fit { AllByRecursion Is32Bits tos.now }
{
    let mut rest = tos;
    for link in links {
        let (entries, later) = rest.split_at(usize::from(link.entries));
        put_link(out, link, entries);
        rest = later;
    }
}

/// Adds a link with these TOS entries after it.
fn put_link(out: &mut Vec<u8>, link: &RouterLink, entries: &[u32])
    requires room { vec_len out.old + (12 + length (flat_map (to_be_bytes w32) entries.now)) ≤ vec_capacity out.old }
    ensures text { out.new.items ≡ out.old.items ++ (link_text link.now ++ flat_map (to_be_bytes w32) entries.now) }
    ensures capacity { vec_capacity out.old ≤ vec_capacity out.new }
    ensures fits { FitsLink link.now }
{
    out.extend_from_slice(&link_bytes(link)).unwrap();
    put_numbers(out, entries);
}

/// The bytes of a link without its TOS entries.
fn link_bytes(link: &RouterLink) -> [u8; 12]
    ensures text { result ≡ link_text link.now }
    ensures fits { FitsLink link.now }
{
    let RouterLink {
        id,
        link_data,
        kind,
        entries,
        metric,
    } = link;
    let [i, j, k, l] = id.to_be_bytes();
    let [a, b, c, d] = link_data.to_be_bytes();
    let [metric, metric_low] = metric.to_be_bytes();
    [i, j, k, l, a, b, c, d, *kind, *entries, metric, metric_low]
}

/// Adds the body of a network-LSA (RFC 2328, section A.4.3).
fn put_network(out: &mut Vec<u8>, mask: u32, routers: &[u32])
    requires { vec_len out.old + (4 + length (flat_map (to_be_bytes w32) routers.now)) ≤ vec_capacity out.old }
    ensures text { out.new.items ≡ out.old.items ++ body_text (Body.Network mask routers.now) }
    ensures fits { FitsBody (Body.Network mask routers.now) }
{
    out.extend_from_slice(&mask.to_be_bytes()).unwrap();
    put_numbers(out, routers);
}

/// Adds numbers of 32 bits.
fn put_numbers(out: &mut Vec<u8>, numbers: &[u32])
    requires { vec_len out.old + length (flat_map (to_be_bytes w32) numbers.now) ≤ vec_capacity out.old }
    ensures text { out.new.items ≡ out.old.items ++ flat_map (to_be_bytes w32) numbers.now }
    ensures capacity { vec_capacity out.old ≤ vec_capacity out.new }
    ensures fit { AllByRecursion Is32Bits numbers.now }
{
    for number in numbers {
        out.extend_from_slice(&number.to_be_bytes()).unwrap();
    }
}

/// Adds bytes.
fn put_bytes(out: &mut Vec<u8>, bytes: &[u8])
    requires { vec_len out.old + length bytes.now ≤ vec_capacity out.old }
    ensures text { out.new.items ≡ out.old.items ++ bytes.now }
    ensures fit { AllByRecursion IsByte bytes.now }
{
    out.extend_from_slice(bytes).unwrap();
}
