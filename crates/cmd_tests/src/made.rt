//! Large files, which are made: `zeros:COUNT`, bytes 0; `ring:ROUTERS:LINKS`, routers in a ring with so many links between neighbours;
//! `packets:FIRST:OTHERS`, two packets of so many routers without links.

use mrt_io::zeros;
use std::alloc::Global;

/// Puts bytes at the end of a file. Those for which there is no memory are left out, so the row differs then.
pub fn put(file: &mut Vec<u8>, bytes: &[u8]) {
    let _ = file.extend_from_slice(bytes);
}

/// The file that a word tells, if it tells one.
pub fn made(alloc: Global, word: &str) -> Option<Vec<u8>> {
    let (kind, numbers) = word.split_once(':')?;
    let (first, second) = numbers.split_once(':').unwrap_or((numbers, "0"));
    let first = first.parse::<u32>().ok()?;
    let second = second.parse::<u32>().ok()?;
    match kind {
        "zeros" => zeros(alloc, first as usize).ok(),
        "ring" => Some(ring(alloc, first, second)),
        "packets" => Some(packets(alloc, first, second)),
        _ => None,
    }
}

/// The routers 1 to `count` in a ring, with so many links to the next one and to the one before.
fn ring(alloc: Global, count: u32, links: u32) -> Vec<u8> {
    let mut file = Vec::new(alloc);
    for number in 0..count {
        let next = number.wrapping_add(1) % count;
        let before = number.wrapping_add(count).wrapping_sub(1) % count;
        put_router(&mut file, alloc, number, &[(next, 1), (before, 2)], links);
    }
    file
}

/// Two packets (RFC 2328, section A.3.5): one of so many routers without links, and one of so many others.
fn packets(alloc: Global, first: u32, others: u32) -> Vec<u8> {
    let mut file = Vec::new(alloc);
    for (from, count) in [(0, first), (first, others)] {
        let [_, _, high, low] = count.wrapping_mul(24).wrapping_add(28).to_be_bytes();
        put(&mut file, &[2, 4, high, low, 1, 1, 1, 1]);
        put(&mut file, &[0; 16]);
        put(&mut file, &count.to_be_bytes());
        for number in 0..count {
            put_router(&mut file, alloc, from.wrapping_add(number), &[], 0);
        }
    }
    file
}

/// Adds the first instance of the router after this number (RFC 2328, section A.4), with so many point-to-point links of metric
/// 1 to each of the routers after these, whose link data are told too.
fn put_router(
    file: &mut Vec<u8>,
    alloc: Global,
    number: u32,
    neighbours: &[(u32, u8)],
    links: u32,
) {
    let mut lsa = Vec::new(alloc);
    let [i, j, k, l] = number.wrapping_add(1).to_be_bytes();
    put(
        &mut lsa,
        &[0, 1, 2, 1, i, j, k, l, i, j, k, l, 0x80, 0, 0, 1],
    );
    put(&mut lsa, &[0; 8]);
    for (to, link_data) in neighbours {
        let [i, j, k, l] = to.wrapping_add(1).to_be_bytes();
        for _ in 0..links {
            put(&mut lsa, &[i, j, k, l, 0, 0, 0, *link_data, 1, 0, 0, 1]);
        }
    }
    seal(&mut lsa);
    put(file, &lsa);
}

/// Puts two bytes in at a place.
fn put_at(lsa: &mut [u8], at: usize, bytes: [u8; 2]) {
    if let Some(slot) = lsa.get_mut(at) {
        *slot = bytes[0];
    }
    if let Some(slot) = lsa.get_mut(at.wrapping_add(1)) {
        *slot = bytes[1];
    }
}

/// Puts the count of links, the length and the checksum into a router-LSA.
fn seal(lsa: &mut [u8]) {
    let length = (lsa.len() % 65_536) as u16;
    let links = (length.wrapping_sub(24)) / 12;
    put_at(lsa, 22, links.to_be_bytes());
    put_at(lsa, 18, length.to_be_bytes());
    let check = checksum(lsa, u32::from(length).wrapping_sub(2));
    put_at(lsa, 16, check);
}

/// A check byte, in which a remainder 0 is written as 255 (RFC 905, annex B).
fn check_byte(number: u32) -> u8 {
    match number % 255 {
        0 => 255,
        byte => byte as u8,
    }
}

/// The two Fletcher sums of what stands after the age, the second of all that the first has been (RFC 905, annex B).
fn sums(lsa: &[u8]) -> (u32, u32) {
    let mut first: u32 = 0;
    let mut second: u32 = 0;
    for byte in &lsa[lsa.len().min(2)..] {
        first = first.wrapping_add(u32::from(*byte)) % 255;
        second = second.wrapping_add(first) % 255;
    }
    (first, second)
}

/// The checksum of an LSA, of which so many bytes stand after the age, and whose own checksum is 0 (RFC 2328, section
/// 12.1.7).
fn checksum(lsa: &[u8], count: u32) -> [u8; 2] {
    let (first, second) = sums(lsa);
    let left = 255u32.wrapping_sub(first);
    let high = count.wrapping_sub(15).wrapping_mul(first);
    let low = count.wrapping_sub(14).wrapping_mul(left);
    [
        check_byte(high.wrapping_add(255u32.wrapping_sub(second))),
        check_byte(low.wrapping_add(second)),
    ]
}
