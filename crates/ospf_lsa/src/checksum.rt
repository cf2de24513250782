//! The Fletcher checksum (RFC 2328, section 12.1.7).

ghost use Rattle.std.specs.Prelude.{◌≡◌, ◌≤◌, ◌<◌, ◌+◌, ◌-◌, ◌*◌, length};
ghost use Rattle.ospf_lsa.specs.Checksum.{sums_from, sums_of, check_byte, fresh_checksum};

/// So many bytes are summed before a remainder is taken. The second sum is then at most
/// 254 + 4,096 · (254 + 255 · 4,096), which is less than 2³².
const RUN: usize = 4096;

/// The two Fletcher sums of the bytes, each below 255. For each byte the first sum becomes the first sum plus the byte,
/// then the second becomes the second plus the first, both modulo 255 (RFC 905, annex B).
///
/// Tests that make LSAs call it too.
///
/// It takes no memory and reads the bytes once.
///
/// It takes time in proportion to the bytes; one remainder is taken for each 4,096 of them.
pub fn sums(bytes: &[u8]) -> (u8, u8)
    ensures value { result ≡ sums_of bytes.now }
    ensures first { result.0 < 255 }
    ensures second { result.1 < 255 }
{
    let mut sums = (0, 0);
    let mut rest = bytes;
    while !rest.is_empty() {
        let (run, later) = rest.split_at(rest.len().min(RUN));
        sums = added(sums, run);
        rest = later;
    }
    sums
}

/// These sums with the bytes of a run added.
fn added(before: (u8, u8), run: &[u8]) -> (u8, u8)
    requires first { before.0 < 255 }
    requires second { before.1 < 255 }
    requires few { length run.now ≤ 4096 }
    ensures value { result ≡ sums_from before.0 before.1 run.now }
    ensures first_small { result.0 < 255 }
    ensures second_small { result.1 < 255 }
{
    let mut first = u32::from(before.0);
    let mut second = u32::from(before.1);
    for &byte in run {
        first += u32::from(byte);
        second += first;
    }
    ((first % 255) as u8, (second % 255) as u8)
}

/// The checksum of the bytes that it covers, in which its field of two bytes, after 14 others, is taken as 0 (RFC 905,
/// annex B). Both sums of these bytes are 0 where the field holds it.
#[tactic(auto, unfolding(crate::specs::Checksum::fresh_checksum))]
pub fn fresh(covered: &[u8]) -> u16
    requires few { length covered.now ≤ 65535 }
    requires header { 18 ≤ length covered.now }
    ensures { result ≡ fresh_checksum covered.now }
{
    let (first, second) = sums(covered);
    let (first, second) = (u32::from(first), u32::from(second));
    let count = covered.len() as u32;
    let high = check(first * (count - 15) + (255 - second));
    let low = check(second + (count - 14) * (255 - first));
    256 * u16::from(high) + u16::from(low)
}

/// A check byte of this number, in which a remainder 0 is written as 255.
fn check(number: u32) -> u8
    ensures { result ≡ check_byte number }
{
    match number % 255 {
        0 => 255,
        byte => byte as u8,
    }
}
