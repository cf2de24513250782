//! Parts of a certificate file one after another.

ghost use Rattle.std.specs.Prelude.{◌≡◌, ◌<◌, ◌≤◌, ◌+◌, ◌-◌, ◌*◌, ◌^◌, ◌++◌, length, vec_len, vec_capacity};
ghost use Rattle.std.specs.List.{flat_map};
ghost use Rattle.cert_format.specs.steps.Reading.{ReadsList};

use crate::error::CertError;
use crate::header::Header;
use crate::part::Part;
use crate::rest::Rest;

/// How many bytes a part has at least.
const LEAST: usize = 5;

/// Reads parts until there are so many. Room is taken before the first one is read, for one for each five bytes of the rest at most.
pub fn read_parts<'a, P: Part>(
    parts: &mut Vec<P>,
    rest: Rest<'a>,
    count: usize,
    header: Header,
) -> Result<Rest<'a>, CertError>
    requires sized { (part : P) → length (P.text part) ≡ P.size }
    requires long { 5 ≤ P.size }
    requires few { vec_len parts.old ≤ count }
    requires place { rest.at + P.size * count < 2 ^ 32 - 16 }
    ensures { ReadsList (P.form header) P.text (P.keeps header) count parts.old.items parts.new.items rest.entry result }
{
    let lacking = count - parts.len();
    parts.reserve(lacking.min(rest.len() / LEAST))?;
    let mut rest = rest;
    for _ in 0..lacking {
        let (part, after) = P::read(rest.again(), header)?;
        parts.push_reserved(part);
        rest = after;
    }
    Ok(rest)
}

/// Puts parts after the bytes that are there, where there is room for all of them.
#[inline(never)]
pub fn put_parts<P: Part>(out: &mut Vec<u8>, version: u16, parts: &[P])
    requires { vec_len out.old + length (flat_map (P.text_in version) parts.now) ≤ vec_capacity out.old }
    ensures text { out.new.items ≡ out.old.items ++ flat_map (P.text_in version) parts.now }
    ensures capacity { vec_capacity out.old ≤ vec_capacity out.new }
{
    for part in parts {
        part.put(version, out);
    }
}
