//! The fields of a certificate file.

ghost use Rattle.std.specs.Prelude.{◌≡◌, ◌<◌, ◌^◌, ◌-◌, ◌&&◌, nat_le, nat_lt};
ghost use Rattle.std.specs.Int.{w8, w16, w32};
ghost use Rattle.cert_format.specs.{Layout.any, steps.Reading.ReadsField};

use crate::error::{CertFault, CertKind};
use crate::rest::Rest;

/// A number of 8 bits from `least` on, below `bound`; any other one is this fault.
pub fn field8(
    rest: Rest<'_>,
    least: u32,
    bound: u32,
    kind: CertKind,
) -> Result<(u8, Rest<'_>), CertFault>
    requires { rest.at < 2 ^ 32 - 1 }
    ensures { ReadsField (record { width = w8; least = least; bound = bound; fault = kind }) rest.entry result }
{
    let at = rest.at();
    let (number, rest) = rest.u8()?;
    if !is_within(u32::from(number), least, bound) {
        return Err(CertFault { at, kind });
    }
    Ok((number, rest))
}

/// The same of 16 bits.
pub fn field16(
    rest: Rest<'_>,
    least: u32,
    bound: u32,
    kind: CertKind,
) -> Result<(u16, Rest<'_>), CertFault>
    requires { rest.at < 2 ^ 32 - 2 }
    ensures { ReadsField (record { width = w16; least = least; bound = bound; fault = kind }) rest.entry result }
{
    let at = rest.at();
    let (number, rest) = rest.u16()?;
    if !is_within(u32::from(number), least, bound) {
        return Err(CertFault { at, kind });
    }
    Ok((number, rest))
}

/// The same of 32 bits.
pub fn field32(
    rest: Rest<'_>,
    least: u32,
    bound: u32,
    kind: CertKind,
) -> Result<(u32, Rest<'_>), CertFault>
    requires { rest.at < 2 ^ 32 - 4 }
    ensures { ReadsField (record { width = w32; least = least; bound = bound; fault = kind }) rest.entry result }
{
    let at = rest.at();
    let (number, rest) = rest.u32()?;
    if !is_within(number, least, bound) {
        return Err(CertFault { at, kind });
    }
    Ok((number, rest))
}

/// A number of 32 bits, whichever it is.
pub fn any_u32(rest: Rest<'_>) -> Result<(u32, Rest<'_>), CertFault>
    requires { rest.at < 2 ^ 32 - 4 }
    ensures { ReadsField (any w32) rest.entry result }
{
    rest.u32()
}

fn is_within(number: u32, least: u32, bound: u32) -> bool
    ensures { result ≡ (nat_le least number && nat_lt number bound) }
{
    least <= number && number < bound
}
