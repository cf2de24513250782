//! One field after another.

ghost use Rattle.std.specs.Prelude.{◌≡◌, ◌<◌, ◌^◌, ◌-◌, length};

use crate::error::{CertFault, CertKind};
use std::marker::Model;

/// What is left of a file, and the place of its first byte in the file.
#[derive(Drop)]
pub struct Rest<'a> {
    at: u32,
    bytes: &'a [u8],
}

impl<'a> Model for Rest<'a> {
    ghost use Rattle.cert_format.specs.steps.Reading.{Rest, rest_of};

    ghost Value = { Rest };

    ghost view = { λ r. rest_of r.at r.bytes.now };
}

impl<'a> Rest<'a> {
    ghost use Rattle.std.specs.Int.{w8, w16, w32};
    ghost use Rattle.cert_format.specs.steps.Reading.{Ends, ReadsNumber, rest_of};

    pub fn new(at: u32, bytes: &'a [u8]) -> Rest<'a>
        ensures { result ≡ rest_of at bytes.now }
    {
        Rest { at, bytes }
    }

    /// The same rest once more.
    pub fn again(&self) -> Rest<'a>
        ensures { result ≡ self.now }
    {
        Rest {
            at: self.at,
            bytes: self.bytes,
        }
    }

    /// The place of the first byte that is left.
    pub fn at(&self) -> u32
        ensures { result ≡ self.now.at }
    {
        self.at
    }

    /// How many bytes are left.
    pub fn len(&self) -> usize
        ensures { result ≡ length self.now.bytes }
    {
        self.bytes.len()
    }

    /// Nothing is left after the last part.
    pub fn end(self) -> Result<(), CertFault>
        ensures { Ends self.entry result }
    {
        if self.bytes.is_empty() {
            return Ok(());
        }
        Err(CertFault {
            at: self.at,
            kind: CertKind::Trailing,
        })
    }

    pub fn u8(self) -> Result<(u8, Rest<'a>), CertFault>
        requires { self.at < 2 ^ 32 - 1 }
        ensures { ReadsNumber w8 self.entry result }
    {
        let at = self.at;
        let Some((byte, bytes)) = self.bytes.split_first() else {
            return Err(CertFault {
                at,
                kind: CertKind::Truncated,
            });
        };
        Ok((*byte, Rest { at: at + 1, bytes }))
    }

    pub fn u16(self) -> Result<(u16, Rest<'a>), CertFault>
        requires { self.at < 2 ^ 32 - 2 }
        ensures { ReadsNumber w16 self.entry result }
    {
        let at = self.at;
        let Some((&[high, low], bytes)) = self.bytes.split_first_chunk::<2>() else {
            return Err(CertFault {
                at,
                kind: CertKind::Truncated,
            });
        };
        Ok((u16::from_be_bytes([high, low]), Rest { at: at + 2, bytes }))
    }

    pub fn u32(self) -> Result<(u32, Rest<'a>), CertFault>
        requires { self.at < 2 ^ 32 - 4 }
        ensures { ReadsNumber w32 self.entry result }
    {
        let at = self.at;
        let Some((&[a, b, c, d], bytes)) = self.bytes.split_first_chunk::<4>() else {
            return Err(CertFault {
                at,
                kind: CertKind::Truncated,
            });
        };
        Ok((u32::from_be_bytes([a, b, c, d]), Rest { at: at + 4, bytes }))
    }
}
