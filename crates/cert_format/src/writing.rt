//! Certificate files written.

ghost use Rattle.std.specs.Prelude.{◌≡◌, IfOk};
ghost use Rattle.cert_format.specs.{CertText.cert_text, Limits.IsCertFile, Limits.IsOfVersion};

use crate::cert_writer::CertWriter;
use mrt_graph::{CertFile, NoMemory};
use mrt_io::{PutFailed, Sink};
use std::alloc::Global;

/// The bytes of a certificate file: of n nodes, m links and r rows in the file `14 + 11n + 7m + 5r`. Of version 1 all
/// n(n - 1) rows stand in the file, of version 2 those that are not Carried.
/// Tests call it; `certify` and `upgrade` put a file in pieces ([`CertWriter`](crate::CertWriter)).
///
/// It takes time in proportion to the rows and to the bytes that it gives, and memory for at most twice these and 65,536
/// more.
///
/// # Errors
///
/// [`NoMemory`] where there was none for the bytes.
pub fn write_cert(alloc: Global, f: &CertFile) -> Result<Vec<u8>, NoMemory>
    requires { IsOfVersion f.now }
    ensures text { IfOk result (λ v. v.items ≡ cert_text f.now) }
    ensures within { IfOk result (λ _. IsCertFile f.now) }
{
    let writer = CertWriter::begun(alloc, f)?;
    let mut text = Text {
        bytes: Vec::new(alloc),
        faults: 0,
    };
    match writer.put_file(&mut text, f) {
        Ok(()) => Ok(text.into_bytes()),
        Err(_) => Err(NoMemory),
    }
}

/// Bytes in memory, which fail where there is none for more of them.
#[derive(Drop)]
struct Text {
    bytes: Vec<u8>,
    faults: u64,
}

impl Text {
    fn into_bytes(self) -> Vec<u8>
        ensures { result.items ≡ self.bytes.items }
    {
        let Self { bytes, faults: _ } = self;
        bytes
    }
}

impl Sink for Text {
    ghost use Rattle.std.specs.Prelude.{Some};

    ghost written = { λ text. Some text.bytes.items };

    ghost faults = { λ text. text.faults };

    ghost healthy_for = { λ _ _. ⊥ };

    ghost healthy_below = { λ _ _ never. absurd never };

    fn put(&mut self, piece: &[u8]) -> Result<u32, PutFailed> {
        let count = piece.len().min(u32::MAX as usize);
        if self.bytes.extend_from_slice(&piece[..count]).is_err() {
            self.faults = self.faults.saturating_add(1);
            return Err(PutFailed);
        }
        Ok(count as u32)
    }
}
