//! Hash tables of what a file names, so hashed that who writes the file cannot make its keys fall together.

use ospf_lsa::Lsa;
use sha2::{Digest, Sha256};
use std::hash::{BuildHasher, DefaultHasher, Hasher};

/// What a table is hashed by: SipHash-1-3, which has taken a SHA-256 digest first, of a file or of all keys in it.
///
/// So who changes a key of the table changes how all of them are hashed.
#[derive(Clone, Copy)]
pub struct FileKey {
    start: DefaultHasher,
}

impl FileKey {
    /// The key that the bytes of a file give.
    ///
    /// It takes time in proportion to the bytes.
    pub fn of(bytes: &[u8]) -> FileKey {
        FileKey::after(Sha256::digest(bytes))
    }

    /// The key that the keys of a file's LSAs give.
    ///
    /// It takes time in proportion to the LSAs, however long they are.
    pub(crate) fn of_lsas(lsas: &[Lsa]) -> FileKey {
        let mut keys = Sha256::new();
        for lsa in lsas {
            keys.update(key_bytes(lsa));
        }
        FileKey::after(keys.finalize())
    }

    fn after(digest: [u8; 32]) -> FileKey {
        let mut start = DefaultHasher::new();
        start.write(&digest);
        FileKey { start }
    }
}

/// The bytes of an LSA's key.
fn key_bytes(lsa: &Lsa) -> [u8; 9] {
    let mut bytes = [0; 9];
    bytes[0] = lsa.kind;
    bytes[1..5].copy_from_slice(&lsa.id.to_be_bytes());
    bytes[5..].copy_from_slice(&lsa.router.to_be_bytes());
    bytes
}

impl BuildHasher for FileKey {
    type Hasher = DefaultHasher;

    ghost build_hasher = { λ key. key.start };

    fn build_hasher(&self) -> DefaultHasher {
        self.start
    }
}
