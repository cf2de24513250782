//! LSAs that are written.

ghost use Rattle.std.specs.Prelude.{◌≤◌};
ghost use Rattle.ospf_lsa.specs.LsaText.{lsa_length};
ghost use Rattle.ospf_lsa.specs.Lsas.{AreLsas, IsOfType};
ghost use Rattle.ospf_lsa.specs.Written.{HasItsEntries};

use crate::calls::Call;
use crate::lsas::put_read;
use crate::told::{address_at, byte_at, number_16_at, number_at, word};
use mrt_graph::{NoMemory, Seq};
use ospf_lsa::{Body, Lsa, write_lsa};
use parts_of_tests::Page;
use std::alloc::Global;

/// The bytes of LSAs that are written, a line each; `no LSA` where there are none.
pub fn put_all_written(alloc: Global, lsas: &[Lsa], page: &mut Page)
    requires { AreLsas 0 lsas.now }
{
    if lsas.is_empty() {
        page.put("no LSA\n");
    }
    for lsa in lsas {
        if let Ok(bytes) = write_lsa(alloc, lsa) {
            page.hex("", &bytes);
        }
        page.end();
    }
}

/// `written_router AT AGE OPTIONS ROUTER SEQUENCE CHECKSUM FLAGS SPARE`: a router-LSA without links, written and read.
pub fn put_router(alloc: Global, words: &str, page: &mut Page) {
    let router = address_at(words, 3);
    let lsa = Lsa {
        at: number_at(words, 0),
        age: number_16_at(words, 1),
        options: byte_at(words, 2),
        kind: 1,
        id: router,
        router,
        sequence: word(words, 4).parse().unwrap_or(0),
        checksum: number_16_at(words, 5),
        body: Body::Router {
            flags: byte_at(words, 6),
            spare: byte_at(words, 7),
            links: Seq::from_vec(Vec::new(alloc)),
            tos: Seq::from_vec(Vec::new(alloc)),
        },
    };
    put_read_back(alloc, &lsa, page);
}

/// What is read of a written LSA.
fn put_read_back(alloc: Global, lsa: &Lsa, page: &mut Page)
    requires kind { IsOfType lsa.now.kind lsa.now.body }
    requires entries { HasItsEntries lsa.now.body }
    requires fits { lsa_length lsa.now ≤ 65535 }
{
    if let Ok(bytes) = write_lsa(alloc, lsa) {
        put_read(alloc, Call::Lsas, &bytes, page);
    }
}

/// The bytes of an LSA of the greatest length, 65,535 bytes.
fn longest(alloc: Global) -> Result<Vec<u8>, NoMemory> {
    write_lsa(
        alloc,
        &Lsa {
            at: 0,
            age: 1,
            options: 2,
            kind: 10,
            id: 0x0a000001,
            router: 0x01010101,
            sequence: -0x7fff_ffff,
            checksum: 0,
            body: Body::Other {
                bytes: Seq::from_vec(vec![in alloc; 0x5a; 65515]?),
            },
        },
    )
}

/// `longest COUNT LESS`: so many LSAs of the greatest length, written, and read but for so many bytes at the end.
pub fn put_longest(alloc: Global, words: &str, page: &mut Page) {
    let Ok(record) = longest(alloc) else {
        return;
    };
    let mut file = Page::new(alloc);
    for _ in 0..number_at(words, 0).min(100) {
        file.put_bytes(&record);
    }
    let bytes = file.bytes();
    let kept = bytes.len() - bytes.len().min(number_at(words, 1) as usize);
    put_read(alloc, Call::Lsas, &bytes[..kept.min(8_388_608)], page);
}
