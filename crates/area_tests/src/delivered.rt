//! `updates FILE`: the Link State Update packets of a file; and `script TEXT..`: a script of deliveries.

ghost use Rattle.std.specs.Prelude.{◌≤◌, length};

use crate::lsa_text::put_lsas;
use crate::told::{front, spell, text};
use flood::{FloodLine, FloodScriptError, Update, read_flood_script, read_updates};
use parts_of_tests::Page;
use std::alloc::Global;

pub fn put_read(alloc: Global, bytes: &[u8], page: &mut Page)
    requires { length bytes.now ≤ 8388608 }
{
    if let Ok(updates) = read_updates(alloc, bytes) {
        put_updates(page, &updates);
    }
}

fn put_updates(page: &mut Page, updates: &[Update]) {
    for update in updates {
        spell(
            page,
            "packet at %: router @ area %\n",
            &[update.at, update.router, update.area],
        );
        put_lsas(page, update.lsas.as_slice());
    }
}

pub fn put_script(alloc: Global, words: &str, page: &mut Page) {
    let script = text(alloc, words);
    match read_flood_script(alloc, front(script.bytes())) {
        Ok(script) => {
            page.count("routers ", script.routers);
            put_lines(page, script.lines.as_slice());
        }
        Err(FloodScriptError::Fault { line }) => {
            page.number("fault in line ", line as u64);
            page.end();
        }
        Err(FloodScriptError::NoMemory) => {}
    }
}

fn put_lines(page: &mut Page, lines: &[FloodLine]) {
    page.end();
    for line in lines {
        match *line {
            FloodLine::Deliver { packet, router } => {
                spell(page, "deliver % %\n", &[packet, router as u32]);
            }
            FloodLine::Same { one, other, router } => spell(
                page,
                "same % % @\n",
                &[one as u32, other as u32, router],
            ),
        }
    }
}
