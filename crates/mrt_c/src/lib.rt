//! The engine as a C library, `libmrt`: each export hands on to a call of `mrt_calls`, and restates what that promises.
//! `include/mrt.h` declares them, and says what a caller in C owes.
#![tactic(auto)]

ghost use Rattle.std.specs.Prelude.{◌≡◌, length};
ghost use Rattle.mrt_exit.specs.declared.exit.Exit.{Exit};
ghost use Rattle.mrt_lent.specs.Lent.{held_in};
ghost use Rattle.mrt_calls.specs.{Faults.IsTold, Putting.Answers, Putting.Gives};
ghost use Rattle.mrt_calls.specs.{Runs.IsRun, Runs.words_in};
ghost use Rattle.mrt_calls.specs.{Shapes.certified_in, Shapes.shape_in, Verdicts.verdict_in};
ghost use Rattle.mrt_calls.specs.{FaultLines.IsLineOf, Proxies.proxies_in, TableRows.row_for_in, TableRows.table_in};

use mrt_calls::{
    MrtArea, MrtFault, MrtIsland, MrtPair, MrtProxyRow, MrtRow, MrtVerdict, certify_area,
    check_area, line_of_fault, proxy_area, row_for_area, run_over, shape_area, table_area,
};
use mrt_lent::{MrtBytes, MrtFile};
use std::alloc::Global;

/// The number of the interface.
#[unsafe(no_mangle)]
pub extern "C" fn mrt_abi() -> u32
    ensures { result ≡ 1 }
{
    1
}

/// What comes of the words over these files, or of want of memory, is put into the buffer where there is room.
#[unsafe(no_mangle)]
pub extern "C" fn mrt_run(
    alloc: Global,
    words: &[MrtBytes<'_>],
    files: &[MrtFile<'_>],
    text: &mut [u8],
    count: &mut usize,
    fault: &mut MrtFault,
) -> u32
    ensures { (exit : Exit) × IsRun (held_in files.now) (words_in words.now) (length text.old) text.new count.new exit
        × IsTold exit result fault.new }
{
    run_over(alloc, words, files, text, count, fault)
}

/// The root of a router's island, how many nodes and links it has, and how long its certificate is.
#[unsafe(no_mangle)]
pub extern "C" fn mrt_shape(
    alloc: Global,
    area: &MrtArea<'_>,
    router: u32,
    island: &mut MrtIsland,
    fault: &mut MrtFault,
) -> u32
    ensures { (exit : Exit) × Answers (shape_in area.now router) island.new exit × IsTold exit result fault.new }
{
    shape_area(alloc, area, router, island, fault)
}

/// The certificate of a router's island is put into the buffer where there is room.
#[unsafe(no_mangle)]
pub extern "C" fn mrt_certify(
    alloc: Global,
    area: &MrtArea<'_>,
    router: u32,
    certificate: &mut [u8],
    count: &mut usize,
    fault: &mut MrtFault,
) -> u32
    ensures { (exit : Exit) × Gives (certified_in area.now router) (length certificate.old) certificate.new count.new exit
        × IsTold exit result fault.new }
{
    certify_area(alloc, area, router, certificate, count, fault)
}

/// Whether a certificate's bytes are accepted for the island of its root in an area.
#[unsafe(no_mangle)]
pub extern "C" fn mrt_check(
    alloc: Global,
    area: &MrtArea<'_>,
    certificate: &[u8],
    verdict: &mut MrtVerdict,
    fault: &mut MrtFault,
) -> u32
    ensures { (exit : Exit) × Answers (verdict_in area.now certificate.now) verdict.new exit × IsTold exit result fault.new }
{
    check_area(alloc, area, certificate, verdict, fault)
}

/// The program's one line on a fault is put into the buffer where there is room.
#[unsafe(no_mangle)]
pub extern "C" fn mrt_line(fault: &MrtFault, text: &mut [u8], count: &mut usize) -> u32
    ensures { IsLineOf fault.now (length text.old) text.new count.new result }
{
    line_of_fault(fault, text, count)
}

/// The rows of a router's table are put into the buffer where there is room.
#[unsafe(no_mangle)]
pub extern "C" fn mrt_table(
    alloc: Global,
    area: &MrtArea<'_>,
    router: u32,
    rows: &mut [MrtRow],
    count: &mut usize,
    fault: &mut MrtFault,
) -> u32
    ensures { (exit : Exit) × Gives (table_in area.now router) (length rows.old) rows.new count.new exit
        × IsTold exit result fault.new }
{
    table_area(alloc, area, router, rows, count, fault)
}

/// The row of a router's table for one node, by its kind and its number.
#[unsafe(no_mangle)]
pub extern "C" fn mrt_row_for(
    alloc: Global,
    area: &MrtArea<'_>,
    router: u32,
    kind: u32,
    number: u32,
    row: &mut MrtRow,
    fault: &mut MrtFault,
) -> u32
    ensures { (exit : Exit) × Answers (row_for_in area.now router kind number) row.new exit × IsTold exit result fault.new }
{
    row_for_area(alloc, area, router, kind, number, row, fault)
}

/// The rows of a router for prefixes at two routers are put into the buffer where there is room, a row for each pair.
#[unsafe(no_mangle)]
pub extern "C" fn mrt_proxy(
    alloc: Global,
    area: &MrtArea<'_>,
    router: u32,
    pairs: &[MrtPair],
    rows: &mut [MrtProxyRow],
    count: &mut usize,
    fault: &mut MrtFault,
) -> u32
    ensures { (exit : Exit) × Gives (proxies_in area.now router pairs.now) (length rows.old) rows.new count.new exit
        × IsTold exit result fault.new }
{
    proxy_area(alloc, area, router, pairs, rows, count, fault)
}
