//! Words over every cut of a file, and over the LSAs of a file in every order.

use crate::asked::{Asked, Words, with_settings};
use crate::devices::CALM;
use crate::files::{Held, hold, read};
use crate::made::put;
use crate::memory::put_over_files;
use parts_of_tests::Page;
use std::alloc::Global;
use std::rt::Files;

/// A file, and what is done to it.
#[derive(Clone, Copy)]
enum Change<'a> {
    /// Its first bytes alone, from none of them to all but one.
    Cut(&'a [u8]),
    /// These LSAs in another order.
    Order(&'a [&'a [u8]]),
}

/// `cuts FILE : WORDS` and `orders FILE : WORDS`, which name this file among others.
pub fn put_changed<R: Files>(rt: &R, alloc: Global, call: &str, words: Words<'_>, page: &mut Page) {
    let (names, asked) = with_settings(words);
    let name = names.first().copied().unwrap_or("");
    let file = read(rt, alloc, name).unwrap_or(Vec::new(alloc));
    match call {
        "cuts" => put_all(rt, alloc, &asked, name, Change::Cut(&file), page),
        _ => {
            let lsas = lsas_of(alloc, &file);
            put_all(rt, alloc, &asked, name, Change::Order(&lsas), page);
        }
    }
}

/// How many changes there are.
fn count_of(change: Change<'_>) -> usize {
    match change {
        Change::Cut(file) => file.len(),
        Change::Order(lsas) => orders_of(lsas.len()),
    }
}

/// How many orders so many things have.
fn orders_of(count: usize) -> usize {
    let mut orders: usize = 1;
    for number in 2..count.saturating_add(1) {
        orders = orders.saturating_mul(number);
    }
    orders
}

/// The LSAs that stand one after another.
fn lsas_of<'a>(alloc: Global, file: &'a [u8]) -> Vec<&'a [u8]> {
    let mut lsas = Vec::new(alloc);
    let mut rest = file;
    for _ in 0..file.len() {
        if rest.len() < 20 {
            break;
        }
        let length = u16::from_be_bytes([rest[18], rest[19]]) as usize;
        let (lsa, others) = rest.split_at(length.max(1).min(rest.len()));
        let _ = lsas.push(lsa);
        rest = others;
    }
    lsas
}

/// Adds the answers over all changes of the file of this name: each with the numbers of the changes that have it.
fn put_all<R: Files>(
    rt: &R,
    alloc: Global,
    asked: &Asked<'_>,
    name: &str,
    change: Change<'_>,
    page: &mut Page,
) {
    let count = count_of(change);
    let mut last = Page::new(alloc);
    let mut first = 0;
    page.end();
    for number in 0..count {
        let mut files = hold(rt, alloc, asked);
        replace(&mut files, name, changed(alloc, change, number));
        let mut answer = Page::new(alloc);
        put_over_files(rt, alloc, asked, files, CALM, &mut answer);
        if number > first && answer.bytes() != last.bytes() {
            put_range(page, first, number - 1, &last);
            first = number;
        }
        last = answer;
    }
    put_range(page, first, count.wrapping_sub(1), &last);
}

/// Puts an answer that all changes of these numbers have.
fn put_range(page: &mut Page, first: usize, last: usize, answer: &Page) {
    page.number("  ", first as u64);
    if first != last {
        page.number(" to ", last as u64);
    }
    page.put_bytes(answer.bytes());
}

/// Puts another file in the place of the first one of this name.
fn replace(files: &mut [Held], name: &str, file: Vec<u8>) {
    let place = place_of(files, name);
    if let Some(held) = files.get_mut(place) {
        held.1 = file;
    }
}

/// The place of the first file of this name, or how many files there are.
fn place_of(files: &[Held], name: &str) -> usize {
    for place in 0..files.len() {
        if files[place].0.bytes() == name.as_bytes() {
            return place;
        }
    }
    files.len()
}

/// The file after the change of this number.
fn changed(alloc: Global, change: Change<'_>, number: usize) -> Vec<u8> {
    let mut bytes = Vec::new(alloc);
    match change {
        Change::Cut(file) => put(&mut bytes, &file[..file.len().min(number)]),
        Change::Order(lsas) => put_in_order(&mut bytes, alloc, lsas, number),
    }
    bytes
}

/// Adds the LSAs in one of their orders, by its number.
fn put_in_order(bytes: &mut Vec<u8>, alloc: Global, lsas: &[&[u8]], number: usize) {
    let mut parts = Vec::new(alloc);
    let _ = parts.extend_from_slice(lsas);
    reorder(&mut parts, number);
    for part in &parts {
        put(bytes, part);
    }
}

fn reorder(lsas: &mut [&[u8]], number: usize) {
    let mut choices = number;
    for place in 0..lsas.len() {
        let left = lsas.len() - place;
        lsas.swap(place, place + choices % left);
        choices /= left;
    }
}
