//! Databases in which instances of router-LSAs are installed one after another. `install INSTANCE..`: each at its own place.
//! `orders INSTANCE..`: five of them in every order, each at its place in the order.
//!
//! An instance is told as `PLACE:ROUTER:SEQUENCE:AGE:CHECKSUM:FLAGS:TO,TO`, with the checksum in hexadecimal digits.

ghost use Rattle.std.specs.Prelude.{◌≡◌, IsTrue, OnOk, Some};
ghost use Rattle.lsdb.specs.Installing.{IsBehind};

use crate::area_told::put_conflict;
use crate::kept::{Instance, put};
use crate::lsa_text::{put_lsas, put_placeless};
use crate::told::{address, field, number, number_16, word};
use lsdb::{Change, Lsdb};
use mrt_graph::NoMemory;
use ospf_lsa::Lsa;
use parts_of_tests::Page;
use std::alloc::Global;

/// Installs at a place the instance that a word tells.
fn put_told(alloc: Global, database: &mut Lsdb, at: u32, told: &str) -> Result<Change, NoMemory>
    requires { IsBehind database.old.greatest at }
    ensures { OnOk result (database.new.greatest ≡ Some at) }
{
    let to = addresses(alloc, field(told, 6));
    let instance = Instance {
        router: address(field(told, 1)),
        sequence: field(told, 2).parse().unwrap_or(0),
        age: number_16(field(told, 3)),
        checksum: u16::from_str_radix(field(told, 4), 16).unwrap_or(0),
        flags: field(told, 5).parse().unwrap_or(0),
    };
    put(alloc, database, at, instance, &to)
}

/// The addresses between commas.
fn addresses(alloc: Global, list: &str) -> Vec<u32> {
    let mut addresses = Vec::new(alloc);
    for told in list.split_terminator(',') {
        let _ = addresses.push(address(told));
    }
    addresses
}

/// Whether a place stands after the greatest one.
fn is_behind(greatest: Option<u32>, at: u32) -> bool
    ensures { IsTrue result → IsBehind greatest at }
{
    match greatest {
        Some(greatest) => greatest < at,
        None => true,
    }
}

pub fn put_installed(alloc: Global, words: &str, page: &mut Page) {
    let mut database = Lsdb::new(alloc);
    let mut greatest = None;
    for told in words.split_terminator(' ') {
        let at = number(field(told, 0));
        if !is_behind(greatest, at) {
            break;
        }
        let Ok(change) = put_told(alloc, &mut database, at, told) else {
            break;
        };
        greatest = Some(at);
        page.put(change_word(change));
    }
    put_settled(page, &database);
    put_lsas(page, database.newest());
}

fn change_word(change: Change) -> &'static str {
    match change {
        Change::Added => "Added\n",
        Change::Replaced => "Replaced\n",
        Change::Older => "Older\n",
        Change::Same => "Same\n",
        Change::Clash => "Clash\n",
    }
}

fn put_settled(page: &mut Page, database: &Lsdb) {
    match database.settled() {
        Ok(()) => page.put("settled\n"),
        Err(conflict) => put_conflict(page, conflict),
    }
}

/// One of the 120 orders of five, by its number.
fn order(number: usize) -> [usize; 5] {
    let mut order = [0, 1, 2, 3, 4];
    let mut choices = number;
    for place in 0..5 {
        let left = 5 - place;
        order.swap(place, place + choices % left);
        choices /= left;
    }
    order
}

/// Five instances in this order.
fn filled(alloc: Global, words: &str, order: [usize; 5]) -> Lsdb {
    let mut database = Lsdb::new(alloc);
    for place in 0..5 {
        let told = word(words, order[place as usize]);
        let Ok(_) = put_told(alloc, &mut database, place, told) else {
            break;
        };
    }
    database
}

/// How many of these LSAs have a lower link state ID.
fn rank(lsas: &[Lsa], id: u32) -> usize {
    let mut rank = 0usize;
    for lsa in lsas {
        if lsa.id < id {
            rank = rank.wrapping_add(1);
        }
    }
    rank
}

/// LSAs without their places, by link state ID.
fn put_by_id(page: &mut Page, lsas: &[Lsa]) {
    for place in 0..lsas.len() {
        for lsa in lsas {
            if rank(lsas, lsa.id) == place {
                put_placeless(page, lsa);
            }
        }
    }
}

/// What the database of an order says.
fn put_order(alloc: Global, words: &str, number: usize, page: &mut Page) {
    let database = filled(alloc, words, order(number));
    put_by_id(page, database.newest());
    put_settled(page, &database);
}

/// What comes of five instances, after each number of an order from which on it is another.
pub fn put_orders(alloc: Global, words: &str, page: &mut Page) {
    let mut last = Page::new(alloc);
    for number in 0..120 {
        let mut told = Page::new(alloc);
        put_order(alloc, words, number, &mut told);
        if told.bytes() != last.bytes() {
            page.number("from order ", number as u64);
            page.put(" on:\n");
            page.put_bytes(told.bytes());
        }
        last = told;
    }
}
