//! The files that words name, with bytes put in other bytes' places.
//!
//!     file=triangle.1.cert bytes=22:1,33:0 edits=node:1:2.2.0 cut=58
//!
//! `bytes` and `edits` have edits; `cut` says how many bytes are left.

use crate::edits::put_edits;
use crate::told::{list, number};
use std::fs;
use std::rt::Files;

/// The bytes of the file that words tell, with others in their places.
pub fn file_told<R: Files + AllocGlobal>(rt: &R, words: &str) -> Vec<u8> {
    let mut bytes = file_named(rt, list(words, "file"));
    spoil(&mut bytes, words);
    bytes
}

/// The bytes of the file of this name; none where there is no such file.
pub fn file_named<R: Files + AllocGlobal>(rt: &R, name: &str) -> Vec<u8> {
    fs::read(rt, name).unwrap_or(Vec::new(rt.alloc()))
}

/// Puts the bytes that words tell in their places, and those that edits tell, and cuts what follows.
fn spoil(bytes: &mut Vec<u8>, words: &str) {
    put_edits(bytes, list(words, "bytes"));
    put_edits(bytes, list(words, "edits"));
    if let Some(length) = number(words, "cut") {
        bytes.truncate(usize::from(length));
    }
}
