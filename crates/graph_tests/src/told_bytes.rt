//! Bytes as words tell them and as answers show them: a space is `\s`, a tab `\t`, a line feed `\n`, a carriage return `\r`,
//! and any other byte that is not shown is `\x` and its two digits.

use crate::told::list;
use parts_of_tests::Page;
use std::alloc::Global;

/// The bytes after a name; none where it is not there.
pub fn bytes_told(alloc: Global, words: &str, name: &str) -> Vec<u8> {
    let mut told = Page::new(alloc);
    told.put_told(list(words, name));
    told.into_bytes()
}

/// Shows bytes.
pub fn show(page: &mut Page, bytes: &[u8]) {
    for byte in bytes {
        match *byte {
            b' ' => page.put("\\s"),
            b'\t' => page.put("\\t"),
            b'\n' => page.put("\\n"),
            b'\r' => page.put("\\r"),
            b'!'..=b'~' => page.put_bytes(&[*byte]),
            _ => page.hex("\\x", &[*byte]),
        }
    }
}

/// Shows bytes, and ends the line.
pub fn show_line(page: &mut Page, bytes: &[u8]) {
    show(page, bytes);
    page.end();
}
