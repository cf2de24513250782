//! A row: its name, its call and the words that this is given; and how its answer is laid out.

use crate::page::Page;

/// Whether a line is a row; none is one that is empty or begins with `#`.
pub fn is_row(line: &str) -> bool {
    !line.is_empty() && !line.starts_with('#')
}

/// The first of words, and those after it.
pub fn cut<'a>(words: &'a str) -> (&'a str, &'a str) {
    words.split_once(' ').unwrap_or((words, ""))
}

/// Puts an answer behind the name of its row. One line stands after the name, several stand below it.
pub fn put_answer(page: &mut Page, name: &str, answer: &[u8]) {
    page.put(name);
    if is_one_line(answer) {
        page.put(" ");
        return page.put_bytes(answer);
    }
    page.end();
    for line in answer.split_inclusive(|byte| *byte == b'\n') {
        page.put("  ");
        page.put_bytes(line);
    }
}

fn is_one_line(text: &[u8]) -> bool {
    let mut lines: u32 = 0;
    for byte in text {
        if *byte == b'\n' {
            lines = lines.saturating_add(1);
        }
    }
    lines == 1
}
