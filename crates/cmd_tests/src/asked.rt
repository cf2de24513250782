//! The parts of a row after its call: `SETTINGS : WORDS > FILE << LINES`, of which all but the words may be missing.

use crate::made::put;
use mrt_io::Word;
use std::alloc::Global;

/// Words of a row.
pub type Words<'a> = &'a [&'a str];

/// The words of the top call, the file that the text is compared with (no name: none), and the words of the file `lines`.
#[derive(Clone, Copy)]
pub struct Asked<'a> {
    pub words: Words<'a>,
    pub wanted: &'a str,
    pub lines: Words<'a>,
}

/// The words of a text.
pub fn words_of<'a>(alloc: Global, text: &'a str) -> Vec<&'a str> {
    let mut words = Vec::new(alloc);
    for word in text.split_terminator(' ') {
        let _ = words.push(word);
    }
    words
}

/// The words before a mark and those after it; all of them where it does not stand there.
pub fn cut_at<'a>(words: Words<'a>, mark: &str) -> (Words<'a>, Words<'a>) {
    for at in 0..words.len() {
        if words[at] == mark {
            return (&words[..at], &words[at + 1..]);
        }
    }
    (words, &words[words.len()..])
}

/// What is asked, without settings.
pub fn asked_of<'a>(words: Words<'a>) -> Asked<'a> {
    let (words, lines) = cut_at(words, "<<");
    let (words, wanted) = cut_at(words, ">");
    let wanted = wanted.first().copied().unwrap_or("");
    Asked {
        words,
        wanted,
        lines,
    }
}

/// The words before a colon, and what is asked after it.
pub fn with_settings<'a>(words: Words<'a>) -> (Words<'a>, Asked<'a>) {
    let (settings, words) = cut_at(words, ":");
    (settings, asked_of(words))
}

/// A word of a row; two quotation marks are the empty one.
fn unquoted<'a>(word: &'a str) -> &'a str {
    if word == "\"\"" {
        return "";
    }
    word
}

/// The words of the top call.
pub fn list_of(alloc: Global, words: Words<'_>) -> Vec<Word> {
    let mut list = Vec::new(alloc);
    for word in words {
        if let Ok(word) = Word::new(alloc, unquoted(word).as_bytes()) {
            let _ = list.push(word);
        }
    }
    list
}

/// The text that stands in a row: a `/` is the end of a line, and all other words have a space between them.
pub fn text_of(alloc: Global, lines: Words<'_>) -> Vec<u8> {
    let mut text = Vec::new(alloc);
    let mut begins = true;
    for word in lines {
        if *word == "/" {
            put(&mut text, b"\n");
        } else {
            put(
                &mut text,
                if begins {
                    b"".as_slice()
                } else {
                    b" ".as_slice()
                },
            );
            put(&mut text, word.as_bytes());
        }
        begins = *word == "/";
    }
    text
}
