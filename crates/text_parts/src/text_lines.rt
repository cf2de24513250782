//! The lines of a text file, and the words of a line.

ghost use Rattle.std.specs.Prelude.{◌≡◌, ◌==◌, ◌++◌, ◌∷◌, [], not, position, slice_index};
ghost use Rattle.std.specs.{Option.MatchOption, List.list_all, List.slice_split, Str.Lines.strip_carriage_return};
ghost use Rattle.text_parts.specs.TextLines.{text_lines, words_of, is_blank, is_passed_over};

/// The first line of a text, and what stands after it. `None` where the text has no line.
///
/// A line ends with a line feed or with the end of the text; one carriage return before the line feed is dropped. An empty last
/// piece after the last line feed is no line.
///
/// It takes time in proportion to the line, so all lines of a text take one pass.
pub fn first_line(text: &[u8]) -> Option<(&[u8], &[u8])>
    ensures { MatchOption result (text_lines text.now ≡ []) (λ x. text_lines text.now ≡ x.0.now ∷ text_lines x.1.now) }
{
    if text.is_empty() {
        return None;
    }
    match cut_at(text, b'\n') {
        None => Some(text.split_at(text.len())),
        Some((line, rest)) => Some((without_return(line), rest)),
    }
}

/// A line that ended with a line feed, without the one carriage return before it.
fn without_return(line: &[u8]) -> &[u8]
    ensures { result.now ≡ strip_carriage_return line.now }
{
    match line {
        [line @ .., b'\r'] => line,
        _ => line,
    }
}

/// Whether a line is passed over: its first byte is `#`, or it is of spaces and tabs alone.
///
/// It takes time in proportion to the line at most.
pub fn is_passed_over(line: &[u8]) -> bool
    ensures { result ≡ is_passed_over line.now }
{
    is_comment(line) || are_blank(line)
}

fn are_blank(line: &[u8]) -> bool
    ensures { result ≡ list_all is_blank line.now }
{
    line.iter().all(|byte| is_blank(*byte))
}

fn is_comment(line: &[u8]) -> bool
    ensures { result ≡ (slice_index line.now 0 == 35) }
{
    matches!(line, [b'#', ..])
}

/// The first word of a line, and what stands after it. `None` where the line has no word.
///
/// Words are split by one or more spaces or tabs.
///
/// It takes time in proportion to the word and the blanks before it, so all words of a line take one pass.
pub fn first_word(line: &[u8]) -> Option<(&[u8], &[u8])>
    ensures { MatchOption result (words_of line.now ≡ []) (λ x. words_of line.now ≡ x.0.now ∷ words_of x.1.now) }
{
    let (_, line) = line.split_at(first_other(line)?);
    Some(line.split_at(first_blank(line).unwrap_or(line.len())))
}

fn first_blank(line: &[u8]) -> Option<usize>
    ensures { result ≡ position is_blank line.now }
{
    line.iter().position(|byte| is_blank(*byte))
}

fn first_other(line: &[u8]) -> Option<usize>
    ensures { result ≡ position (λ byte. not (is_blank byte)) line.now }
{
    line.iter().position(|byte| !is_blank(*byte))
}

fn is_blank(byte: u8) -> bool
    ensures { result ≡ is_blank byte }
{
    byte == b' ' || byte == b'\t'
}

/// The bytes before the first such byte, and those after it. `None` where there is none.
pub(crate) fn cut_at(text: &[u8], byte: u8) -> Option<(&[u8], &[u8])>
    ensures { MatchOption result (slice_split (λ b. b == byte) text.now ≡ text.now ∷ []) (λ x. (text.now ≡ x.0.now ++ byte ∷ x.1.now) × (slice_split (λ b. b == byte) text.now ≡ x.0.now ∷ slice_split (λ b. b == byte) x.1.now)) }
{
    let place = place_of(text, byte)?;
    let (_, rest) = text.split_at(place + 1);
    Some((&text[..place], rest))
}

fn place_of(text: &[u8], byte: u8) -> Option<usize>
    ensures { result ≡ position (λ b. b == byte) text.now }
{
    text.iter().position(|b| *b == byte)
}
