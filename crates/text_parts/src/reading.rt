//! Texts that are read line by line.

ghost use Rattle.std.specs.Prelude.{◌≡◌, ◌≤◌, IfOk, length};
ghost use Rattle.std.specs.Result.{result_map_both};
ghost use Rattle.text_parts.specs.TextLines.{text_lines};
ghost use Rattle.text_parts.specs.TextRead.{Reads};
ghost use Rattle.text_parts.specs.steps.TextRead.{Takes};

use crate::line_error::LineError;
use crate::text_lines::{first_line, is_passed_over};
use mrt_graph::NoMemory;

/// What takes in the lines of a text, one after another.
pub trait TakesLines {
    ghost use Rattle.text_parts.specs.TextRule.{TextRule};

    /// What a whole text says.
    type Text;

    /// What is wrong with a line, or with a text that ends too early.
    type Fault: Copy;

    /// How such a text is read.
    ghost rule: { TextRule Self Self.Text Self.Fault };

    /// Takes in a line that is not passed over, and tells its fault if it has one; then what was taken in is to be given up.
    ///
    /// # Errors
    ///
    /// [`NoMemory`] where there was none for what the line says.
    fn take(&mut self, line: &[u8]) -> Result<Result<(), Self::Fault>, NoMemory>
        ensures { IfOk result (λ told. rule.after self.old line.now ≡ result_map_both (λ _. self.new) (λ fault. fault) told) };

    /// What the text says where it ends after what was taken in, or the fault of ending there.
    fn end(self) -> Result<Self::Text, Self::Fault>
        ensures { result ≡ rule.ends self };
}

/// What the lines of a text say, taken in by what took in none so far. There are at most 33,554,432 bytes.
///
/// A line is passed over where its first byte is `#`, whatever it holds, and where it is of spaces and tabs alone.
///
/// It takes time in proportion to the bytes, and that of the lines.
///
/// # Errors
///
/// [`LineError::Fault`] names the first line with a fault; [`LineError::NoMemory`] comes where there was none for a line.
pub fn text_of<T: TakesLines + Drop>(bytes: &[u8], none: T) -> Result<T::Text, LineError<T::Fault>>
    requires few { length bytes.now ≤ 33554432 }
    requires none { none ≡ T.rule.start }
    ensures { Reads T.rule (text_lines bytes.now) result }
{
    let mut taken = none;
    let mut rest = bytes;
    let mut number = 0;
    while let Some((line, behind)) = first_line(rest) {
        number += 1;
        take_line(&mut taken, number, line)?;
        rest = behind;
    }
    end_of(taken, number + 1)
}

/// What a text says that ends before the line with this number.
fn end_of<T: TakesLines>(taken: T, number: u32) -> Result<T::Text, LineError<T::Fault>>
    ensures { result ≡ result_map_both (λ text. text) (λ fault. LineError.Fault number fault) (T.rule.ends taken) }
{
    match taken.end() {
        Ok(text) => Ok(text),
        Err(fault) => Err(LineError::Fault {
            line: number,
            fault,
        }),
    }
}

/// Takes in the line with this number, unless it is passed over.
fn take_line<T: TakesLines>(
    taken: &mut T,
    number: u32,
    line: &[u8],
) -> Result<(), LineError<T::Fault>>
    ensures { Takes T.rule taken.old line.now number result taken.new }
{
    if is_passed_over(line) {
        return Ok(());
    }
    match taken.take(line) {
        Err(NoMemory) => Err(LineError::NoMemory),
        Ok(Err(fault)) => Err(LineError::Fault {
            line: number,
            fault,
        }),
        Ok(Ok(())) => Ok(()),
    }
}
