//! The program's arguments as words.
ghost use Rattle.std.specs.Prelude.{◌≡◌, Err, IfErr, IfOk};
ghost use Rattle.std.specs.{IoError.error_kind, Vec.Iter.into_iter_items};
ghost use Rattle.mrt_args.specs.Arguments.{exit_of, words_of};

use mrt_exit::Exit;
use mrt_io::Word;
use std::alloc::Global;
use std::env::Args;
use std::io;
use std::io::ErrorKind;

/// The words: the arguments after the program's name. Want of memory for them is `NoMemory`; an argument that is no text
/// is none that a form has, so it comes to `Usage`.
///
/// It takes time in proportion to the bytes of the arguments.
pub fn argument_words(alloc: Global, args: io::Result<Args>) -> Result<Vec<Word>, Exit>
    ensures unread { IfErr args (λ error. result ≡ Err (exit_of (error_kind error))) }
    ensures words { IfOk args (λ read. IfOk result (λ words. words.items ≡ words_of (into_iter_items read))) }
    ensures no_memory { IfOk args (λ read. IfErr result (λ exit. exit ≡ Exit.NoMemory)) }
{
    match args {
        Ok(args) => words_of(alloc, args),
        Err(error) => Err(exit_of(error.kind())),
    }
}

/// The arguments as words, but for the program's name.
fn words_of(alloc: Global, args: Args) -> Result<Vec<Word>, Exit>
    ensures words { IfOk result (λ words. words.items ≡ words_of (into_iter_items args)) }
    ensures no_memory { IfErr result (λ exit. exit ≡ Exit.NoMemory) }
{
    let mut args = args;
    let mut words = Vec::new(alloc);
    args.next();
    for arg in args {
        words.push(Word::new(alloc, arg.as_bytes())?)?;
    }
    Ok(words)
}

/// The exit where the arguments were not read.
fn exit_of(kind: ErrorKind) -> Exit
    ensures { result ≡ exit_of kind }
{
    match kind {
        ErrorKind::OutOfMemory => Exit::NoMemory,
        _ => Exit::Usage,
    }
}
