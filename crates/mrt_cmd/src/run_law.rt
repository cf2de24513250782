//! What holds of the words and of what the shelf holds.

ghost use Rattle.std.specs.Prelude.{◌≡◌, ◌<◌, ◌^◌, ℕ, List, Option, Result, Some};
ghost use Rattle.std.specs.List.{AllByRecursion};
ghost use Rattle.mrt_io.specs.Holding.{Files};
ghost use Rattle.mrt_exit.specs.{AnswerSteps.IsOne, declared.exit.Exit.Exit};
ghost use Rattle.mrt_cmd.specs.Comes.{AreOfForm, Comes, GivesText, IsRefused, of_words};
ghost use Rattle.mrt_args.specs.Form.{AsksVerdict};
ghost use Rattle.flood_verdict.specs.{Alike.IsToldAlike, Says.Says};
ghost use Rattle.mrt_cmd.specs.Headline.{ChecksWritten, FloodsAlike};

use mrt_answer::{
    alike_deliveries_are_told_alike, an_answer_comes, one_answer_comes, what_is_certified_passes,
};

/// Laws: over a shelf that tells what it holds, at most one answer comes of the words, a text or an exit and never both, and so one
/// exit.
pub fn one_exit_comes()
    ensures answer { (files : Files) (words : List (List ℕ)) → IsOne (of_words (Some files) words) }
    ensures exit { (files : Files) (words : List (List ℕ)) (exit other : Exit)
        → Comes (Some files) words exit → Comes (Some files) words other → exit ≡ other }
{
    one_answer_comes();
}

/// Laws: over a shelf that tells what it holds, which are bytes, something comes of any words, a text or an exit, and so an exit.
pub fn an_exit_comes()
    ensures answer { (files : Files) → ((name bytes : List ℕ) → files name ≡ Some bytes → AllByRecursion (λ byte. byte < 2 ^ 8) bytes)
        → (words : List (List ℕ)) → (answer : Result (List ℕ) Exit) × of_words (Some files) words answer }
    ensures exit { (files : Files) → ((name bytes : List ℕ) → files name ≡ Some bytes → AllByRecursion (λ byte. byte < 2 ^ 8) bytes)
        → (words : List (List ℕ)) → (exit : Exit) × Comes (Some files) words exit }
{
    an_answer_comes();
}

/// A law, the headline's first half: a certificate that was written passes, whether the words check or upgrade it, over the
/// same database and profile.
///
/// What a yes is worth, whoever wrote the certificate, `accepted_implies_sound` says.
pub fn what_was_written_passes()
    ensures { (files : Files) (words : List (List ℕ)) → ChecksWritten files words
        → (line : List ℕ) × GivesText (Some files) words line }
{
    what_is_certified_passes();
}

/// A law: only the forms that ask for a verdict on a certificate, `check` and `upgrade`, say no.
pub fn only_a_verdict_says_no()
    ensures { (held : Option Files) (words : List (List ℕ)) (rule a b : ℕ)
        → IsRefused held words (Exit.No rule a b)
        → AreOfForm AsksVerdict words }
{}

/// A law: routers that have to tell the same are told so. In the text that the words give, no line that compares two routers to
/// which the deliveries before it brought the same LSAs, or after which flooding is done, is `different`.
pub fn alike_routers_are_told_alike()
    ensures { (files : Files) (words : List (List ℕ)) (text : List ℕ) → GivesText (Some files) words text
        → (alike : FloodsAlike files words)
        → IsToldAlike (Says alike.held.settings) alike.held.updates alike.held.script alike.compares text }
{
    alike_deliveries_are_told_alike();
}
