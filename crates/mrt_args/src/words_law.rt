//! What the words spell. It holds of the definitions alone; the function does nothing.

ghost use Rattle.std.specs.Prelude.{◌≡◌, ◌↔◌, ℕ, List, Some};
ghost use Rattle.mrt_args.specs.{declared.form.Form.Form, Form.form_of, Spellings.AreWordsOf};

/// A law: words have a form exactly where the table of the forms has them as words of it. So they spell one form, or none.
pub fn words_spell_one_form()
    ensures { (words : List (List ℕ)) (form : Form) → (form_of words ≡ Some form) ↔ AreWordsOf form words }
{}
