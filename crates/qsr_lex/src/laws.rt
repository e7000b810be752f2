//! Laws of texts: the limits, and that what is printed is read as what was printed.
ghost use Rattle.std.specs.Prelude.{◌≡◌, ◌<◌, ◌^◌, ℕ, List, true};
ghost use Rattle.std.specs.List.{list_all};
ghost use Rattle.qsr_lex.specs.Names.{is_name};
ghost use Rattle.qsr_lex.specs.Printed.{are_tokens, IsReadAgain, IsPrintedName, IsPrintedNumber, IsPrintedSet};
ghost use Rattle.qsr_lex.specs.declared.TheConstants.{MAX_TEXT, LONGEST_NAME, MOST_DIGITS};

/// A text has at most 16,777,216 bytes, a name at most 64 and a number at most 18 digits.
pub fn limits_of_texts()
    ensures text { MAX_TEXT ≡ 16777216 }
    ensures name { LONGEST_NAME ≡ 64 }
    ensures number { MOST_DIGITS ≡ 18 }
{}

/// Lines of tokens that are printed with one space between tokens, and an LF after each line, are
/// read as these tokens.
pub fn printed_text_is_read()
    ensures { (text : List (List (List ℕ))) → list_all are_tokens text ≡ true → IsReadAgain text }
{}

/// A name that is printed is one token, and read as that name.
pub fn printed_name_is_read()
    ensures { (name : List ℕ) → is_name name ≡ true → IsPrintedName name }
{}

/// Names that are printed in brackets are read as these names.
pub fn printed_set_is_read()
    ensures { (names rest : List (List ℕ)) →
        list_all is_name names ≡ true → IsPrintedSet names rest }
{}

/// A number below 10 ^ 18 that is printed in decimal is one token, and read as that number.
pub fn printed_number_is_read()
    ensures { (number : ℕ) → number < 10 ^ 18 → IsPrintedNumber number }
{}
