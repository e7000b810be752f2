//! Laws of the lines of a text.
ghost use Rattle.std.specs.Prelude.{◌≡◌, ℕ, List, true};
ghost use Rattle.std.specs.List.{list_all};
ghost use Rattle.qsr_lex.specs.Printed.{are_tokens, printed};
ghost use Rattle.line_files.specs.FileText.{file_text, readable_lines, printed_lines};

/// What a reader goes over is the lines of the text in front of the first line with a byte that isn't allowed, and then
/// that line or the end.
pub fn file_text_is_of_readable_lines()
    ensures { (bytes : List ℕ) → file_text bytes ≡ readable_lines bytes }
{}

/// Lines of tokens that are printed with one space between tokens are the lines that a reader goes over, and after them
/// the text ends.
pub fn printed_lines_are_read()
    ensures { (text : List (List (List ℕ))) → list_all are_tokens text ≡ true →
        file_text (printed text) ≡ printed_lines text }
{}
