//! Laws of the grammar, each the contract of a function that does nothing.

ghost use Rattle.std.specs.Prelude.{◌≡◌, ◌++◌, ◌↔◌, ℕ, List, Contains, Ok};
ghost use Rattle.control_lines.specs.declared.line.Line.{Line};
ghost use Rattle.control_lines.specs.Table.{Row, rows};
ghost use Rattle.control_lines.specs.Lines.{line_of};
ghost use Rattle.control_lines.specs.LineText.{Values, AreFit, line_with, text_with, IsShortText, IsSpelling};

/// The one text of a row and of values that its fields may have is read as their line, if the text is short
/// enough: docs/CONTROL.md, "Lines".
pub fn texts_are_read()
    ensures { (row : Row) (values : Values row.fields) →
        Contains rows row → AreFit row.fields values →
        IsShortText (row.word ++ text_with row.fields values) →
        line_of (row.word ++ text_with row.fields values) ≡ Ok (line_with row.fields row.line values) }
{}

/// What is read as a line is a spelling of it, hex digits in either case, and every spelling is read: docs/CONTROL.md,
/// "Lines".
pub fn spellings_are_read()
    ensures { (line : Line) (text : List ℕ) → (line_of text ≡ Ok line) ↔ IsSpelling line text }
{}
