//! The laws of scripts, and of answers as CSV, each as a public function that does nothing.

ghost use Rattle.std.specs.Prelude.{◌≡◌, ◌<◌, ◌≤◌, ◌^◌, ◌++◌, ◌∷◌, [], ℕ, ℤ, List, Ok, Some, codes, length, true};
ghost use Rattle.std.specs.List.{list_all};
ghost use Rattle.gp_base.specs.Cells.{fits_number, is_user_text};
ghost use Rattle.gp_base.specs.declared.cell.Cell.{Cell};
ghost use Rattle.gp_base.specs.declared.cell.Cell.TheVariants as cell;
ghost use Rattle.gp_base.specs.declared.table.Kind.{Kind};
ghost use Rattle.gp_base.specs.declared.table.Kind.TheVariants as kind;
ghost use Rattle.gp_base.specs.declared.refusal.Refusal.{Refusal};
ghost use Rattle.gp_csv.specs.Answers.{answer_records, csv_text, field_of, refusal_records, titled_records};
ghost use Rattle.gp_csv.specs.Fields.{cell_of};
ghost use Rattle.gp_csv.specs.Titled.{AreReloadable, IsReadAgain};
ghost use Rattle.gp_csv.specs.Scripts.{Row, fits_line, batches_of};
ghost use Rattle.gp_csv.specs.SheetForms.{PassesLimit, rows_in};
ghost use Rattle.gp_csv.specs.Sheets.{records_of};

use crate::script::{MAX_INSERTS, MAX_ROWS};

/// The default reader reads the records of an answer back from its text, those of rows under titles, and the records of a refusal.
pub fn answers_are_read_back()
    ensures answers { (number : ℕ) (rows : List (List Cell))
        → records_of (csv_text (answer_records number rows)) ≡ answer_records number rows }
    ensures titled { (number : ℕ) (titles : List (List ℕ)) (rows : List (List Cell))
        → records_of (csv_text (titled_records number (codes "line" ∷ titles) rows))
        ≡ titled_records number (codes "line" ∷ titles) rows }
    ensures refusals { (number : ℕ) (refusal : Refusal)
        → records_of (csv_text (refusal_records number refusal)) ≡ refusal_records number refusal }
{}

/// Rows under titles are read again as a sheet, where the titles can be those of a table and each column tells its type: the sheet has
/// these columns and rows, and the number of the question in front of each row.
pub fn titled_sheets_are_read_again()
    ensures { (number : ℕ) (titles : List (List ℕ)) (rows : List (List Cell)) → number < 2 ^ 63
        → AreReloadable (codes "line" ∷ titles) rows
        → IsReadAgain number (codes "line" ∷ titles) rows
        (csv_text (titled_records number (codes "line" ∷ titles) rows)) }
{}

/// In a column of its type every cell that a user can write is read back from its field.
pub fn cells_are_read_back()
    ensures null { (column : Kind) → cell_of column (field_of cell.Null) ≡ Some cell.Null }
    ensures numbers { (number : ℤ) → fits_number number ≡ true
        → cell_of kind.Int (field_of (cell.Int number)) ≡ Some (cell.Int number) }
    ensures texts { (text : List ℕ) → is_user_text text ≡ true
        → cell_of kind.Text (field_of (cell.Text text)) ≡ Some (cell.Text text) }
{}

/// The INSERT lines of a script hold the rows of the sheet, in order and each as often as it occurs there. Each line is within the
/// limits of a line, and with the next row it would not be. There are no more rows and lines than a table and a script can have.
pub fn batches_hold_the_rows()
    ensures kept { (name : List ℕ) (rows : List Row) (batches : List (List Row))
        → batches_of name rows ≡ Ok batches → rows_in batches ≡ rows }
    ensures few { (name : List ℕ) (rows : List Row) (batches : List (List Row))
        → batches_of name rows ≡ Ok batches → length batches ≤ MAX_INSERTS }
    ensures counted { (name : List ℕ) (rows : List Row) (batches : List (List Row))
        → batches_of name rows ≡ Ok batches → length rows ≤ MAX_ROWS }
    ensures fit { (name : List ℕ) (rows : List Row) (batches : List (List Row))
        → batches_of name rows ≡ Ok batches → list_all (fits_line name) batches ≡ true }
    ensures full { (name : List ℕ) (rows : List Row) (before after : List (List Row))
        (batch next : List Row) (row : Row)
        → batches_of name rows ≡ Ok (before ++ batch ∷ (row ∷ next) ∷ after)
        → PassesLimit name (batch ++ row ∷ []) }
{}
