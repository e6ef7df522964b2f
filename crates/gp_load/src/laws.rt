//! The laws of scripts of sheets, each as a public function that does nothing.

ghost use Rattle.std.specs.Prelude.{◌≡◌, ◌<◌, ◌^◌, ◌∷◌, ℕ, List, Ok, codes, true};
ghost use Rattle.gp_base.specs.declared.cell.Cell.{Cell};
ghost use Rattle.gp_base.specs.Names.{is_name};
ghost use Rattle.gp_csv.specs.Answers.{csv_text, titled_records};
ghost use Rattle.gp_csv.specs.Titled.{AreReloadable};
ghost use Rattle.gp_csv.specs.Scripts.{script_of};
ghost use Rattle.gp_csv.specs.SheetForms.{IsSheet};
ghost use Rattle.gp_csv.specs.declared.sheet.Sheet.{Sheet};
ghost use Rattle.gp_load.specs.Loading.{Loads};
ghost use Rattle.gp_load.specs.Reloading.{LoadsAgain};

use gp_csv::titled_sheets_are_read_again;

/// The script of a sheet creates one table and fills it with the rows of the sheet: no line of it is refused, and the last version
/// has these rows, in order and each as often as it occurs. It is not too long to be run.
pub fn scripts_load_sheets()
    ensures loads { (name : List ℕ) (sheet : Sheet) (script : List ℕ)
        → is_name name ≡ true → IsSheet sheet → script_of name sheet ≡ Ok script
        → Loads name sheet script }
{}

/// Rows that were exported under titles load again, where the titles can be those of a table and each column tells its type: the script
/// of the sheet of their text loads these rows, with the number of the question in front of each.
pub fn exported_sheets_load_again()
    ensures { (number : ℕ) (titles : List (List ℕ)) (rows : List (List Cell)) → number < 2 ^ 63
        → AreReloadable (codes "line" ∷ titles) rows
        → LoadsAgain number (codes "line" ∷ titles) rows
        (csv_text (titled_records number (codes "line" ∷ titles) rows)) }
{
    scripts_load_sheets();
    titled_sheets_are_read_again()
}
