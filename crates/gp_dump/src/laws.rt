//! Laws of dumps. Each function does nothing: its postconditions are the laws.

ghost use Rattle.std.specs.Prelude.{◌≡◌, ℕ, List, Some, None};
ghost use Rattle.std.specs.List.{AllByRecursion};
ghost use Rattle.gp_versions.specs.TableSpans.{AreWhole, NoOverlap};
ghost use Rattle.gp_dump.specs.Dumps.{Dump, dump_text, has_read_committed, written_text};
ghost use Rattle.gp_dump.specs.WholeDumps.{IsDump, IsTextOf, dump_with};
ghost use Rattle.gp_dump.specs.Rules.{FirstFault, WellFormed};
ghost use Rattle.gp_dump.specs.Verdicts.{Holds, first_fault, verdict_on};

/// The reader takes exactly the files whose lines all keep the rules, each as its dump. These files are the texts of dumps that
/// keep the rules as a whole: a log, and row versions in order.
pub fn well_formed_dumps_are_read()
    ensures read { (bytes : List ℕ) (dump : Dump)
        → WellFormed bytes dump → verdict_on bytes ≡ Holds dump }
    ensures only { (bytes : List ℕ) (dump : Dump)
        → verdict_on bytes ≡ Holds dump → WellFormed bytes dump }
    ensures whole { (bytes : List ℕ) (dump : Dump)
        → WellFormed bytes dump → IsTextOf bytes dump }
    ensures lines { (bytes : List ℕ) (dump : Dump)
        → IsTextOf bytes dump → WellFormed bytes dump }
{}

/// A file fails a rule first, by the verdict on its lines, exactly where the rules say so.
pub fn first_faults_are_found()
    ensures found { (bytes : List ℕ) (f line : ℕ)
        → first_fault bytes ≡ Some (f, line) → FirstFault bytes f line }
    ensures only { (bytes : List ℕ) (f line : ℕ)
        → FirstFault bytes f line → first_fault bytes ≡ Some (f, line) }
{}

/// A text is the text of one dump at most, and its dump has one text in each format. A text without a fault is that of a dump,
/// and one with a fault is of none.
pub fn one_text_for_one_dump()
    ensures one_dump { (bytes : List ℕ) (dump other : Dump)
        → WellFormed bytes dump → WellFormed bytes other → dump ≡ other }
    ensures one_text { (bytes others : List ℕ) (dump : Dump) (is : IsTextOf bytes dump)
        (are : IsTextOf others dump) → is.second ≡ are.second → bytes ≡ others }
    ensures no_fault { (bytes : List ℕ) (dump : Dump)
        → WellFormed bytes dump → first_fault bytes ≡ None }
    ensures found { (bytes : List ℕ)
        → first_fault bytes ≡ None → (dump : Dump) × WellFormed bytes dump }
    ensures fault { (bytes : List ℕ) (fault : ℕ × ℕ) (dump : Dump)
        → first_fault bytes ≡ Some fault → ¬ WellFormed bytes dump }
{}

/// What is read from a text can be written again in the format of the text, as this text: its row lines are in the order of a
/// dump. The text that is written is well formed, and is the text that was read if that has the same format. The row versions of
/// one identity never overlap, and each is a row of at least one version.
pub fn what_was_read_is_written_again()
    ensures again { (bytes : List ℕ) (dump : Dump) (is : IsTextOf bytes dump)
        → dump_text is.second (dump_with dump.entries dump.tables) ≡ bytes }
    ensures written { (dump : Dump) → IsDump dump → WellFormed (written_text dump) dump }
    ensures same { (bytes : List ℕ) (dump : Dump) (is : IsTextOf bytes dump)
        → has_read_committed dump.entries ≡ is.second
        → written_text (dump_with dump.entries dump.tables) ≡ bytes }
    ensures apart { (bytes : List ℕ) (dump : Dump)
        → WellFormed bytes dump → AllByRecursion NoOverlap dump.tables }
    ensures whole { (bytes : List ℕ) (dump : Dump)
        → WellFormed bytes dump → AllByRecursion AreWhole dump.tables }
{}
