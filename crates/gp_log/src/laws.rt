//! Laws of logs. Each function does nothing: its postconditions are the laws.

ghost use Rattle.std.specs.Prelude.{◌≡◌, ◌<◌, ◌≤◌, ◌↔◌, ◌⊎◌, ℕ, false, List, Some, None};
ghost use Rattle.gp_log.specs.WholeLogs.{IsLog};
ghost use Rattle.gp_machine.specs.Entries.{Entry, begin_version, is_read_committed, statement_at, statement_count, statement_version, transactions_in, version_of};
ghost use Rattle.gp_machine.specs.Parameters.{Parameters};

/// The statements of a transaction are numbered from 1 to their count: there is no statement k exactly where k is 0 or above
/// the count (`none`). In a log whose lines follow each other, a number that no transaction has counts no statements
/// (`unknown`).
pub fn statements_are_numbered()
    ensures none { (log : List Entry) (t k : ℕ) → (statement_at t k log ≡ None)
        ↔ ((k ≡ 0) ⊎ (statement_count t log < k)) }
    ensures unknown { (parameters : Parameters) (log : List Entry) → IsLog parameters log → (t : ℕ)
        → (t ≡ 0) ⊎ (transactions_in log < t) → statement_count t log ≡ 0 }
{}

/// In a log whose lines follow each other, no statement of a transaction reads an older version than a statement before it or
/// than the one that the transaction began at, which is number 0 (`rising`); a transaction that is not read committed reads its
/// begin version (`steady`); and one that committed has read only versions before the one that it made (`committed`).
pub fn statements_read_in_order()
    ensures rising { (parameters : Parameters) (log : List Entry) → IsLog parameters log → (t j k : ℕ)
        → j ≤ k → k ≤ statement_count t log
        → statement_version t j log ≤ statement_version t k log }
    ensures steady { (parameters : Parameters) (log : List Entry) → IsLog parameters log → (t k : ℕ)
        → is_read_committed t log ≡ false → k ≤ statement_count t log
        → statement_version t k log ≡ begin_version t log }
    ensures committed { (parameters : Parameters) (log : List Entry) → IsLog parameters log
        → (t version k : ℕ) → version_of t log ≡ Some version → k ≤ statement_count t log
        → statement_version t k log < version }
{}
