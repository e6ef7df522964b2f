//! The law of what a dump holds and its own tables.

ghost use Rattle.std.specs.Prelude.{◌≡◌, [], true, slice_index_or};
ghost use Rattle.gp_log.specs.LogFacts.{tables_in};
ghost use Rattle.gp_log.specs.LogFitting.{SpansFit, statements_fit};
ghost use Rattle.gp_dump.specs.Dumps.{Dump};
ghost use Rattle.gp_dump.specs.WholeDumps.{IsDump};

/// What a well-formed dump holds fits its tables: each statement has tables and columns that are there, and each row version
/// has the width of its table, cells that a user can write, and an identity of at most [`gp_base::MAX_NODES`] nodes. So a
/// dump that was read can be rewritten and run.
pub fn well_formed_dumps_fit_their_tables()
    ensures statements { (dump : Dump) → IsDump dump
        → statements_fit (tables_in dump.entries) dump.entries ≡ true }
    ensures spans { (dump : Dump) → IsDump dump
        → SpansFit (tables_in dump.entries) (λ table. slice_index_or dump.tables table []) }
{}
