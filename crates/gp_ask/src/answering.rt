//! Answering questions.

ghost use Rattle.std.specs.Prelude.{◌≡◌, true, IfOk};
ghost use Rattle.gp_grammar.specs.Syntax as y;
ghost use Rattle.gp_syntax.specs.Views.{query_view, question_view, subject_view};
ghost use Rattle.gp_dump.specs.WholeDumps.{IsDump};
ghost use Rattle.gp_dump.specs.Views.{dump_view};
ghost use Rattle.gp_ask.specs.Computed.{computed_answer};
ghost use Rattle.gp_ask.specs.Backends.{AnswersBy};
ghost use Rattle.gp_ask.specs.ExplainedTexts.{ExplainsQuestion};
ghost use Rattle.gp_ask.specs.Formats.{asks_rows};
ghost use Rattle.gp_ask.specs.Keeping.{AreKept};

use crate::anomalies::anomaly_answer;
use crate::answered::Answered;
use crate::causes::causes_answer;
use crate::changes::{changes_answer, commit_changes_answer};
use crate::checked::check_answer;
use crate::conflicts::conflicts_answer;
use crate::differences::diff_answer;
use crate::intervals::when_answer;
use crate::keeping::KeptAnnotations;
use crate::logs::log_answer;
use crate::programs::saw_program_answer;
use crate::queries::query_answer_by;
use crate::remembering::what_if_kept;
use crate::row_histories::history_answer;
use crate::row_versions::versions_answer;
use crate::serial::serial_answer;
use crate::states::ask_answer;
use crate::transactions::transactions_answer;
use crate::valid::{ValidQuery, ValidQuestion};
use gp_base::NoMemory;
use gp_dump::Dump;
use gp_exec::Backend;
use gp_syntax::{How, Question, Subject};
use std::alloc::Global;

/// Answers a question that was read from a dump that was read: it keeps the rules of dumps.
///
/// LOG is refused if no transaction has the number (E20), VERSIONS if no table has the name (E04). TRANSACTIONS and CHECK are never
/// refused. AS OF is refused if there is no such version (E23), REENACT if there is no such transaction (E20), it did not commit (E21) or
/// has no such statement (E22).
/// SAW is refused as REENACT is, but a transaction may have any end, and 0 statements too; so is CHANGES of a statement, and CHANGES of a
/// COMMIT is refused as REENACT of one (E20, E21). EXPLAIN SAW is refused as SAW is before its rows are.
/// Both are then refused by the check of their query (E04 to E07, E15), and VALUE IN by the first number of its rules that stands for
/// no element of the semiring (E28). PROVENANCE OF, VALUE IN and WITHOUT are then refused by the versions that they need, one after
/// another: if the transaction that made a version does not run (E25, E26), or does not make the rows that the dump has in a table
/// (E24). REENACT is refused also if a statement of the transaction leaves more rows in its table than a statement may (E25) or makes
/// an identity of too many nodes (E26), and both if the answer has more than [`MAX_ANSWER_ROWS`](gp_base::MAX_ANSWER_ROWS) rows (E27),
/// each as often as it occurs, or once for VALUE IN, in this order. For WITHOUT these are the distinct rows before any is left out, or
/// the rows that remain. EXPLAIN runs nothing, so none of these limits stops it. E24, E25 and E26 never
/// come for the dump of a history.
///
/// WHATIF asks the same of the history that the commits of the changed log, made again, lead to. It is refused first for the changes, in
/// their order: if there is no such transaction (E20), it did not commit (E21) or has no such statement (E22), if it cannot have one more
/// (E14), or by the check of the new statement. Then the question is refused on the changed log as above, up to E28, then, unless it is
/// EXPLAIN, by the first commit that cannot be made again (E25, E26, E31 if it would be lost, E14 if there would be too many row versions),
/// then for what a SAW of a transaction that did not commit passes (E25, E26), and then for E27.
///
/// CONFLICTS is refused if no transaction has the number (E20), and then by the limits of its statements (E25, E26). HISTORY is refused by
/// the check of its table and condition, then by these limits of the transactions that committed, one after another, and then for more
/// lines than an answer has rows (E27). WHEN is refused by the check of its query, and where the answer over a version, or the lines, are
/// more than that (E27).
///
/// DIFF is refused as the question of its first side is, then as that of the second, and then for more lines than an answer has rows
/// (E27). CAUSES is refused as the question itself is. Where one side of a DIFF has changes and the other has none, and for CAUSES, the
/// rows of the dump have to be those that its log makes: behind the refusals that no rows decide, of the first side and then of the
/// second, they are refused by the first commit that cannot be made again, and then by the least version in which a table has other
/// rows (E24). SERIAL and ANOMALIES are refused for the transactions that committed, in the order of their versions (E25, E26), and
/// ANOMALIES then for more lines than an answer has rows (E27). Running out of memory is the only error.
pub fn answer(alloc: Global, dump: &Dump, question: &ValidQuestion) -> Result<Answered, NoMemory>
    requires rules { IsDump (dump_view dump.now) }
    ensures answered { IfOk result (λ answered. answered
        ≡ computed_answer (dump_view dump.now) (question_view question.now.read)) }
    ensures explained { IfOk result (λ answered.
        ExplainsQuestion (dump_view dump.now).entries (question_view question.now.read)) }
{
    let mut kept = KeptAnnotations::new();
    answer_from(alloc, dump, question, &mut kept)
}

/// Answers as [`answer`] does, from the annotations that earlier questions about the dump left, and leaves its own.
pub fn answer_from(
    alloc: Global,
    dump: &Dump,
    question: &ValidQuestion,
    kept: &mut KeptAnnotations,
) -> Result<Answered, NoMemory>
    requires rules { IsDump (dump_view dump.now) }
    requires kept { AreKept dump.now kept.old }
    ensures kept { AreKept dump.now kept.new }
    ensures answered { IfOk result (λ answered. answered
        ≡ computed_answer (dump_view dump.now) (question_view question.now.read)) }
    ensures explained { IfOk result (λ answered.
        ExplainsQuestion (dump_view dump.now).entries (question_view question.now.read)) }
{
    match &question.read {
        Question::Log { t } => log_answer(alloc, &dump.log, *t),
        Question::Versions { table } => versions_answer(alloc, dump, table),
        Question::Transactions => transactions_answer(alloc, dump),
        Question::Changes { t, k } => changes_answer(alloc, dump, *t, *k),
        Question::CommitChanges { t } => commit_changes_answer(alloc, dump, *t),
        Question::Conflicts { t } => conflicts_answer(alloc, dump, *t),
        Question::History { table, cond } => history_answer(alloc, dump, table, cond),
        Question::When { query } => when_answer(alloc, dump, ValidQuery { read: query }),
        Question::Serial => serial_answer(alloc, dump),
        Question::Anomalies => anomaly_answer(alloc, dump),
        Question::Check => check_answer(alloc, dump),
        Question::Diff {
            first,
            second,
            query,
        } => diff_answer(alloc, dump, first, second, ValidQuery { read: query }, kept),
        Question::Causes { subject, query } => causes_answer(
            alloc,
            dump,
            subject,
            ValidQuery { read: query },
            kept,
        ),
        Question::Ask { subject, query } => ask_answer(
            alloc,
            dump,
            subject,
            ValidQuery { read: query },
            &mut kept.own,
        ),
        Question::WhatIf {
            changes,
            subject,
            query,
        } => what_if_kept(
            alloc,
            dump,
            changes.as_slice(),
            subject,
            ValidQuery { read: query },
            &mut kept.changed,
        ),
        Question::ExplainSaw { t, k, query } => saw_program_answer(
            alloc,
            dump,
            *t,
            *k,
            ValidQuery { read: query },
        ),
    }
}

/// What a backend gives for a query whose rows are asked.
fn ask_answer_by<B: Backend>(
    alloc: Global,
    dump: &Dump,
    subject: &Subject,
    query: ValidQuery<'_>,
    backend: &B,
) -> Result<Answered, NoMemory>
    requires rows { asks_rows (y.ask (subject_view subject.now)
        (query_view query.read.now)) ≡ true }
    ensures { IfOk result (λ answered. AnswersBy (B.gives backend.now) (dump_view dump.now)
        (y.ask (subject_view subject.now) (query_view query.entry.read.now)) answered) }
{
    match subject {
        Subject::State { how, state } => match how {
            How::Rows => query_answer_by(alloc, dump, *state, query, backend),
            _ => unreachable!(),
        },
        Subject::Saw { .. } => unreachable!(),
    }
}

/// Answers a plain AS OF or REENACT from a dump by what a backend gives. It is refused first as [`answer`] refuses it, but for its
/// rows: its state if the log has it not (E20 to E23), or its query by the check. Then the program of the question, merged, is run by
/// the backend over the rows of the past versions, and the answer is what the backend gives: its rows in row order, E25 or E26 with
/// the question's transaction and the step of a stop, or E27. Running out of memory is the only error.
pub fn answer_by<B: Backend>(
    alloc: Global,
    dump: &Dump,
    question: &ValidQuestion,
    backend: &B,
) -> Result<Answered, NoMemory>
    requires rules { IsDump (dump_view dump.now) }
    requires rows { asks_rows (question_view question.now.read) ≡ true }
    ensures { IfOk result (λ answered. AnswersBy (B.gives backend.now) (dump_view dump.now)
        (question_view question.now.read) answered) }
{
    match &question.read {
        Question::Ask { subject, query } => ask_answer_by(
            alloc,
            dump,
            subject,
            ValidQuery { read: query },
            backend,
        ),
        _ => unreachable!(),
    }
}
