//! Whether two questions have the same changes. What is promised is one way: parts that are told the same are the same. To tell them apart all the same would
//! cost another replay, and change no answer.

ghost use Rattle.std.specs.Prelude.{◌≡◌, map, true};
ghost use Rattle.gp_grammar.specs.Syntax as y;
ghost use Rattle.gp_syntax.specs.Views.{block_view, change_view, changes_view, command_view, condition_view, item_view, items_view, query_view, set_view, term_view};

use crate::made::are_equal;
use gp_base::{Name, Row, Text};
use gp_syntax::{Block, Command, Item, Items, LogChange, Op, Query, SetTerm, Term};

/// A part of a change, which is compared by its abstract syntax.
trait Compared {
    /// Abstract syntax.
    ghost Tree: { Type 0 };
    /// The abstract syntax of a part.
    ghost view: { Self → Self.Tree };

    /// Whether two parts are the same.
    fn is_same(&self, other: &Self) -> bool
        ensures { result ≡ true → view self.now ≡ view other.now };
}

/// Whether two lists have the same parts, in the same order.
fn are_same<T: Compared>(parts: &[T], others: &[T]) -> bool
    ensures { result ≡ true → map T.view parts.now ≡ map T.view others.now }
{
    if parts.len() != others.len() {
        return false;
    }
    for (place, part) in parts.iter().enumerate() {
        if !part.is_same(&others[place]) {
            return false;
        }
    }
    true
}

// ---- terms

/// Whether two names are the same.
fn is_same_name(name: &Name, other: &Name) -> bool
    ensures { result ≡ true → name.now ≡ other.now }
{
    name.as_bytes() == other.as_bytes()
}

/// Whether two names that may be missing are the same.
fn is_same_optional(name: &Option<Name>, other: &Option<Name>) -> bool
    ensures { result ≡ true → name.now ≡ other.now }
{
    match name {
        None => other.is_none(),
        Some(name) => match other {
            Some(other) => is_same_name(name, other),
            None => false,
        },
    }
}

/// Whether two operators are the same.
fn is_same_operator(op: Op, other: Op) -> bool
    ensures { result ≡ true → op ≡ other }
{
    op == other
}

/// Whether a term is NULL.
fn is_null(other: &Term) -> bool
    ensures { result ≡ true → y.null ≡ term_view other.now }
{
    match other {
        Term::Null => true,
        _ => false,
    }
}

/// Whether a term is this number.
fn is_number(number: i64, other: &Term) -> bool
    ensures { result ≡ true → y.int number ≡ term_view other.now }
{
    match other {
        Term::Int(own) => number == *own,
        _ => false,
    }
}

/// Whether a term is this text.
fn is_text(text: &Text, other: &Term) -> bool
    ensures { result ≡ true → y.text text.now ≡ term_view other.now }
{
    match other {
        Term::Text(own) => text.as_bytes() == own.as_bytes(),
        _ => false,
    }
}

/// Whether a term is this column.
fn is_column(item: &Option<Name>, col: &Name, other: &Term) -> bool
    ensures { result ≡ true → y.col item.now col.now ≡ term_view other.now }
{
    match other {
        Term::Col {
            item: own,
            col: name,
        } => is_same_optional(item, own) && is_same_name(col, name),
        _ => false,
    }
}

/// Whether a term has this operator between these two.
#[cycle(comparing)]
fn is_binary(op: Op, left: &Term, right: &Term, other: &Term) -> bool
    ensures { result ≡ true
        → y.binary op (term_view left.now) (term_view right.now) ≡ term_view other.now }
{
    match other {
        Term::Binary {
            op: own,
            left: first,
            right: second,
        } => {
            is_same_operator(op, *own) && is_same_term(left, first) && is_same_term(right, second)
        }
        _ => false,
    }
}

/// Whether a term is this one with the sign `-`.
#[cycle(comparing)]
fn is_negated(part: &Term, other: &Term) -> bool
    ensures { result ≡ true → y.neg (term_view part.now) ≡ term_view other.now }
{
    match other {
        Term::Neg(own) => is_same_term(part, own),
        _ => false,
    }
}

/// Whether a term is this one behind NOT.
#[cycle(comparing)]
fn is_not(part: &Term, other: &Term) -> bool
    ensures { result ≡ true → y.not (term_view part.now) ≡ term_view other.now }
{
    match other {
        Term::Not(own) => is_same_term(part, own),
        _ => false,
    }
}

/// Whether a term tests this one for NULL.
#[cycle(comparing)]
fn is_null_test(part: &Term, yes: bool, other: &Term) -> bool
    ensures { result ≡ true → y.is_null (term_view part.now) yes ≡ term_view other.now }
{
    match other {
        Term::IsNull {
            term: own,
            yes: holds,
        } => yes == *holds && is_same_term(part, own),
        _ => false,
    }
}

/// Whether a term tests whether this one is true.
#[cycle(comparing)]
fn is_truth_test(part: &Term, yes: bool, other: &Term) -> bool
    ensures { result ≡ true → y.is_true (term_view part.now) yes ≡ term_view other.now }
{
    match other {
        Term::IsTrue {
            term: own,
            yes: holds,
        } => yes == *holds && is_same_term(part, own),
        _ => false,
    }
}

/// Whether a term is the CASE of these.
#[cycle(comparing)]
fn is_case(when: &Term, first: &Term, last: &Term, other: &Term) -> bool
    ensures { result ≡ true
        → y.case (term_view when.now) (term_view first.now) (term_view last.now)
        ≡ term_view other.now }
{
    match other {
        Term::Case {
            when: own,
            first: second,
            other: third,
        } => is_same_term(when, own) && is_same_term(first, second) && is_same_term(last, third),
        _ => false,
    }
}

/// Whether two terms are the same.
#[cycle(comparing)]
fn is_same_term(term: &Term, other: &Term) -> bool
    ensures { result ≡ true → term_view term.now ≡ term_view other.now }
{
    match term {
        Term::Null => is_null(other),
        Term::Int(number) => is_number(*number, other),
        Term::Text(text) => is_text(text, other),
        Term::Col { item, col } => is_column(item, col, other),
        Term::Binary { op, left, right } => is_binary(*op, left, right, other),
        Term::Neg(part) => is_negated(part, other),
        Term::Not(part) => is_not(part, other),
        Term::IsNull { term, yes } => is_null_test(term, *yes, other),
        Term::IsTrue { term, yes } => is_truth_test(term, *yes, other),
        Term::Case {
            when,
            first,
            other: last,
        } => is_case(when, first, last, other),
    }
}

impl Compared for Term {
    ghost Tree = { y.Term };

    ghost view = { term_view };

    fn is_same(&self, other: &Term) -> bool {
        is_same_term(self, other)
    }
}

/// Whether two conditions are the same, if there are any.
fn is_same_condition(cond: &Option<Term>, other: &Option<Term>) -> bool
    ensures { result ≡ true → condition_view cond.now ≡ condition_view other.now }
{
    match cond {
        None => other.is_none(),
        Some(term) => match other {
            Some(own) => is_same_term(term, own),
            None => false,
        },
    }
}

// ---- queries

impl Compared for Item {
    ghost Tree = { y.Item };

    ghost view = { item_view };

    fn is_same(&self, other: &Item) -> bool {
        is_same_name(&self.table, &other.table) && is_same_name(&self.name, &other.name)
    }
}

/// Whether two SELECT list the same.
fn are_same_items(items: &Items, other: &Items) -> bool
    ensures { result ≡ true → items_view items.now ≡ items_view other.now }
{
    match items {
        Items::Star => match other {
            Items::Star => true,
            Items::List(_) => false,
        },
        Items::List(terms) => match other {
            Items::Star => false,
            Items::List(own) => are_same(terms.as_slice(), own.as_slice()),
        },
    }
}

impl Compared for Block {
    ghost Tree = { y.Block };

    ghost view = { block_view };

    fn is_same(&self, other: &Block) -> bool {
        are_same_items(&self.items, &other.items)
            && are_same(self.from.as_slice(), other.from.as_slice())
            && is_same_condition(&self.cond, &other.cond)
    }
}

/// Whether two queries are the same.
fn is_same_query(query: &Query, other: &Query) -> bool
    ensures { result ≡ true → query_view query.now ≡ query_view other.now }
{
    are_same(query.blocks.as_slice(), other.blocks.as_slice())
}

// ---- commands

impl Compared for SetTerm {
    ghost Tree = { y.SetTerm };

    ghost view = { set_view };

    fn is_same(&self, other: &SetTerm) -> bool {
        is_same_name(&self.col, &other.col) && is_same_term(&self.term, &other.term)
    }
}

/// Whether two lists of rows are the same.
fn are_same_rows(rows: &[Row], others: &[Row]) -> bool
    ensures { result ≡ true → rows.now ≡ others.now }
{
    are_equal(rows, others)
}

/// Whether a command is the INSERT of these rows.
fn is_insert(table: &Name, rows: &[Row], other: &Command) -> bool
    ensures { result ≡ true → y.insert table.now rows.now ≡ command_view other.now }
{
    match other {
        Command::Insert {
            table: name,
            rows: own,
        } => is_same_name(table, name) && are_same_rows(rows, own.as_slice()),
        _ => false,
    }
}

/// Whether a command is the INSERT of this query.
fn is_insert_select(table: &Name, query: &Query, other: &Command) -> bool
    ensures { result ≡ true
        → y.insert_select table.now (query_view query.now) ≡ command_view other.now }
{
    match other {
        Command::InsertSelect {
            table: name,
            query: own,
        } => is_same_name(table, name) && is_same_query(query, own),
        _ => false,
    }
}

/// Whether a command is the UPDATE of these.
fn is_update(table: &Name, sets: &[SetTerm], cond: &Option<Term>, other: &Command) -> bool
    ensures { result ≡ true
        → y.update table.now (map set_view sets.now) (condition_view cond.now)
        ≡ command_view other.now }
{
    match other {
        Command::Update {
            table: name,
            sets: own,
            cond: tested,
        } => {
            is_same_name(table, name)
                && are_same(sets, own.as_slice())
                && is_same_condition(cond, tested)
        }
        _ => false,
    }
}

/// Whether a command is the DELETE of these.
fn is_delete(table: &Name, cond: &Option<Term>, other: &Command) -> bool
    ensures { result ≡ true
        → y.Command.delete table.now (condition_view cond.now) ≡ command_view other.now }
{
    match other {
        Command::Delete {
            table: name,
            cond: tested,
        } => is_same_name(table, name) && is_same_condition(cond, tested),
        _ => false,
    }
}

/// Whether a command is this SELECT.
fn is_select(query: &Query, other: &Command) -> bool
    ensures { result ≡ true → y.select (query_view query.now) ≡ command_view other.now }
{
    match other {
        Command::Select { query: own } => is_same_query(query, own),
        _ => false,
    }
}

/// Whether two commands of changes are the same. No change has another one than these.
fn is_same_command(command: &Command, other: &Command) -> bool
    ensures { result ≡ true → command_view command.now ≡ command_view other.now }
{
    match command {
        Command::Insert { table, rows } => is_insert(table, rows.as_slice(), other),
        Command::InsertSelect { table, query } => is_insert_select(table, query, other),
        Command::Update { table, sets, cond } => is_update(table, sets.as_slice(), cond, other),
        Command::Delete { table, cond } => is_delete(table, cond, other),
        Command::Select { query } => is_select(query, other),
        _ => false,
    }
}

// ---- changes

/// Whether a change drops this statement.
fn is_drop(t: u64, k: u64, other: &LogChange) -> bool
    ensures { result ≡ true → y.drop t k ≡ change_view other.now }
{
    match other {
        LogChange::Drop { t: own, k: step } => t == *own && k == *step,
        _ => false,
    }
}

/// Whether a change drops this transaction.
fn is_drop_all(t: u64, other: &LogChange) -> bool
    ensures { result ≡ true → y.drop_all t ≡ change_view other.now }
{
    match other {
        LogChange::DropAll { t: own } => t == *own,
        _ => false,
    }
}

/// Whether a change puts this command in the place of this statement.
fn is_replace(t: u64, k: u64, command: &Command, other: &LogChange) -> bool
    ensures { result ≡ true → y.replace t k (command_view command.now) ≡ change_view other.now }
{
    match other {
        LogChange::Replace {
            t: own,
            k: step,
            command: given,
        } => t == *own && k == *step && is_same_command(command, given.as_ref()),
        _ => false,
    }
}

/// Whether a change adds this command to this transaction.
fn is_add(t: u64, command: &Command, other: &LogChange) -> bool
    ensures { result ≡ true → y.add t (command_view command.now) ≡ change_view other.now }
{
    match other {
        LogChange::Add {
            t: own,
            command: given,
        } => t == *own && is_same_command(command, given.as_ref()),
        _ => false,
    }
}

impl Compared for LogChange {
    ghost Tree = { y.LogChange };

    ghost view = { change_view };

    fn is_same(&self, other: &LogChange) -> bool {
        match self {
            LogChange::Drop { t, k } => is_drop(*t, *k, other),
            LogChange::DropAll { t } => is_drop_all(*t, other),
            LogChange::Replace { t, k, command } => is_replace(*t, *k, command.as_ref(), other),
            LogChange::Add { t, command } => is_add(*t, command.as_ref(), other),
        }
    }
}

/// Whether two lists of changes are the same.
pub fn are_same_changes(changes: &[LogChange], others: &[LogChange]) -> bool
    ensures { result ≡ true → changes_view changes.now ≡ changes_view others.now }
{
    are_same(changes, others)
}
