//! Questions about a history.

use crate::command::{Command, Query};
use crate::term::Term;
use gp_base::{Name, Sequence};
use gp_grammar::{SemiringName, TokenKind};
use std::rc::Rc;

/// The state that a question asks about.
#[derive(Clone, Copy)]
pub enum Point {
    /// A version: the state after that many commits.
    AsOf {
        /// The version.
        v: u64,
    },
    /// A transaction's view after one of its statements.
    After {
        /// The transaction.
        t: u64,
        /// The statement, from 1.
        k: u64,
    },
    /// The version that a transaction's commit made.
    Commit {
        /// The transaction.
        t: u64,
    },
}

/// The value of some provenance tokens: those of a kind whose numbers are the given ones. A number that is None is
/// that of any token.
#[derive(Clone, Copy)]
pub struct Rule {
    /// The kind of the tokens.
    pub kind: TokenKind,
    /// Their transaction.
    pub t: Option<u32>,
    /// Their statement.
    pub k: Option<u32>,
    /// Their row, for an INSERT with VALUES.
    pub n: Option<u32>,
    /// The number that stands for their value in the semiring.
    pub value: u64,
}

/// What a question asks for.
#[derive(Drop)]
pub enum How {
    /// The rows.
    Rows,
    /// `PROVENANCE OF`: the rows with their provenance.
    Provenance,
    /// `EXPLAIN`: the query that computes the rows.
    Explain {
        /// The query computes the provenance too.
        prov: bool,
    },
    /// `VALUE IN`: the rows with their values in a semiring.
    Value {
        /// The semiring.
        semiring: SemiringName,
        /// The values of tokens, of which the first rule that matches counts.
        rules: Sequence<Rule>,
        /// The value of the tokens that no rule matches, if ELSE gives one.
        other: Option<u64>,
    },
    /// `WITHOUT`: the rows that are left where some tokens are missing.
    Without {
        /// A rule of value 0 for each pattern of tokens that are left out. There is at least one.
        rules: Sequence<Rule>,
    },
}

/// What a query is asked of.
#[derive(Drop)]
pub enum Subject {
    /// A state.
    State {
        /// What is asked for.
        how: How,
        /// The state.
        state: Point,
    },
    /// `SAW`: what a transaction saw after its first statements, whatever became of it.
    Saw {
        /// The transaction.
        t: u64,
        /// How many statements.
        k: u64,
    },
}

/// A change of one transaction in the log. A command in it is an INSERT, an UPDATE, a DELETE or a SELECT.
#[derive(Drop)]
pub enum LogChange {
    /// `DROP`: without one of its statements.
    Drop {
        /// The transaction.
        t: u64,
        /// The statement, from 1.
        k: u64,
    },
    /// `DROP` without the number of a statement: without all of its statements.
    DropAll {
        /// The transaction.
        t: u64,
    },
    /// `REPLACE`: with another command in the place of one of its statements.
    Replace {
        /// The transaction.
        t: u64,
        /// The statement, from 1.
        k: u64,
        /// The command.
        command: Rc<Command>,
    },
    /// `ADD`: with one more statement, after its last one.
    Add {
        /// The transaction.
        t: u64,
        /// The command of the statement.
        command: Rc<Command>,
    },
}

/// One of the two sides of a difference: rows of a state, rows that are left without some tokens, or what a transaction saw.
#[derive(Drop)]
pub enum Side {
    /// Of the history.
    AsIs {
        /// The state.
        subject: Subject,
    },
    /// `WHATIF`: of the history that there would be with some changes.
    Changed {
        /// The changes, made one after another. There is at least one.
        changes: Sequence<LogChange>,
        /// The state.
        subject: Subject,
    },
}

/// A question.
#[derive(Drop)]
pub enum Question {
    /// `TRANSACTIONS`: the transactions.
    Transactions,
    /// `LOG`: the log of a transaction.
    Log {
        /// The transaction.
        t: u64,
    },
    /// `VERSIONS OF`: the versions of a table's rows.
    Versions {
        /// The table.
        table: Name,
    },
    /// `CHANGES`: the rows that a statement changed.
    Changes {
        /// The transaction.
        t: u64,
        /// The statement, from 1.
        k: u64,
    },
    /// `CHANGES` and `COMMIT`: the rows that a commit changed.
    CommitChanges {
        /// The transaction.
        t: u64,
    },
    /// `CONFLICTS`: the rows on which a transaction met another one.
    Conflicts {
        /// The transaction.
        t: u64,
    },
    /// `HISTORY OF`: what changed the rows of a table.
    History {
        /// The table.
        table: Name,
        /// The condition on a row, once in its life, if WHERE gives one.
        cond: Option<Term>,
    },
    /// `WHEN`: the versions in which each row of a query is there.
    When {
        /// The query.
        query: Query,
    },
    /// `SERIAL`: whether the transactions could have run one after another.
    Serial,
    /// `ANOMALIES`: all that kept the transactions from running one after another.
    Anomalies,
    /// `CHECK`: whether the dump is that of a history.
    Check,
    /// `DIFF`: how the rows of a query differ from one side to the other.
    Diff {
        /// The side without which rows have a minus.
        first: Side,
        /// The side without which rows have a plus.
        second: Side,
        /// The query.
        query: Query,
    },
    /// `CAUSES OF`: the statements without which the rows of a query would be others.
    Causes {
        /// Rows of a state, or those that are left without some tokens.
        subject: Subject,
        /// The query.
        query: Query,
    },
    /// A query over a state, or over what a transaction saw.
    Ask {
        /// What it is asked of.
        subject: Subject,
        /// The query.
        query: Query,
    },
    /// `WHATIF`: a query over the history that there would be with some changes.
    WhatIf {
        /// The changes, made one after another. There is at least one.
        changes: Sequence<LogChange>,
        /// What it is asked of.
        subject: Subject,
        /// The query.
        query: Query,
    },
    /// `EXPLAIN SAW`: the query that computes what a transaction saw after its first statements.
    ExplainSaw {
        /// The transaction.
        t: u64,
        /// How many statements.
        k: u64,
        /// The query.
        query: Query,
    },
}
