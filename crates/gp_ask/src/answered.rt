//! Answers to questions.

ghost use Rattle.std.specs.Prelude.{◌≡◌};

use gp_base::{Refusal, Row, Sequence, Text};
use gp_semiring::Listed;

/// A row with its value in a semiring.
#[derive(Drop)]
pub struct Valued {
    /// The row.
    pub row: Row,
    /// The text of the value.
    pub text: Text,
}

/// Rows whose columns have titles.
#[derive(Drop)]
pub struct Sheet {
    /// The titles. The first is that of the number of the question, which is in no row.
    pub titles: Sequence<Text>,
    /// The rows.
    pub rows: Sequence<Row>,
}

/// A cycle of transactions in an answer.
#[derive(Drop)]
pub struct AnomalyText {
    /// Its name and its transactions.
    pub title: Text,
    /// Why each of these comes before the next one.
    pub steps: Sequence<Text>,
}

/// What the lines of an answer are.
#[derive(Clone, Copy)]
pub enum Heading {
    /// The lines of a log, in order.
    Log,
    /// The lines of a table's row versions, in the order of the dump.
    Versions,
    /// The transactions, in the order of their numbers.
    Transactions,
    /// The rows that were changed, by table and then by identity.
    Changes,
    /// The rows on which a transaction met another one, by table and then by identity.
    Conflicts,
    /// What became of rows, by identity, and of one identity in the order in which it was changed.
    History,
    /// The intervals in which rows were in an answer, in row order.
    When,
    /// The statements that an answer depends on, in the order of their lines.
    Causes,
    /// The transactions that committed, in an order in which they run one after another and do what they did.
    Serial,
    /// A cycle of transactions each of which comes before the next one.
    Cycle,
    /// There are no lines: the transactions have no such cycle, and do something else one after another in the order that was found.
    Undecided,
}

impl Heading {
    ghost use Rattle.gp_ask.specs.Texts.{heading_word};

    /// The word in front of the number of lines.
    pub(crate) fn word(self) -> &'static [u8]
        ensures { result.now ≡ heading_word self }
    {
        match self {
            Heading::Log => b"log",
            Heading::Versions => b"versions",
            Heading::Transactions => b"transactions",
            Heading::Changes => b"changes",
            Heading::Conflicts => b"conflicts",
            Heading::History => b"history",
            Heading::When => b"when",
            Heading::Causes => b"causes",
            Heading::Serial => b"serial",
            Heading::Cycle => b"cycle",
            Heading::Undecided => b"undecided",
        }
    }
}

/// The answer to a question.
#[derive(Drop)]
pub enum Answered {
    /// The rows of a query, in row order, each as often as it occurs.
    Rows(Sequence<Row>),
    /// The rows of a query, or of a difference, under titles.
    Sheet(Sheet),
    /// The distinct rows of a query, in row order, each with the monomials of all its occurrences, in order and with repetitions.
    Listed(Sequence<Listed>),
    /// The distinct rows of a query, in row order, each with its value in a semiring.
    Values(Sequence<Valued>),
    /// The lines of the program that a query over a past state is.
    Program(Sequence<Text>),
    /// Lines of any other kind.
    Lines(Heading, Sequence<Text>),
    /// The cycles of transactions, by length and then by their numbers.
    Anomalies(Sequence<AnomalyText>),
    /// The rows that are more often in one of two answers, in row order, each behind its sign, a text.
    Diff(Sequence<Row>),
    /// The number of the first line of the dump that differs, or None if it is the dump of a history.
    Checked(Option<u64>),
    /// The question was refused.
    Refused(Refusal),
}

impl Answered {
    ghost use Rattle.gp_ask.specs.Questions.{is_refused};

    /// Whether the question was refused, or the dump is found not to be that of a history.
    pub fn is_refused(&self) -> bool
        ensures { result ≡ is_refused self.now }
    {
        matches!(self, Answered::Refused(_) | Answered::Checked(Some(_)))
    }
}
