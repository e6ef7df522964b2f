//! Questions that were read, and their queries: these may be asked.

ghost use Rattle.std.specs.Prelude.{◌≡◌, true};
ghost use Rattle.gp_check.specs.Valid.{query_is_valid};
ghost use Rattle.gp_grammar.specs.Reading.{question_of};
ghost use Rattle.gp_syntax.specs.ReadResults.{Returns};
ghost use Rattle.gp_syntax.specs.Views.{query_view, question_view};
ghost use Rattle.gp_ask.specs.Answerable.{has_few_items, question_is_valid};

use gp_base::Stop;
use gp_syntax::{Query, Question, read_question};
use std::alloc::Global;

/// A question that was read. Its query and the commands of its changes are valid, if it has them, and no FROM of the query has more items
/// than a line may have.
#[derive(Drop)]
pub struct ValidQuestion {
    /// The question.
    pub read: Question,
    pub ghost valid: { question_is_valid (question_view read) ≡ true },
}

impl ValidQuestion {
    /// Reads a question as [`read_question`] does.
    pub fn of_line(alloc: Global, line: &[u8]) -> Result<ValidQuestion, Stop>
        ensures { Returns (λ question. question_view question.read) result (question_of line.now) }
    {
        let read = read_question(alloc, line)?;
        Ok(ValidQuestion { read })
    }
}

/// The query of a question that was read.
#[derive(Clone, Copy)]
pub(crate) struct ValidQuery<'a> {
    /// The query.
    pub read: &'a Query,
    pub ghost valid: { query_is_valid (query_view read.now) ≡ true },
    pub ghost few: { has_few_items (query_view read.now) ≡ true },
}
