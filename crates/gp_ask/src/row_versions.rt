//! The row versions of a table.

ghost use Rattle.std.specs.Prelude.{◌≡◌, map, IfOk};
ghost use Rattle.gp_base.specs.Catalogs.{place_of};
ghost use Rattle.gp_grammar.specs.Syntax as y;
ghost use Rattle.gp_dump.specs.Views.{dump_view};
ghost use Rattle.gp_dumpline.specs.Texts.{span_text};
ghost use Rattle.gp_ask.specs.Computed.{computed_answer};
ghost use Rattle.gp_ask.specs.Asking.{table_spans};

use crate::answered::{Answered, Heading};
use gp_base::{Name, NoMemory, Refusal, Sequence, Text};
use gp_dump::Dump;
use gp_dumpline::write_span;
use gp_versions::Span;
use std::alloc::Global;

/// The line of a span in a dump.
fn span_line(alloc: Global, span: &Span) -> Result<Text, NoMemory>
    ensures { IfOk result (λ text. text ≡ span_text span.now) }
{
    let mut text = Vec::new(alloc);
    write_span(alloc, span, &mut text)?;
    Text::from_bytes(alloc, &text)
}

/// The lines of the spans in a dump.
fn span_lines(alloc: Global, spans: &[Span]) -> Result<Sequence<Text>, NoMemory>
    ensures { IfOk result (λ lines. lines ≡ map span_text spans.now) }
{
    let mut lines = Sequence::new(alloc);
    for span in spans {
        lines.push(span_line(alloc, span)?)?;
    }
    Ok(lines)
}

/// The spans of a table; none if it is not there.
pub(crate) fn spans_of(dump: &Dump, table: u32) -> &[Span]
    ensures { result.now ≡ table_spans (dump_view dump.now).tables table }
{
    match dump.versions.as_slice().get(table as usize) {
        Some(versions) => versions.as_slice(),
        None => &[],
    }
}

/// The row versions of a table, in the order of the dump. E04 if no table has the name.
pub fn versions_answer(alloc: Global, dump: &Dump, name: &Name) -> Result<Answered, NoMemory>
    ensures { IfOk result (λ answered. answered
        ≡ computed_answer (dump_view dump.now) (y.bare (y.versions name.now))) }
{
    match dump.log.catalog().find(name) {
        Some(table) => Ok(Answered::Lines(
            Heading::Versions,
            span_lines(alloc, spans_of(dump, table))?,
        )),
        None => Ok(Answered::Refused(Refusal::E04 {
            table: name.clone()?,
        })),
    }
}
