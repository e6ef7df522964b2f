//! What a commit does to the spans of a table.

ghost use Rattle.std.specs.Prelude.{◌≡◌, ◌+◌, ◌≤◌, ◌++◌, ◌∷◌, [], map, length, vec_len, vec_capacity, None};
ghost use Rattle.std.specs.List.{filter_map};
ghost use Rattle.gp_versions.specs.Chains.{IsChained, closed, ended_first, entered};
ghost use Rattle.gp_versions.specs.Commits.{after_commit, begun, ended};
ghost use Rattle.gp_versions.specs.TableSpans.{NoOverlap};

use crate::chains::Chains;
use crate::span::{Span, Write};
use crate::writes::Writes;

/// Ends the span, if it is open.
fn end_open(span: &mut Span, version: u32)
    ensures { span.new ≡ closed version span.old }
{
    if span.to.is_none() {
        span.to = Some(version);
    }
}

/// Ends the newest entered span of a written identity, if it is open. Those before it have ended, as spans of one identity
/// never overlap.
fn end_newest(spans: &mut [Span], chains: &Chains, version: u32, write: &Write)
    requires chained { IsChained chains.now spans.old }
    requires apart { NoOverlap spans.old }
    ensures { spans.new ≡ ended_first (entered chains.now) version (write.now ∷ []) spans.old }
{
    let Some(place) = chains.newest_of(spans, &write.id) else {
        return;
    };
    end_open(&mut spans[place as usize], version);
}

/// Ends the open entered spans of the written identities. Each is looked up, so that this costs what the commit writes.
fn end_entered(spans: &mut [Span], chains: &Chains, version: u32, writes: &[Write])
    requires chained { IsChained chains.now spans.old }
    requires apart { NoOverlap spans.old }
    ensures { spans.new ≡ ended_first (entered chains.now) version writes.now spans.old }
{
    for write in writes {
        end_newest(spans, chains, version, write);
    }
}

/// Ends the span, if it is open and its identity is written.
fn end_span(span: &mut Span, version: u32, writes: &Writes)
    ensures { span.new ≡ ended version writes.now span.old }
{
    if span.to.is_none() && writes.has(&span.id) {
        span.to = Some(version);
    }
}

/// Ends the open spans of the written identities in one pass.
fn end_spans(spans: &mut [Span], version: u32, writes: &Writes)
    ensures { spans.new ≡ map (ended version writes.now) spans.old }
{
    for span in spans.iter_mut() {
        end_span(span, version, writes);
    }
}

/// Ends the open spans of the written identities: the entered ones are looked up, and one pass finds the others.
fn end_all(spans: &mut [Span], chains: &Chains, version: u32, writes: &Writes)
    requires chained { IsChained chains.now spans.old }
    requires apart { NoOverlap spans.old }
    ensures { spans.new ≡ map (ended version writes.now) spans.old }
{
    end_entered(spans, chains, version, writes.as_slice());
    end_spans(&mut spans[chains.len()..], version, writes);
}

/// Begins a span for each write that has a row.
fn begin_spans(spans: &mut Vec<Span>, version: u32, writes: Vec<Write>)
    requires { vec_len spans.old + vec_len writes ≤ vec_capacity spans.old }
    ensures { spans.new.items ≡ spans.old.items ++ filter_map (begun version) writes.items }
{
    for write in writes {
        let Write { id, row } = write;
        if let Some(row) = row {
            let span = Span {
                id,
                from: version,
                to: None,
                row,
            };
            match spans.push(span) {
                Ok(()) => {}
                Err(_) => unreachable!(),
            }
        }
    }
}

/// Ends the open spans of the written identities, and begins a span for each write that has a row.
pub fn commit_spans(spans: &mut Vec<Span>, chains: &Chains, version: u32, writes: Writes)
    requires chained { IsChained chains.now spans.old.items }
    requires apart { NoOverlap spans.old.items }
    requires room { vec_len spans.old + length writes ≤ vec_capacity spans.old }
    ensures { spans.new.items ≡ after_commit version writes spans.old.items }
{
    end_all(spans, chains, version, &writes);
    begin_spans(spans, version, writes.into_vec());
}
