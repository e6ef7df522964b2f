//! The names of common table expressions, and the sources of FROM.

ghost use Rattle.std.specs.Prelude.{◌≡◌, ◌++◌, ◌∷◌, [], OnOk};
ghost use Rattle.std.specs.List.{concat};
ghost use Rattle.gp_sql.specs.Spelling as w;
ghost use Rattle.gp_sql.specs.WrittenQueries.{source_of};

use gp_base::{Catalog, NoMemory, append_all};
use std::alloc::Global;

/// The name of a common table expression.
#[derive(Clone, Copy)]
pub(crate) enum Name {
    /// That of a step.
    Step(u32),
    /// That of another query.
    Query(u64),
}

/// Appends a name.
fn push_source(
    alloc: Global,
    _catalog: &Catalog,
    source: Name,
    out: &mut Vec<u8>,
) -> Result<(), NoMemory>
    ensures { OnOk result
        (out.new.items ≡ out.old.items ++ w.source_text _catalog.now (source_of source)) }
{
    match source {
        Name::Step(j) => {
            let j = j.to_string(alloc)?;
            append_all(out, &[b"step_", j.as_bytes()])
        }
        Name::Query(n) => {
            let n = n.to_string(alloc)?;
            append_all(out, &[b"q", n.as_bytes()])
        }
    }
}

/// Appends a source between two words.
pub(crate) fn push_from(
    alloc: Global,
    catalog: &Catalog,
    begin: &[u8],
    source: Name,
    end: &[u8],
    out: &mut Vec<u8>,
) -> Result<(), NoMemory>
    ensures { OnOk result (out.new.items ≡ out.old.items
        ++ concat (begin.now ∷ w.source_text catalog.now (source_of source) ∷ end.now ∷ [])) }
{
    append_all(out, &[begin])?;
    push_source(alloc, catalog, source, out)?;
    append_all(out, &[end])
}
