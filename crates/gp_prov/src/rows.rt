//! The rows of a VALUES list with their system columns.

ghost use Rattle.std.specs.Prelude.{◌≡◌, true, map, IfOk};
ghost use Rattle.gp_base.specs.Annotated.{monomials};
ghost use Rattle.gp_base.specs.Identities.{identity, no_sources};
ghost use Rattle.gp_base.specs.Tokens.{once};
ghost use Rattle.gp_base.specs.declared.token.Token.TheVariants.{Inserted};
ghost use Rattle.gp_algebra.specs.Effects.{given_from};
ghost use Rattle.gp_prov.specs.Encoding.{encoded_row};

use crate::numbers::add;
use gp_base::{Cell, Monomial, NoMemory, Row, RowId, Sequence, Token};
use std::alloc::Global;

/// Row n of a VALUES list with its system columns.
fn given_row(
    alloc: Global,
    with_prov: bool,
    t: u32,
    k: u32,
    n: u32,
    cells: &Row,
) -> Result<Row, NoMemory>
    ensures { IfOk result (λ row. row ≡ encoded_row with_prov record {
      identity = identity t k n no_sources;
      cells = cells.now;
      mark = true;
      annotation = once (Inserted t k n);
    }) }
{
    let mut row = cells.clone()?;
    row.push(Cell::Id(RowId::given(alloc, t, k, n)))?;
    row.push(Cell::Mark(true))?;
    if with_prov {
        row.push(Cell::Mono(Monomial::of(alloc, Token::Inserted { t, k, n })))?;
    }
    Ok(row)
}

/// The rows of a VALUES list of statement k of transaction t, with their system columns.
pub(crate) fn given_rows(
    alloc: Global,
    with_prov: bool,
    t: u32,
    k: u32,
    rows: &[Row],
) -> Result<Sequence<Row>, NoMemory>
    ensures { IfOk result (λ new. new
        ≡ map (encoded_row with_prov) (given_from monomials t k 1 rows.now)) }
{
    let mut new = Sequence::new(alloc);
    let mut n = 0;
    for row in rows {
        n = add(n, 1)?;
        new.push(given_row(alloc, with_prov, t, k, n, row)?)?;
    }
    Ok(new)
}
