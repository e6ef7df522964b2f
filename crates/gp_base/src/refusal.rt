//! Why a line of a script or a question is refused.

ghost use Rattle.std.specs.Prelude.{◌≡◌, ◌++◌, ◌∷◌, [], codes, IfOk, OnOk, OnErr};
ghost use Rattle.std.specs.Fmt.{decimal};
ghost use Rattle.std.specs.List.{concat};
ghost use Rattle.gp_base.specs.Identities.{identity_text};
ghost use Rattle.gp_base.specs.Refusals.{column_text, fate_text, limit_text, refusal_text};

use crate::display::id_text;
use crate::error::NoMemory;
use crate::join::text_of_pieces;
use crate::limit::Limit;
use crate::name::Name;
use crate::row_id::RowId;
use crate::text::Text;
use std::alloc::Global;

/// What has become of a transaction.
#[derive(Clone, Copy)]
pub enum Fate {
    /// It has not ended.
    Active,
    /// It was rolled back.
    RolledBack,
    /// Its commit was refused, since a later one had written the same row.
    Lost,
    /// It committed and made this version.
    Committed(u32),
}

/// Why a line is refused. The text of a refusal begins with its code, `E` and two digits, which scripts can test for.
#[derive(Drop)]
pub enum Refusal {
    /// The line is not UTF-8.
    E01,
    /// No lexeme can be read at this column, which counts bytes from 1.
    E02 {
        /// The column.
        column: u32,
    },
    /// The lexeme at this column fits nothing that may be there, or the line ends there too early.
    E03 {
        /// The column.
        column: u32,
    },
    /// There is no such table.
    E04 {
        /// Its name.
        table: Name,
    },
    /// There is no such column.
    E05 {
        /// The FROM name before it, if one is written.
        item: Option<Name>,
        /// Its name.
        col: Name,
    },
    /// The name stands for more than one column or FROM item.
    E06 {
        /// The name.
        name: Name,
    },
    /// The statement is not well typed.
    E07,
    /// The name of a table or a column is there already.
    E08 {
        /// The name.
        name: Name,
    },
    /// The command is allowed outside a transaction only, and the session has a transaction.
    E09,
    /// The command is allowed inside a transaction only, and the session has none.
    E10,
    /// The COMMIT is lost: a row that the transaction wrote was also written by a transaction that committed after the
    /// BEGIN. Of such rows it names the first, by table and then by identity.
    E11 {
        /// The transaction.
        t: u32,
        /// The first transaction that committed such a write.
        other: u32,
        /// The table.
        table: Name,
        /// The identity of the row.
        id: RowId,
    },
    /// An INSERT would leave too many rows in the table.
    E12 {
        /// The table.
        table: Name,
    },
    /// An INSERT would make a row identity of too many nodes.
    E13,
    /// A limit is passed.
    E14 {
        /// The limit.
        limit: Limit,
    },
    /// A row or a select list has another number of columns than the table or the first block.
    E15,
    /// The line is too long.
    E16,
    /// There is no such transaction.
    E20 {
        /// The transaction.
        t: u64,
    },
    /// The transaction did not commit.
    E21 {
        /// The transaction.
        t: u64,
        /// What has become of it.
        fate: Fate,
    },
    /// The transaction has no such statement.
    E22 {
        /// The transaction.
        t: u64,
        /// The number of its statements.
        count: u64,
    },
    /// There is no such version.
    E23 {
        /// The last version.
        count: u64,
    },
    /// The version that the log gives differs from the stored one.
    E24 {
        /// The version.
        version: u32,
        /// The first table where they differ.
        table: Name,
    },
    /// The log gives too many rows.
    E25 {
        /// The transaction.
        t: u32,
        /// Its statement.
        k: u32,
    },
    /// The log gives a row identity of too many nodes.
    E26 {
        /// The transaction.
        t: u32,
        /// Its statement.
        k: u32,
    },
    /// The answer has too many rows.
    E27,
    /// The number of a rule is no element of the semiring.
    E28 {
        /// The number.
        number: u64,
        /// The semiring's name.
        semiring: Text,
    },
    /// The question has no answer as CSV.
    E30,
    /// With the change that a question asks about, the COMMIT of a transaction would be lost, for the same reason as in
    /// E11. It is the first such transaction, by the version that it made.
    E31 {
        /// The transaction.
        t: u32,
        /// The first transaction that would commit such a write.
        other: u32,
        /// The table.
        table: Name,
        /// The identity of the row.
        id: RowId,
    },
}

fn limit_text(limit: Limit) -> &'static [u8]
    ensures { result.now ≡ limit_text limit }
{
    match limit {
        Limit::Tables => b"tables",
        Limit::Columns => b"columns",
        Limit::From => b"from",
        Limit::Branches => b"branches",
        Limit::Values => b"values",
        Limit::Nodes => b"nodes",
        Limit::Depth => b"depth",
        Limit::Changes => b"changes",
        Limit::Transactions => b"transactions",
        Limit::Statements => b"statements",
        Limit::Steps => b"steps",
        Limit::Versions => b"versions",
    }
}

fn fate_text(fate: Fate) -> &'static [u8]
    ensures { result.now ≡ fate_text fate }
{
    match fate {
        Fate::Active => b"active",
        Fate::RolledBack => b"rolled back",
        Fate::Lost => b"lost",
        Fate::Committed(_) => b"committed",
    }
}

/// A message that ends in a number.
fn numbered_text(alloc: Global, message: &[u8], number: u64) -> Result<Vec<u8>, NoMemory>
    ensures { IfOk result (λ text. text.items ≡ concat (message.now ∷ decimal number ∷ [])) }
{
    let number = number.to_string(alloc)?;
    text_of_pieces(alloc, &[message, number.as_bytes()])
}

/// A message about a statement of a transaction.
fn statement_text(alloc: Global, message: &[u8], t: u32, k: u32) -> Result<Vec<u8>, NoMemory>
    ensures { IfOk result (λ text. text.items
        ≡ concat (message.now ∷ decimal t ∷ codes " at " ∷ decimal k ∷ [])) }
{
    let t = t.to_string(alloc)?;
    let k = k.to_string(alloc)?;
    text_of_pieces(alloc, &[message, t.as_bytes(), b" at ", k.as_bytes()])
}

fn column_text(alloc: Global, item: &Option<Name>, col: &Name) -> Result<Vec<u8>, NoMemory>
    ensures { IfOk result (λ text. text.items ≡ column_text item.now col.now) }
{
    match item {
        None => text_of_pieces(alloc, &[b"E05 no column ", col.as_bytes()]),
        Some(item) => text_of_pieces(
            alloc,
            &[b"E05 no column ", item.as_bytes(), b".", col.as_bytes()],
        ),
    }
}

fn fate_refusal_text(alloc: Global, t: u64, fate: Fate) -> Result<Vec<u8>, NoMemory>
    ensures { IfOk result (λ text. text.items ≡ refusal_text (Refusal.E21 t fate)) }
{
    let t = t.to_string(alloc)?;
    text_of_pieces(
        alloc,
        &[b"E21 transaction ", t.as_bytes(), b" is ", fate_text(fate)],
    )
}

/// A message about a conflict of a transaction with another one.
fn conflict_text<'a>(
    alloc: Global,
    code: &'a [u8],
    verb: &'a [u8],
    t: u32,
    other: u32,
    table: &'a Name,
    id: &RowId,
) -> Result<Vec<u8>, NoMemory>
    ensures { IfOk result (λ text. text.items ≡ concat (code.now ∷ decimal t ∷ verb.now ∷ decimal other
        ∷ codes " on " ∷ table.now ∷ codes " " ∷ identity_text id.now ∷ [])) }
{
    let t = t.to_string(alloc)?;
    let other = other.to_string(alloc)?;
    let id = id_text(alloc, id)?;
    text_of_pieces(
        alloc,
        &[
            code,
            t.as_bytes(),
            verb,
            other.as_bytes(),
            b" on ",
            table.as_bytes(),
            b" ",
            &id,
        ],
    )
}

fn version_refusal_text(alloc: Global, version: u32, table: &Name) -> Result<Vec<u8>, NoMemory>
    ensures { IfOk result (λ text. text.items ≡ refusal_text (Refusal.E24 version table.now)) }
{
    let version = version.to_string(alloc)?;
    text_of_pieces(
        alloc,
        &[
            b"E24 version ",
            version.as_bytes(),
            b" differs on ",
            table.as_bytes(),
        ],
    )
}

fn semiring_refusal_text(alloc: Global, number: u64, semiring: &Text) -> Result<Vec<u8>, NoMemory>
    ensures { IfOk result (λ text. text.items ≡ refusal_text (Refusal.E28 number semiring.now)) }
{
    let number = number.to_string(alloc)?;
    text_of_pieces(
        alloc,
        &[
            b"E28 ",
            number.as_bytes(),
            b" is not in ",
            semiring.as_bytes(),
        ],
    )
}

fn refusal_text(alloc: Global, refusal: &Refusal) -> Result<Vec<u8>, NoMemory>
    ensures { IfOk result (λ text. text.items ≡ refusal_text refusal.now) }
{
    match refusal {
        Refusal::E01 => text_of_pieces(alloc, &[b"E01 not UTF-8"]),
        Refusal::E02 { column } => {
            numbered_text(alloc, b"E02 lexical fault at column ", u64::from(*column))
        }
        Refusal::E03 { column } => {
            numbered_text(alloc, b"E03 syntax fault at column ", u64::from(*column))
        }
        Refusal::E04 { table } => text_of_pieces(alloc, &[b"E04 no table ", table.as_bytes()]),
        Refusal::E05 { item, col } => column_text(alloc, item, col),
        Refusal::E06 { name } => text_of_pieces(alloc, &[b"E06 ambiguous ", name.as_bytes()]),
        Refusal::E07 => text_of_pieces(alloc, &[b"E07 type"]),
        Refusal::E08 { name } => text_of_pieces(alloc, &[b"E08 name twice ", name.as_bytes()]),
        Refusal::E09 => text_of_pieces(alloc, &[b"E09 transaction active"]),
        Refusal::E10 => text_of_pieces(alloc, &[b"E10 no transaction"]),
        Refusal::E11 {
            t,
            other,
            table,
            id,
        } => conflict_text(
            alloc,
            b"E11 transaction ",
            b" lost to ",
            *t,
            *other,
            table,
            id,
        ),
        Refusal::E12 { table } => {
            text_of_pieces(alloc, &[b"E12 more than 10000 rows in ", table.as_bytes()])
        }
        Refusal::E13 => text_of_pieces(alloc, &[b"E13 identity over 64 nodes"]),
        Refusal::E14 { limit } => text_of_pieces(alloc, &[b"E14 limit ", limit_text(*limit)]),
        Refusal::E15 => text_of_pieces(alloc, &[b"E15 column count"]),
        Refusal::E16 => text_of_pieces(alloc, &[b"E16 line too long"]),
        Refusal::E20 { t } => numbered_text(alloc, b"E20 no transaction ", *t),
        Refusal::E21 { t, fate } => fate_refusal_text(alloc, *t, *fate),
        Refusal::E22 { t, count } => {
            Ok(format!(in alloc; "E22 transaction {t} has {count} statements")?.into_bytes())
        }
        Refusal::E23 { count } => numbered_text(alloc, b"E23 versions end at ", *count),
        Refusal::E24 { version, table } => version_refusal_text(alloc, *version, table),
        Refusal::E25 { t, k } => {
            statement_text(alloc, b"E25 rows over limit in transaction ", *t, *k)
        }
        Refusal::E26 { t, k } => {
            statement_text(alloc, b"E26 identity over limit in transaction ", *t, *k)
        }
        Refusal::E27 => text_of_pieces(alloc, &[b"E27 more than 50000 rows"]),
        Refusal::E28 { number, semiring } => semiring_refusal_text(alloc, *number, semiring),
        Refusal::E30 => text_of_pieces(alloc, &[b"E30 not exported"]),
        Refusal::E31 {
            t,
            other,
            table,
            id,
        } => conflict_text(
            alloc,
            b"E31 transaction ",
            b" would lose to ",
            *t,
            *other,
            table,
            id,
        ),
    }
}

/// Appends the refusal's text: its code, a space and the message. If memory runs out, `out` is unchanged.
pub fn write_refusal(alloc: Global, refusal: &Refusal, out: &mut Vec<u8>) -> Result<(), NoMemory>
    ensures ok { OnOk result (out.new.items ≡ out.old.items ++ refusal_text refusal.now) }
    ensures unchanged { OnErr result (out.new.items ≡ out.old.items) }
{
    let text = refusal_text(alloc, refusal)?;
    out.extend_from_slice(&text)?;
    Ok(())
}
