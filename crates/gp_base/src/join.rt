//! Writers that append many texts to one output, without a text of their own. If memory runs out, a prefix has been appended.

ghost use Rattle.std.specs.Prelude.{◌≡◌, ◌++◌, IfOk, OnOk, OnErr, List, ℕ, ◌∷◌};
ghost use Rattle.std.specs.List.{flat_map};
ghost use Rattle.gp_base.specs.Writing.{joined_texts};
ghost use Rattle.gp_base.specs.DirectWriting.{AppendsPrefix};

use crate::error::NoMemory;
use std::alloc::Global;

/// Appends the pieces in order. If memory runs out, a prefix of their concatenation has been appended.
pub fn append_all(out: &mut Vec<u8>, pieces: &[&[u8]]) -> Result<(), NoMemory>
    ensures ok { OnOk result
        (out.new.items ≡ out.old.items ++ flat_map (λ piece. piece.now) pieces.now) }
    ensures err { OnErr result
        (AppendsPrefix out.old.items out.new.items (flat_map (λ piece. piece.now) pieces.now)) }
{
    for piece in pieces {
        out.extend_from_slice(piece)?;
    }
    Ok(())
}

/// The concatenation of the pieces.
pub fn text_of_pieces(alloc: Global, pieces: &[&[u8]]) -> Result<Vec<u8>, NoMemory>
    ensures { IfOk result (λ text. text.items ≡ flat_map (λ piece. piece.now) pieces.now) }
{
    let mut text = Vec::new(alloc);
    append_all(&mut text, pieces)?;
    Ok(text)
}

/// A textual format of the values of a type.
pub trait TextFormat<T> {
    /// The text of a value.
    ghost text: { T → List ℕ };

    /// Appends the text of a value. If memory runs out, a prefix of it has been appended.
    fn write(&self, alloc: Global, item: &T, out: &mut Vec<u8>) -> Result<(), NoMemory>
        ensures ok { OnOk result (out.new.items ≡ out.old.items ++ text item.now) }
        ensures err { OnErr result (AppendsPrefix out.old.items out.new.items (text item.now)) };
}

/// Appends the separator and the text of each item.
fn write_others<T, W: TextFormat<T>>(
    alloc: Global,
    items: &[T],
    texts: &W,
    separator: &[u8],
    out: &mut Vec<u8>,
) -> Result<(), NoMemory>
    ensures ok { OnOk result (out.new.items
        ≡ out.old.items ++ flat_map (λ item. separator.now ++ W.text item) items.now) }
    ensures err { OnErr result (AppendsPrefix out.old.items out.new.items
        (flat_map (λ item. separator.now ++ W.text item) items.now)) }
{
    for item in items {
        out.extend_from_slice(separator)?;
        texts.write(alloc, item, out)?;
    }
    Ok(())
}

/// Appends the text of the first item and, with the separator before each, of the others.
fn write_from<T, W: TextFormat<T>>(
    alloc: Global,
    first: &T,
    others: &[T],
    texts: &W,
    separator: &[u8],
    out: &mut Vec<u8>,
) -> Result<(), NoMemory>
    ensures ok { OnOk result (out.new.items
        ≡ out.old.items ++ joined_texts W.text separator.now (first.now ∷ others.now)) }
    ensures err { OnErr result (AppendsPrefix out.old.items out.new.items
        (joined_texts W.text separator.now (first.now ∷ others.now))) }
{
    texts.write(alloc, first, out)?;
    write_others(alloc, others, texts, separator, out)?;
    Ok(())
}

/// Appends the texts of the items with the separator between neighbours. If memory runs out, a prefix of that text has been
/// appended.
pub fn write_joined<T, W: TextFormat<T>>(
    alloc: Global,
    items: &[T],
    texts: &W,
    separator: &[u8],
    out: &mut Vec<u8>,
) -> Result<(), NoMemory>
    ensures ok { OnOk result
        (out.new.items ≡ out.old.items ++ joined_texts W.text separator.now items.now) }
    ensures err { OnErr result
        (AppendsPrefix out.old.items out.new.items (joined_texts W.text separator.now items.now)) }
{
    match items {
        [] => Ok(()),
        [first, others @ ..] => write_from(alloc, first, others, texts, separator, out),
    }
}
