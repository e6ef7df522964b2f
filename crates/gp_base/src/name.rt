//! The names of tables and columns.

ghost use Rattle.std.specs.Prelude.{◌≡◌, ◌==◌, true, IfOk};
ghost use Rattle.std.specs.List.{list_all, list_any, slice_split};
ghost use Rattle.std.specs.Str.{bytes_eq};
ghost use Rattle.std.specs.Hash as fed;
ghost use Rattle.std.specs.Cmp.{partial_equiv_from_equiv};
ghost use Rattle.std.specs.Cmp.Lexicographic.{nat_list_eq_equiv};
ghost use Rattle.std.specs.Cmp.Rules.{hashing};
ghost use Rattle.std.proofs.Common.{rules};
ghost use Rattle.gp_base.specs.Names.{is_name, is_name_byte, is_lower_letter, is_reserved};

use crate::bytes::Bytes;
use crate::error::NoMemory;
use std::alloc::{AllocError, Global};
use std::hash::{Hash, Hasher};
use std::marker::Model;

/// The greatest number of bytes of a name.
pub const MAX_NAME_LENGTH: usize = 30;

/// The reserved words, in lower case.
const RESERVED_WORDS: &[u8] =
    b"all and as begin case commit create delete else end from insert int into is not null or rollback select set table text then true union update values when where";

fn is_lower_letter(byte: u8) -> bool
    ensures { result ≡ is_lower_letter byte }
{
    b'a' <= byte && byte <= b'z'
}

fn is_name_byte(byte: u8) -> bool
    ensures { result ≡ is_name_byte byte }
{
    is_lower_letter(byte) || (b'0' <= byte && byte <= b'9') || byte == b'_'
}

fn are_name_bytes(bytes: &[u8]) -> bool
    ensures { result ≡ list_all is_name_byte bytes.now }
{
    bytes.iter().all(|byte| is_name_byte(*byte))
}

/// Whether the word is one of these words, which are separated by single spaces.
fn is_among(words: &[u8], word: &[u8]) -> bool
    ensures { result ≡ list_any (λ other. bytes_eq other word.now)
        (slice_split (λ byte. byte == 32) words.now) }
{
    words.split(|byte| *byte == b' ').any(|other| other == word)
}

fn is_reserved(word: &[u8]) -> bool
    ensures { result ≡ is_reserved word.now }
{
    is_among(RESERVED_WORDS, word)
}

/// Whether the bytes are a name: a lower-case letter, then lower-case letters, digits and underscores, at most
/// [`MAX_NAME_LENGTH`] bytes in all, and no reserved word. These are the regular identifiers of SQL (ISO/IEC 9075-2) in
/// lower case.
pub fn is_name(bytes: &[u8]) -> bool
    ensures { result ≡ is_name bytes.now }
{
    match bytes {
        [] => false,
        [first, others @ ..] => {
            is_lower_letter(*first)
                && are_name_bytes(others)
                && bytes.len() <= MAX_NAME_LENGTH
                && !is_reserved(bytes)
        }
    }
}

/// The name of a table or a column. Each value satisfies [`is_name`], so callers need not check it again.
#[derive(Drop)]
pub struct Name {
    bytes: Bytes,
}

impl Model for Name {
    ghost use Rattle.std.specs.Prelude.{◌≡◌, List, ℕ, true};
    ghost use Rattle.gp_base.specs.Names.{is_name};

    ghost Value = { List ℕ };

    ghost view = { λ a. a.bytes };

    ghost invariant = { λ a. is_name a.bytes ≡ true };

    ghost inverse = { λ bytes. record { bytes = bytes } };
}

impl Name {
    /// The name of these bytes, for which the caller has tested [`is_name`]. Running out of memory is the only error.
    pub fn new(alloc: Global, bytes: &[u8]) -> Result<Name, NoMemory>
        requires { is_name bytes.now ≡ true }
        ensures { IfOk result (λ name. name ≡ bytes.now) }
    {
        Ok(Name {
            bytes: Bytes::from_slice(alloc, bytes)?,
        })
    }

    /// The bytes of the name.
    pub fn as_bytes(&self) -> &[u8]
        ensures bytes { result.now ≡ self.now }
        ensures valid { is_name self.now ≡ true }
    {
        self.bytes.as_slice()
    }
}

impl PartialEq for Name {
    ghost eq = { bytes_eq };

    ghost laws = { partial_equiv_from_equiv nat_list_eq_equiv };

    fn eq(&self, other: &Name) -> bool {
        self.as_bytes() == other.as_bytes()
    }
}

impl Eq for Name {
    ghost laws = { nat_list_eq_equiv };
}

impl Hash for Name {
    ghost hash_input = { fed.slice fed.u8 };

    ghost respects_eq = { Prim.search (hashing, rules) };

    fn hash<H: Hasher>(&self, state: &mut H) {
        self.as_bytes().hash(state);
    }
}

impl Clone for Name {
    ghost is_clone = { λ value copy. copy ≡ value };

    fn clone(&self) -> Result<Name, AllocError> {
        Ok(Name {
            bytes: self.bytes.clone()?,
        })
    }
}
