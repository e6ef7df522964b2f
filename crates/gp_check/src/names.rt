//! Repeated names.

ghost use Rattle.std.specs.Prelude.{◌≡◌, List, ℕ, map, option_copied};
ghost use Rattle.std.specs.List.{list_any};
ghost use Rattle.std.specs.Str.{bytes_eq};
ghost use Rattle.gp_check.specs.Faults.{first_repeated};

use gp_base::{Column, Name};
use gp_syntax::{Item, SetTerm};

/// What has a name that has to differ from its neighbours' names.
pub trait Named {
    /// The name.
    ghost label: { Self → List ℕ };

    /// The name.
    fn name(&self) -> &Name
        ensures { result.now ≡ label self.now };
}

impl Named for Column {
    ghost label = { λ column. column.name };

    fn name(&self) -> &Name {
        &self.name
    }
}

impl Named for Item {
    ghost label = { λ item. item.name };

    fn name(&self) -> &Name {
        &self.name
    }
}

impl Named for SetTerm {
    ghost label = { λ set. set.col };

    fn name(&self) -> &Name {
        &self.col
    }
}

/// Whether one of the items has the name.
fn is_among<T: Named>(items: &[T], name: &Name) -> bool
    ensures { result ≡ list_any (bytes_eq name.now) (map T.label items.now) }
{
    for item in items {
        if *name == *item.name() {
            return true;
        }
    }
    false
}

/// The first name that an earlier item of the list has, if there is one. The items before it have different names, so where
/// there are only so many names, the walk ends early.
pub fn first_repeated<T: Named>(items: &[T]) -> Option<&Name>
    ensures { option_copied result ≡ first_repeated (map T.label items.now) }
{
    for (i, item) in items.iter().enumerate() {
        if is_among(&items[..i], item.name()) {
            return Some(item.name());
        }
    }
    None
}
