//! The tables of a catalogue have names of the language. Contracts speak of tables without the types of their names, so each name is
//! looked at once.

ghost use Rattle.std.specs.Prelude.{◌≡◌, ◌<◌, length, true};
ghost use Rattle.gp_plantext.specs.Spellable.{table_is_spellable};
ghost use Rattle.gp_explain.specs.Shapes.{AreNamed};

use gp_base::Catalog;

fn table_is_named(catalog: &Catalog, place: u32)
    requires { place < length catalog.now }
    ensures { table_is_spellable catalog.now place ≡ true }
{
    let _name = catalog.table(place).name.as_bytes();
}

/// The tables of a catalogue have names.
pub(crate) fn tables_are_named(catalog: &Catalog)
    ensures { AreNamed catalog.now }
{
    for place in 0..catalog.len() {
        table_is_named(catalog, place);
    }
}
