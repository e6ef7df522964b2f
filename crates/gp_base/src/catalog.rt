//! The catalogue of a history.

ghost use Rattle.std.specs.Prelude.{◌≡◌, ◌↔◌, ◌<◌, ◌≤◌, ◌++◌, ◌∷◌, [], Err, Some, length, slice_get, None, IfOk, OnOk, OnErr, IsSome};
ghost use Rattle.gp_base.specs.Catalogs.{place_of};
ghost use Rattle.gp_base.specs.CatalogForms.{HaveDifferentNames};

use crate::error::AddStop;
use crate::name::Name;
use crate::table::Table;
use indexmap::IndexMap;
use std::alloc::Global;
use std::marker::Model;

/// A catalogue has at most this many tables.
pub const MAX_TABLES: u32 = 16;

/// The tables of a history in order of creation. A table's number is its place in that order, from 0, and no two tables have
/// the same name. Contracts see a catalogue as the list of its tables.
#[derive(Drop)]
pub struct Catalog {
    // The key of each table is its name.
    tables: IndexMap<Name, Table>,
}

impl Model for Catalog {
    ghost use Rattle.std.specs.Prelude.{◌≡◌, ◌≤◌, List, length};
    ghost use Rattle.indexmap.specs.IndexMap.{keys, values};
    ghost use Rattle.gp_base.specs.declared.table.Table.{Table};
    ghost use Rattle.gp_base.specs.declared.catalog.TheConstants.{MAX_TABLES};
    ghost use Rattle.gp_base.specs.Catalogs.{table_names};

    ghost Value = { List Table };

    ghost view = { λ a. values a.tables };

    ghost invariant = { λ a.
        (keys a.tables ≡ table_names (values a.tables)) × (length (values a.tables) ≤ MAX_TABLES) };
}

impl Catalog {
    /// A catalogue with no tables.
    pub fn new(alloc: Global) -> Catalog
        ensures { result ≡ [] }
    {
        Catalog {
            tables: IndexMap::new(alloc),
        }
    }

    /// The number of tables, at most [`MAX_TABLES`].
    pub fn len(&self) -> u32
        ensures len { result ≡ length self.now }
        ensures within { result ≤ MAX_TABLES }
        ensures different { HaveDifferentNames self.now }
    {
        self.tables.len() as u32
    }

    /// The number of the table with this name, if there is one.
    pub fn find(&self, name: &Name) -> Option<u32>
        ensures { result ≡ place_of name.now self.now }
    {
        match self.tables.get_index_of(name) {
            Some(place) => Some(place as u32),
            None => None,
        }
    }

    /// The table of this number.
    pub fn table(&self, place: u32) -> &Table
        requires { place < length self.now }
        ensures { slice_get self.now place ≡ Some result.now }
    {
        &self.tables.values().as_slice()[place as usize]
    }

    /// The number that a new table of this name gets.
    fn next_place(&self, name: &Name) -> Result<u32, AddStop>
        ensures ok { IfOk result (λ place. place ≡ length self.now) }
        ensures room { OnOk result (length self.now < MAX_TABLES) }
        ensures new { OnOk result (place_of name.now self.now ≡ None) }
        ensures full { (result ≡ Err AddStop.Full) ↔ (MAX_TABLES ≤ length self.now) }
        ensures exists { (result ≡ Err AddStop.Exists)
            ↔ ((length self.now < MAX_TABLES) × IsSome (place_of name.now self.now)) }
    {
        if self.len() >= MAX_TABLES {
            return Err(AddStop::Full);
        }
        if self.find(name).is_some() {
            return Err(AddStop::Exists);
        }
        Ok(self.len())
    }

    /// Adds a table, and returns its number. After an error the catalogue is unchanged.
    pub fn add(&mut self, table: Table) -> Result<u32, AddStop>
        ensures place { IfOk result (λ place. place ≡ length self.old) }
        ensures added { OnOk result (self.new ≡ self.old ++ table ∷ []) }
        ensures full { (result ≡ Err AddStop.Full) ↔ (MAX_TABLES ≤ length self.old) }
        ensures exists { (result ≡ Err AddStop.Exists)
            ↔ ((length self.old < MAX_TABLES) × IsSome (place_of table.name self.old)) }
        ensures unchanged { OnErr result (self.new ≡ self.old) }
    {
        let place = self.next_place(&table.name)?;
        let name = table.name.clone()?;
        self.tables.insert(name, table)?;
        Ok(place)
    }
}
