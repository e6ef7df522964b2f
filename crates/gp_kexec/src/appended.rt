//! Rows that an INSERT step appends.

ghost use Rattle.std.specs.Prelude.{◌≡◌, ◌∷◌, ◌++◌, [], List, map, IfOk, OnOk};
ghost use Rattle.gp_base.specs.IdentityForms.{sources_of};
ghost use Rattle.gp_kexec.specs.Evaluating.{Appends, Holds, new_row};
ghost use Rattle.gp_kexec.specs.Rows.{held_view};
ghost use Rattle.gp_algebra.specs.AnnotatedMeaning.{Derived};

use crate::held::Held;
use gp_base::{NoMemory, Row, RowId};

/// The rows of an INSERT step so far.
#[derive(Drop)]
pub struct Appended<K> {
    /// The rows.
    pub rows: Vec<Held<K>>,
    /// The cells of the rows whose identities would have too many nodes.
    pub large: Vec<Row>,
}

impl<K: Drop> Appended<K> {
    /// Appends a new row, whose identity is over these sources.
    pub fn push(
        &mut self,
        t: u32,
        statement: u32,
        n: u32,
        sources: Vec<RowId>,
        cells: Row,
        value: K,
    ) -> Result<(), NoMemory>
        ensures { OnOk result (Appends self.old self.new
            (new_row t statement n (sources_of sources.items) cells value ∷ [])) }
    {
        match RowId::new(t, statement, n, sources) {
            Some(id) => {
                self.rows.push(Held {
                    id,
                    cells,
                    is_marked: true,
                    value,
                })?;
                Ok(())
            }
            None => {
                self.large.push(cells)?;
                Ok(())
            }
        }
    }

    /// These rows behind others.
    pub fn onto(self, rows: Vec<Held<K>>) -> Result<Appended<K>, NoMemory>
        ensures { IfOk result (λ made. (before after : List (Derived K))
            → map held_view rows.items ≡ before → Holds self after → Holds made (before ++ after)) }
    {
        let mut all = rows;
        let mut rows = self.rows;
        all.append(&mut rows)?;
        Ok(Appended {
            rows: all,
            large: self.large,
        })
    }
}
