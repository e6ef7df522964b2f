//! What row versions are annotated with.

ghost use Rattle.std.specs.Prelude.{◌≡◌, ◌<◌, ℕ, map, IfOk};
ghost use Rattle.gp_algebra.specs.QueryViews.{annotated_program_view};
ghost use Rattle.gp_base.specs.Annotated.{Annotations};
ghost use Rattle.gp_history.specs.Images.{IsImage};
ghost use Rattle.gp_history.specs.Narrowing.{narrow_spans, narrow_versions};
ghost use Rattle.gp_history.specs.Noted.{row_view};
ghost use Rattle.gp_log.specs.Contents.{commits, tables};
ghost use Rattle.gp_log.specs.LogFitting.{SpansFit};
ghost use Rattle.gp_history.specs.Histories as h;

use crate::narrowed::Narrowed;
use gp_algebra::AProgram;
use gp_base::NoMemory;
use gp_exec::ExecStop;
use gp_kexec::Held;
use gp_log::Log;
use gp_versions::VersionTable;
use std::alloc::Global;

/// The program of a table that a transaction published.
#[derive(Drop)]
pub struct Publication {
    /// The version before the one that the transaction made.
    pub before: u32,
    /// The place of the table.
    pub table: u32,
    /// Its program.
    pub program: AProgram,
}

/// What annotates row versions with values of a type. Running out of memory says nothing.
pub trait Annotator<A: Drop> {
    /// Its one, its products and its tokens.
    ghost domain: { Self → Annotations A };

    /// The annotation of a row that nothing is known of.
    fn one(&self, alloc: Global) -> Result<A, NoMemory>
        ensures { IfOk result (λ one. one ≡ (domain self.now).one) };

    /// A copy.
    fn copy(&self, alloc: Global, annotation: &A) -> Result<A, NoMemory>
        ensures { IfOk result (λ copy. copy ≡ annotation.now) };

    /// The rows of a table that a transaction published, in any order, over some of the row versions with their annotations. Rows and
    /// Ancestry as its run over these stops; an INSERT may leave as many rows as `known` says.
    fn rows(
        &self,
        alloc: Global,
        log: &Log,
        versions: &[VersionTable],
        known: &Narrowed<'_, A>,
        of: &Publication,
    ) -> Result<Vec<Held<A>>, ExecStop>
        requires sound { h.IsSound log.now versions.now }
        requires within { of.now.before < commits log.now }
        requires program { annotated_program_view of.now.program ≡ h.maker_program log.now
            of.now.before of.now.table }
        requires fit { SpansFit (tables log.now) (narrow_spans known.now) }
        requires known { (version table : ℕ) → narrow_versions known.now version table ≡ h.past_of
            (domain self.now) log.now versions.now of.now.before (narrow_spans known.now) version
            table }
        ensures { h.Publishes (domain self.now) log.now versions.now of.now.before
            (narrow_spans known.now) known.now.most (λ rows. map row_view rows.items) of.now.table
            result };

    /// Its annotations are what lists of tokens stand for.
    ghost is_image: { (annotator : Self) → IsImage (domain annotator) };
}
