//! Maps with expressions of their own.
ghost use Rattle.std.specs.Prelude.{◌≡◌, ◌∷◌, [], Err, IfErr, IfOk, OnErr, Some};
ghost use Rattle.std.specs.List.{AllByRecursion};
ghost use Rattle.ps_frame.specs.Tables.{Fields};
ghost use Rattle.ps_frame.specs.Trees.{IsComplete, tree_at};
ghost use Rattle.ps_meaning.specs.Maps.{map_step};
ghost use Rattle.ps_meaning.specs.Nodes.{GivesFrame, MayFault};
ghost use Rattle.ps_meaning.specs.Steps.{step_exprs};
ghost use Rattle.ps_owned_maps.specs.Owned.{is_function, step_of};
ghost use Rattle.ready_steps.specs.Ready.{IsReadyFor};

use crate::fields::push_fields;
use ps_copies::maps::copy_map;
use ps_frame::expr::AExpr;
use ps_frame::frame::DataFrame;
use ps_frame::functions::Functions;
use ps_frame::refusal::{PolarsError, PolarsResult};
use ps_frame::schema::Schema;
use ps_groups::distinct::distinct;
use ps_groups::group_by::group_by;
use ps_meaning::map::MapKind;
use ps_rows::select::select;
use ps_rows::sort::sort;
use ps_tables::user::user;
use pu_base::{Arena, Node};
use std::alloc::Global;
use std::marker::Model;

/// What a node does that takes its whole input first, with a copy of the expressions that it names.
#[derive(Drop)]
pub struct OwnedMap {
    kind: MapKind,
    exprs: Arena<AExpr>,
}

impl Model for OwnedMap {
    ghost use Rattle.ps_owned_maps.specs.Owned.{MapParts};

    ghost Value = { MapParts };

    ghost view = { λ m. record { kind = m.kind; exprs = m.exprs.items } };
}

impl OwnedMap {
    /// The map of this kind, with copies of the expressions that it names.
    ///
    /// Fails only for want of memory.
    pub fn new(alloc: Global, kind: &MapKind, exprs: &Arena<AExpr>) -> PolarsResult<OwnedMap>
        requires { AllByRecursion IsComplete (step_exprs (map_step (tree_at exprs.now.items) kind.now)) }
        ensures same { IfOk result (λ m. step_of m ≡ map_step (tree_at exprs.now.items) kind.now) }
        ensures memory { OnErr result (result ≡ Err PolarsError.OutOfMemory) }
    {
        let mut copies = Arena::new(alloc);
        // No `?`: the error of a copy is another, and it stands for want of memory alone.
        let Ok(kind) = copy_map(alloc, kind, exprs, &mut copies) else {
            return Err(PolarsError::OutOfMemory);
        };
        Ok(OwnedMap {
            kind,
            exprs: copies,
        })
    }

    /// Whether it is a function that the caller handed in.
    pub fn is_function(&self) -> bool
        ensures { result ≡ is_function (step_of self.now) }
    {
        matches!(&self.kind, MapKind::Function(_))
    }

    /// What the map gives at the node `at` over a table for which it is fit.
    ///
    /// Fails by a fault that breaks it there, by `Rows` where a column has too many rows, or for want of memory.
    pub fn call<F: Functions>(
        &self,
        alloc: Global,
        at: Node,
        functions: &F,
        df: DataFrame,
    ) -> PolarsResult<DataFrame>
        requires { (s : Fields) × IsReadyFor (F.told functions.now) (step_of self.now) (df ∷ []) s }
        ensures table { IfOk result (λ f. GivesFrame (F.told functions.now) at.0 (step_of self.now) (df ∷ []) f) }
        ensures fault { IfErr result (λ e. MayFault (F.told functions.now) at.0 (step_of self.now) (df ∷ []) e) }
    {
        match &self.kind {
            MapKind::Function(n) => user(alloc, at, functions, *n, df),
            MapKind::Select(exprs) => {
                let mut schema = Schema::new(alloc);
                push_fields(
                    alloc,
                    at,
                    exprs.as_slice(),
                    &self.exprs,
                    df.schema(),
                    &mut schema,
                )?;
                select(alloc, at, exprs.as_slice(), &self.exprs, &df, &schema)
            }
            MapKind::Sort {
                by_column,
                slice,
                sort_options,
            } => sort(
                alloc,
                at,
                by_column.as_slice(),
                *slice,
                sort_options,
                &self.exprs,
                &df,
            ),
            MapKind::GroupBy {
                keys,
                aggs,
                slice,
                ..
            } => {
                let mut schema = Schema::new(alloc);
                push_fields(
                    alloc,
                    at,
                    keys.as_slice(),
                    &self.exprs,
                    df.schema(),
                    &mut schema,
                )?;
                push_fields(
                    alloc,
                    at,
                    aggs.as_slice(),
                    &self.exprs,
                    df.schema(),
                    &mut schema,
                )?;
                group_by(
                    alloc,
                    at,
                    keys.as_slice(),
                    aggs.as_slice(),
                    *slice,
                    &self.exprs,
                    &df,
                    &schema,
                )
            }
            MapKind::Distinct(options) => distinct(alloc, options, &df),
        }
    }
}
