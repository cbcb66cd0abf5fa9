//! Equal copies of what nodes say beside the nodes that they read.
ghost use Rattle.std.specs.Prelude.{◌≡◌, Err, IfOk, OnErr};

use ps_frame::items::Items;
use ps_meaning::map::MapKind;
use ps_meaning::options::{DistinctOptions, ExprIR, JoinArgs, OutputName, SortMultipleOptions};
use pu_base::{PlSmallStr, PolarsUtilsError, Result};
use std::alloc::Global;

/// What is copied where there is memory for it. Expressions that a value names keep their numbers in the copy.
pub trait TryClone: Drop {
    /// An equal value.
    ///
    /// Fails only for want of memory.
    fn try_clone(&self, alloc: Global) -> Result<Self>
        ensures same { IfOk result (λ copy. copy ≡ self.now) }
        ensures memory { OnErr result (result ≡ Err PolarsUtilsError.OutOfMemory) };
}

impl TryClone for bool {
    fn try_clone(&self, _alloc: Global) -> Result<bool> {
        Ok(*self)
    }
}

impl TryClone for PlSmallStr {
    fn try_clone(&self, alloc: Global) -> Result<PlSmallStr> {
        PlSmallStr::try_clone(self, alloc)
    }
}

impl<T: TryClone> TryClone for Items<T> {
    fn try_clone(&self, alloc: Global) -> Result<Items<T>> {
        let mut copies = Vec::with_capacity(alloc, self.len())?;
        for item in self.as_slice() {
            copies.push(item.try_clone(alloc)?)?;
        }
        Ok(Items::new(copies))
    }
}

impl<T: TryClone> TryClone for Option<T> {
    fn try_clone(&self, alloc: Global) -> Result<Option<T>> {
        match self {
            Some(value) => Ok(Some(value.try_clone(alloc)?)),
            None => Ok(None),
        }
    }
}

impl TryClone for OutputName {
    fn try_clone(&self, alloc: Global) -> Result<OutputName> {
        match self {
            OutputName::Alias(name) => Ok(OutputName::Alias(name.try_clone(alloc)?)),
            OutputName::ColumnLhs(name) => Ok(OutputName::ColumnLhs(name.try_clone(alloc)?)),
        }
    }
}

impl TryClone for ExprIR {
    fn try_clone(&self, alloc: Global) -> Result<ExprIR> {
        Ok(ExprIR {
            node: self.node,
            output_name: self.output_name.try_clone(alloc)?,
        })
    }
}

impl TryClone for SortMultipleOptions {
    fn try_clone(&self, alloc: Global) -> Result<SortMultipleOptions> {
        Ok(SortMultipleOptions {
            descending: self.descending.try_clone(alloc)?,
            nulls_last: self.nulls_last.try_clone(alloc)?,
        })
    }
}

impl TryClone for DistinctOptions {
    fn try_clone(&self, alloc: Global) -> Result<DistinctOptions> {
        Ok(DistinctOptions {
            subset: self.subset.try_clone(alloc)?,
            maintain_order: self.maintain_order,
            keep_strategy: self.keep_strategy,
            slice: self.slice,
        })
    }
}

impl TryClone for JoinArgs {
    fn try_clone(&self, alloc: Global) -> Result<JoinArgs> {
        Ok(JoinArgs {
            how: self.how,
            suffix: self.suffix.try_clone(alloc)?,
            join_nulls: self.join_nulls,
            validation: self.validation,
            slice: self.slice,
        })
    }
}

impl TryClone for MapKind {
    fn try_clone(&self, alloc: Global) -> Result<MapKind> {
        match self {
            MapKind::Function(number) => Ok(MapKind::Function(*number)),
            MapKind::Select(exprs) => Ok(MapKind::Select(exprs.try_clone(alloc)?)),
            MapKind::Sort {
                by_column,
                slice,
                sort_options,
            } => Ok(MapKind::Sort {
                by_column: by_column.try_clone(alloc)?,
                slice: *slice,
                sort_options: sort_options.try_clone(alloc)?,
            }),
            MapKind::GroupBy {
                keys,
                aggs,
                maintain_order,
                slice,
            } => Ok(MapKind::GroupBy {
                keys: keys.try_clone(alloc)?,
                aggs: aggs.try_clone(alloc)?,
                maintain_order: *maintain_order,
                slice: *slice,
            }),
            MapKind::Distinct(options) => Ok(MapKind::Distinct(options.try_clone(alloc)?)),
        }
    }
}
