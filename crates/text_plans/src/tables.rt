// Tables that are found by their names.
ghost use Rattle.std.specs.Prelude.{◌≡◌, ◌≢◌, AllPairs, IfOk, MatchOption, None, Some, length, position, vec_len};
ghost use Rattle.std.specs.BTreeMap.{get_by_text};
ghost use Rattle.std.specs.Prelude.{List, ℕ};
ghost use Rattle.std.specs.Str.{bytes_eq};

use ps_frame::frame::DataFrame;
use pu_base::PlSmallStr;
use std::alloc::{AllocError, Global};
use std::collections::BTreeMap;

/// Tables that are found by their names, in the order of the names: so no names make it slow.
#[derive(Drop)]
pub struct NamedTables {
    places: BTreeMap<String, usize>,
    tables: Vec<DataFrame>,
}

impl NamedTables {
    ghost use Rattle.text_plans.specs.FoundTables.{tables_in};
    ghost use Rattle.text_plans.specs.QueryPlans.{table_named};

    /// Tables by these names, which differ and are as many.
    ///
    /// Fails only for want of memory.
    pub fn new(
        alloc: Global,
        names: &[PlSmallStr],
        tables: Vec<DataFrame>,
    ) -> Result<NamedTables, AllocError>
        requires distinct { AllPairs (λ a b. a ≢ b) names.now }
        ensures { IfOk result (λ found. tables_in found ≡ table_named names.now tables.items) }
    {
        let places = places_of(alloc, names)?;
        Ok(NamedTables { places, tables })
    }

    /// The table of a name, if there is one.
    pub fn get(&self, name: &PlSmallStr) -> Option<&DataFrame>
        ensures { MatchOption result (tables_in self.now name.now ≡ None) (λ table. tables_in self.now name.now ≡ Some table.now) }
    {
        let place = self.places.get(name.as_str())?;
        self.tables.get(*place)
    }
}

// The place of each of the names, which differ.
fn places_of(alloc: Global, names: &[PlSmallStr]) -> Result<BTreeMap<String, usize>, AllocError>
    requires { AllPairs (λ a b. a ≢ b) names.now }
    ensures { IfOk result (λ places. (name : List ℕ) → get_by_text places name ≡ position (bytes_eq name) names.now) }
{
    let mut places = BTreeMap::new(alloc);
    for (place, name) in names.iter().enumerate() {
        let key = String::from_str(alloc, name.as_str())?;
        places.insert(key, place)?;
    }
    Ok(places)
}
