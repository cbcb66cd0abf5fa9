// Fields whose names differ, found by name.
ghost use Rattle.std.specs.Prelude.{◌≡◌, ◌++◌, ◌∷◌, [], List, ℕ, IsTrue, IsFalse, IfOk, OnOk, OnErr, Err, None, Some, if◌then◌else◌};
ghost use Rattle.std.specs.BTreeMap.{get_by_text};
ghost use Rattle.std.specs.Str.{bytes_eq};
ghost use Rattle.ps_frame.specs.Frames.{has_distinct_names, has_name, shared_name};
ghost use Rattle.ps_frame.specs.Places.{AreFound, FindsEach};
ghost use Rattle.ps_frame.specs.Tables.{field_index};
ghost use Rattle.ps_frame.specs.declared.value.DataType.{DataType};

use crate::error::FrameError;
use crate::value::DataType;
use pu_base::PlSmallStr;
use std::alloc::{AllocError, Global};
use std::collections::BTreeMap;
use std::marker::Model;

// From so many names on a map finds them, in order of the names: no names make it slow, as names that
// are chosen to collide make a map by hashes. A few are found faster by comparing each.
const MANY: usize = 16;

/// Names, which differ, with their kinds, in order.
#[derive(Drop)]
pub(crate) struct Fields {
    list: Vec<(PlSmallStr, DataType)>,
    // Where each name stands, if there are many.
    places: Option<BTreeMap<String, usize>>,
}

impl Model for Fields {
    ghost use Rattle.std.specs.Prelude.{List, ℕ};
    ghost use Rattle.ps_frame.specs.declared.value.DataType.{DataType};
    ghost use Rattle.ps_frame.specs.declared.fields.TheConstants.{MANY};
    ghost use Rattle.ps_frame.specs.Places.{AreFound};

    ghost Value = { List (List ℕ × DataType) };

    ghost view = { λ a. a.list.items };

    ghost invariant = { λ a. AreFound MANY a.list.items a.places };
}

impl Fields {
    // No fields, which take no memory.
    pub(crate) fn new(alloc: Global) -> Fields
        ensures { result ≡ [] }
    {
        Fields {
            list: Vec::new(alloc),
            places: None,
        }
    }

    // The fields of a list, whose names differ.
    fn from_list(alloc: Global, list: Vec<(PlSmallStr, DataType)>) -> Result<Fields, AllocError>
        requires { IsTrue (has_distinct_names list.items) }
        ensures { IfOk result (λ fields. fields ≡ list.items) }
    {
        if list.len() < MANY {
            return Ok(Fields { list, places: None });
        }
        let places = places_of(alloc, list.as_slice())?;
        Ok(Fields {
            list,
            places: Some(places),
        })
    }

    // The fields, in order.
    pub(crate) fn as_slice(&self) -> &[(PlSmallStr, DataType)]
        ensures { result.now ≡ self.now }
    {
        self.list.as_slice()
    }

    // A law: no name stands twice.
    pub(crate) fn names_differ(&self)
        ensures { IsTrue (has_distinct_names self.now) }
    {
        // A field is read, for then the invariant is known, which is the law.
        let _list = self.list.as_slice();
    }

    // Where a name stands.
    pub(crate) fn place(&self, name: &str) -> Option<usize>
        ensures { result ≡ field_index name.now self.now }
    {
        match &self.places {
            Some(places) => places.get(name).copied(),
            None => self.list.iter().position(|f| f.0.eq_str(name)),
        }
    }

    // Whether a name stands.
    pub(crate) fn contains(&self, name: &str) -> bool
        ensures { result ≡ has_name name.now self.now }
    {
        self.place(name).is_some()
    }

    // One more field, whose name doesn't stand yet.
    pub(crate) fn push(
        &mut self,
        alloc: Global,
        name: PlSmallStr,
        dtype: DataType,
    ) -> Result<(), AllocError>
        requires { IsFalse (has_name name self.old) }
        ensures added { OnOk result (self.new ≡ self.old ++ (name, dtype) ∷ []) }
        ensures unchanged { OnErr result (self.new ≡ self.old) }
    {
        self.list.reserve(1)?;
        note_next(alloc, &mut self.places, self.list.as_slice(), name.as_str())?;
        self.list.push_reserved((name, dtype));
        Ok(())
    }

    // Equal fields.
    pub(crate) fn try_clone(&self, alloc: Global) -> Result<Fields, FrameError>
        ensures same { IfOk result (λ fields. fields ≡ self.now) }
        ensures memory { OnErr result (result ≡ Err FrameError.OutOfMemory) }
    {
        let list = clone_fields(alloc, self.list.as_slice())?;
        let fields = Fields::from_list(alloc, list)?;
        Ok(fields)
    }

    // These fields, and then others, which share no name with them.
    pub(crate) fn beside(&self, alloc: Global, other: &Fields) -> Result<Fields, FrameError>
        requires { shared_name self.now other.now ≡ None }
        ensures fields { IfOk result (λ fields. fields ≡ self.now ++ other.now) }
        ensures memory { OnErr result (result ≡ Err FrameError.OutOfMemory) }
    {
        let mut list = clone_fields(alloc, self.list.as_slice())?;
        append_fields(alloc, &mut list, other.list.as_slice())?;
        let fields = Fields::from_list(alloc, list)?;
        Ok(fields)
    }
}

// Notes where the name stands that comes next, if there are many with it.
fn note_next(
    alloc: Global,
    places: &mut Option<BTreeMap<String, usize>>,
    list: &[(PlSmallStr, DataType)],
    name: &str,
) -> Result<(), AllocError>
    requires found { AreFound MANY list.now places.old }
    requires absent { IsFalse (has_name name.now list.now) }
    ensures noted { OnOk result ((dtype : DataType) → AreFound MANY (list.now ++ (name.now, dtype) ∷ []) places.new) }
    ensures unchanged { OnErr result (AreFound MANY list.now places.new) }
{
    if let Some(places) = places {
        return insert_place(alloc, places, name, list.len());
    }
    if list.len() + 1 < MANY {
        return Ok(());
    }
    let mut first = places_of(alloc, list)?;
    insert_place(alloc, &mut first, name, list.len())?;
    *places = Some(first);
    Ok(())
}

// Where each name stands.
fn places_of(
    alloc: Global,
    list: &[(PlSmallStr, DataType)],
) -> Result<BTreeMap<String, usize>, AllocError>
    requires { IsTrue (has_distinct_names list.now) }
    ensures { IfOk result (λ places. FindsEach list.now places) }
{
    let mut places = BTreeMap::new(alloc);
    for (i, field) in list.iter().enumerate() {
        insert_place(alloc, &mut places, field.0.as_str(), i)?;
    }
    Ok(places)
}

fn insert_place(
    alloc: Global,
    places: &mut BTreeMap<String, usize>,
    name: &str,
    place: usize,
) -> Result<(), AllocError>
    ensures put { OnOk result ((other : List ℕ) → get_by_text places.new other ≡ (if bytes_eq name.now other then Some place else get_by_text places.old other)) }
    ensures unchanged { OnErr result ((other : List ℕ) → get_by_text places.new other ≡ get_by_text places.old other) }
{
    let key = String::from_str(alloc, name)?;
    places.insert(key, place)?;
    Ok(())
}

fn clone_fields(
    alloc: Global,
    fields: &[(PlSmallStr, DataType)],
) -> Result<Vec<(PlSmallStr, DataType)>, FrameError>
    ensures same { IfOk result (λ copy. copy.items ≡ fields.now) }
    ensures memory { OnErr result (result ≡ Err FrameError.OutOfMemory) }
{
    let mut copy = Vec::with_capacity(alloc, fields.len())?;
    append_fields(alloc, &mut copy, fields)?;
    Ok(copy)
}

fn append_fields(
    alloc: Global,
    copy: &mut Vec<(PlSmallStr, DataType)>,
    fields: &[(PlSmallStr, DataType)],
) -> Result<(), FrameError>
    ensures added { OnOk result (copy.new.items ≡ copy.old.items ++ fields.now) }
    ensures memory { OnErr result (result ≡ Err FrameError.OutOfMemory) }
{
    for field in fields {
        let Ok(name) = field.0.try_clone(alloc) else {
            return Err(FrameError::OutOfMemory);
        };
        copy.push((name, field.1))?;
    }
    Ok(())
}
