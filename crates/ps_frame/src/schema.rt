// The names and kinds of a table's columns.
ghost use Rattle.std.specs.Prelude.{◌≡◌, ◌<◌, ◌↔◌, ◌++◌, ◌∷◌, [], length, slice_get, take, IsTrue, IsFalse, IfOk, OnOk, OnErr, IsErrAnd, IfErr, Err, None, option_map, IfNone, IfSome, IsNone, IsSome, IsSomeAnd, ◌⊎◌};
ghost use Rattle.ps_frame.specs.Frames.{has_distinct_names, has_name, shared_name};
ghost use Rattle.ps_frame.specs.Tables.{field_index};

use crate::error::FrameError;
use crate::fields::Fields;
use crate::value::DataType;
use pu_base::PlSmallStr;
use std::alloc::Global;
use std::marker::Model;
use std::sync::Arc;

/// Names, which differ, with their kinds.
#[derive(Drop)]
pub struct Schema {
    held: Held,
}

// Fields that a schema owns, or shares with other schemas.
#[derive(Drop)]
enum Held {
    Own(Fields),
    Shared(Arc<Fields>),
}

impl Model for Schema {
    ghost use Rattle.std.specs.Prelude.{List, ℕ};
    ghost use Rattle.ps_frame.specs.declared.value.DataType.{DataType};

    ghost Value = { List (List ℕ × DataType) };

    ghost use Rattle.ps_frame.specs.Held.{held_fields};

    ghost view = { λ a. held_fields a.held };
}

impl Schema {
    /// A schema without fields, which takes no memory.
    pub fn new(alloc: Global) -> Schema
        ensures { result ≡ [] }
    {
        Schema {
            held: Held::Own(Fields::new(alloc)),
        }
    }

    fn fields(&self) -> &Fields
        ensures { result.now ≡ self.now }
    {
        match &self.held {
            Held::Own(fields) => fields,
            Held::Shared(fields) => &**fields,
        }
    }

    /// The same schema. Where memory could be had for it, [`try_clone`](Schema::try_clone) shares its
    /// fields from now on, and takes the same time however many there are.
    pub fn into_shared(self, alloc: Global) -> Schema
        ensures { result ≡ self }
    {
        let Schema { held } = self;
        match held {
            Held::Own(fields) => match Arc::new(alloc, fields) {
                Ok(shared) => Schema {
                    held: Held::Shared(shared),
                },
                Err(refused) => Schema {
                    held: Held::Own(refused.value),
                },
            },
            Held::Shared(shared) => Schema {
                held: Held::Shared(shared),
            },
        }
    }

    /// A law: no name stands twice.
    pub fn names_differ(&self)
        ensures { IsTrue (has_distinct_names self.now) }
    {
        self.fields().names_differ();
    }

    /// How many fields there are.
    pub fn len(&self) -> usize
        ensures { result ≡ length self.now }
    {
        self.fields().as_slice().len()
    }

    /// Whether there is no field.
    pub fn is_empty(&self) -> bool
        ensures { IsTrue result ↔ (self.now ≡ []) }
    {
        self.fields().as_slice().is_empty()
    }

    /// The name of the field at a place.
    pub fn name(&self, i: usize) -> &PlSmallStr
        requires { i < length self.now }
        ensures { option_map (λ f. f.0) (slice_get self.now i) ≡ Some result.now }
    {
        &self.fields().as_slice()[i].0
    }

    /// The kind of the field at a place.
    pub fn kind(&self, i: usize) -> DataType
        requires { i < length self.now }
        ensures { option_map (λ f. f.1) (slice_get self.now i) ≡ Some result }
    {
        self.fields().as_slice()[i].1
    }

    /// Where a name stands.
    pub fn index_of(&self, name: &str) -> Option<usize>
        ensures { result ≡ field_index name.now self.now }
    {
        self.fields().place(name)
    }

    /// Whether a name stands.
    pub fn contains(&self, name: &str) -> bool
        ensures { result ≡ has_name name.now self.now }
    {
        self.fields().contains(name)
    }

    /// One more field, refused where its name stands already or for want of memory.
    pub fn push(
        &mut self,
        alloc: Global,
        name: PlSmallStr,
        dtype: DataType,
    ) -> Result<(), FrameError>
        ensures added { OnOk result (self.new ≡ self.old ++ (name, dtype) ∷ []) }
        ensures duplicate { (result ≡ Err (FrameError.Duplicate name)) ↔ IsTrue (has_name name self.old) }
        ensures errors { OnErr result (IsFalse (has_name name self.old) → result ≡ Err FrameError.OutOfMemory) }
        ensures unchanged { OnErr result (self.new ≡ self.old) }
    {
        if self.contains(name.as_str()) {
            return Err(FrameError::Duplicate { name });
        }
        // Not by `?`: the clauses tell want of memory from `Duplicate`, so it is named here.
        match self.append(alloc, name, dtype) {
            Ok(()) => Ok(()),
            Err(_) => Err(FrameError::OutOfMemory),
        }
    }

    fn append(&mut self, alloc: Global, name: PlSmallStr, dtype: DataType) -> Result<(), FrameError>
        requires { IsFalse (has_name name self.old) }
        ensures added { OnOk result (self.new ≡ self.old ++ (name, dtype) ∷ []) }
        ensures unchanged { OnErr result (self.new ≡ self.old) }
    {
        if let Held::Own(fields) = &mut self.held {
            fields.push(alloc, name, dtype)?;
            return Ok(());
        }
        let mut fields = self.fields().try_clone(alloc)?;
        fields.push(alloc, name, dtype)?;
        self.held = Held::Own(fields);
        Ok(())
    }

    /// An equal schema.
    ///
    /// Fails only for want of memory.
    pub fn try_clone(&self, alloc: Global) -> Result<Schema, FrameError>
        ensures same { IfOk result (λ s. s ≡ self.now) }
        ensures memory { OnErr result (result ≡ Err FrameError.OutOfMemory) }
    {
        let held = match &self.held {
            Held::Own(fields) => Held::Own(fields.try_clone(alloc)?),
            Held::Shared(fields) => Held::Shared(fields.clone()?),
        };
        Ok(Schema { held })
    }

    /// An equal schema, as [`into_shared`](Schema::into_shared) gives it.
    ///
    /// Fails only for want of memory.
    pub fn try_share(&self, alloc: Global) -> Result<Schema, FrameError>
        ensures same { IfOk result (λ s. s ≡ self.now) }
        ensures memory { OnErr result (result ≡ Err FrameError.OutOfMemory) }
    {
        let schema = self.try_clone(alloc)?;
        Ok(schema.into_shared(alloc))
    }

    /// The fields of this schema, and then those of another one, which may share no name with it.
    ///
    /// Refused with the first name of the other schema that stands in this one, or for want of memory.
    pub fn joined(&self, alloc: Global, other: &Schema) -> Result<Schema, FrameError>
        ensures fields { IfOk result (λ s. s ≡ self.now ++ other.now) }
        ensures apart { OnOk result (shared_name self.now other.now ≡ None) }
        ensures errors { OnErr result ((result ≡ Err FrameError.OutOfMemory) ⊎ IsSomeAnd (shared_name self.now other.now) (λ name. result ≡ Err (FrameError.Duplicate name))) }
    {
        if let Some(i) = first_shared(self, other) {
            // A text's own error doesn't convert by `?`; it is want of memory alone.
            return match other.name(i).try_clone(alloc) {
                Ok(name) => Err(FrameError::Duplicate { name }),
                Err(_) => Err(FrameError::OutOfMemory),
            };
        }
        self.beside(alloc, other)
    }

    fn beside(&self, alloc: Global, other: &Schema) -> Result<Schema, FrameError>
        requires { shared_name self.now other.now ≡ None }
        ensures fields { IfOk result (λ s. s ≡ self.now ++ other.now) }
        ensures memory { OnErr result (result ≡ Err FrameError.OutOfMemory) }
    {
        let fields = self.fields().beside(alloc, other.fields())?;
        Ok(Schema {
            held: Held::Own(fields),
        })
    }

    /// Whether two schemas have the same names with the same kinds.
    pub fn same(&self, other: &Schema) -> bool
        ensures { IsTrue result ↔ (self.now ≡ other.now) }
    {
        same_fields(self.fields().as_slice(), other.fields().as_slice())
    }
}

// Where the first name stands in the other schema that stands in this one too.
fn first_shared(schema: &Schema, other: &Schema) -> Option<usize>
    ensures none { IfNone result (shared_name schema.now other.now ≡ None) }
    ensures some { IfSome result (λ i. i < length other.now) }
    ensures place { IfSome result (λ i. shared_name schema.now other.now ≡ option_map (λ f. f.0) (slice_get other.now i)) }
{
    for i in 0..other.len() {
        if schema.contains(other.name(i).as_str()) {
            return Some(i);
        }
    }
    None
}

fn same_fields(a: &[(PlSmallStr, DataType)], b: &[(PlSmallStr, DataType)]) -> bool
    ensures { IsTrue result ↔ (a.now ≡ b.now) }
{
    if a.len() != b.len() {
        return false;
    }
    for i in 0..a.len() {
        if !a[i].0.eq_str(b[i].0.as_str()) || a[i].1 != b[i].1 {
            return false;
        }
    }
    true
}
