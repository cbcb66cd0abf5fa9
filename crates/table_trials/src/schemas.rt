// Names in schemas: fewer than 16, which are compared one by one, and more, which are found by a map.
use ps_frame::error::FrameError;
use ps_frame::schema::Schema;
use ps_frame::value::DataType;
use pu_base::PlSmallStr;
use std::alloc::Global;
use std::test::Fail;

fn push(alloc: Global, schema: &mut Schema, name: String) -> Result<(), FrameError> {
    schema.push(alloc, PlSmallStr::from_string(name), DataType::IdxSize)
}

/// So many names that begin alike, and go on with their places.
pub fn counted_names(alloc: Global, front: &str, count: usize) -> Result<Schema, FrameError> {
    let mut schema = Schema::new(alloc);
    for i in 0..count {
        push(alloc, &mut schema, format!(in alloc; "{front}{i}")?)?;
    }
    Ok(schema)
}

/// One name.
pub fn schema_of(alloc: Global, name: &str) -> Result<Schema, FrameError> {
    let mut schema = Schema::new(alloc);
    push(alloc, &mut schema, String::from_str(alloc, name)?)?;
    Ok(schema)
}

// Whether each of so many names is found behind so many others, and no further one.
fn finds_all(
    alloc: Global,
    schema: &Schema,
    front: &str,
    count: usize,
    before: usize,
) -> Result<bool, Fail> {
    for i in 0..count {
        let name = format!(in alloc; "{front}{i}")?;
        if schema.index_of(name.as_str()) != Some(i.saturating_add(before)) {
            return Ok(false);
        }
    }
    let next = format!(in alloc; "{front}{count}")?;
    Ok(schema.index_of(next.as_str()).is_none())
}

// Whether the names are refused one by one, where they stand already.
fn refuses_all(alloc: Global, schema: &mut Schema, count: usize) -> Result<bool, Fail> {
    for i in 0..count {
        let again = push(alloc, schema, format!(in alloc; "c{i}")?);
        if !matches!(again, Err(FrameError::Duplicate { .. })) {
            return Ok(false);
        }
    }
    Ok(schema.len() == count && schema.is_empty() == (count == 0))
}

#[test]
fn names_are_found_and_refused_where_they_stand(rt: HostRuntime) -> Result<(), Fail> {
    for count in [0, 1, 15, 16, 20] {
        let mut schema = counted_names(rt.alloc(), "c", count)?;
        assert!(rt; finds_all(rt.alloc(), &schema, "c", count, 0)?, "{count}");
        assert!(rt; refuses_all(rt.alloc(), &mut schema, count)?, "{count}");
        let joined = schema_of(rt.alloc(), "a")?.joined(rt.alloc(), &schema)?;
        assert!(rt; finds_all(rt.alloc(), &joined, "c", count, 1)?, "{count}");
    }
    Ok(())
}

#[test]
fn a_copy_of_a_shared_schema_grows_alone(rt: HostRuntime) -> Result<(), Fail> {
    let shared = schema_of(rt.alloc(), "a")?.into_shared(rt.alloc());
    let mut copy = shared.try_clone(rt.alloc())?;
    push(rt.alloc(), &mut copy, String::from_str(rt.alloc(), "b")?)?;
    assert!(rt; copy.len() == 2 && shared.len() == 1);
    Ok(())
}

#[test]
fn many_long_names_that_begin_alike_are_told_apart(rt: HostRuntime) -> Result<(), Fail> {
    let front = "a long name that all of them begin with, number ";
    let mut schema = counted_names(rt.alloc(), front, 40_000)?;
    assert!(rt; finds_all(rt.alloc(), &schema, front, 40_000, 0)?);
    let again = push(
        rt.alloc(),
        &mut schema,
        format!(in rt.alloc(); "{front}39999")?,
    );
    assert!(rt; matches!(again, Err(FrameError::Duplicate { .. })));
    Ok(())
}
