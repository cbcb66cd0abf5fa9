// A pipe with few places, and one without a bound.
use crate::comparing::is;
use ps_frame::frame::DataFrame;
use ps_frame::schema::Schema;
use ps_pipes::pipe::Pipe;
use std::test::Fail;

#[test]
fn takes_in_order_until_it_is_dropped(rt: HostRuntime) -> Result<(), Fail> {
    let alloc = rt.alloc();
    let schema = Schema::new(alloc);
    let mut pipe = Pipe::new(alloc, 2, true)?;
    assert!(rt; pipe.has_place(0));
    pipe.push(DataFrame::empty_with_schema(alloc, &schema)?)?;
    pipe.push(DataFrame::empty_with_schema(alloc, &schema)?)?;
    assert!(rt; !pipe.has_place(0));
    is("waiting", pipe.waiting(), 2)?;
    assert!(rt; pipe.take().is_some());
    assert!(rt; pipe.has_place(0));
    assert!(rt; !pipe.has_place(1));
    pipe.reserve()?;
    pipe.close();
    assert!(rt; !pipe.is_over());
    pipe.lose();
    assert!(rt; pipe.is_over());
    pipe.push(DataFrame::empty_with_schema(alloc, &schema)?)?;
    is("waiting", pipe.waiting(), 0)?;
    assert!(rt; pipe.take().is_none());
    Ok(())
}

// Where nothing bounds it, a thousand morsels wait behind a ring of two.
#[test]
fn waits_without_a_bound(rt: HostRuntime) -> Result<(), Fail> {
    let alloc = rt.alloc();
    let schema = Schema::new(alloc);
    let mut pipe = Pipe::new(alloc, 2, false)?;
    for _ in 0..1000 {
        pipe.push(DataFrame::empty_with_schema(alloc, &schema)?)?;
    }
    assert!(rt; pipe.has_place(5));
    for _ in 0..1000 {
        assert!(rt; pipe.take().is_some());
    }
    assert!(rt; pipe.is_drained());
    is("next", pipe.next(), 1000)?;
    Ok(())
}
