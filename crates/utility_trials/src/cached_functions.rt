// Functions with a cache of their answers.
use pu_map::FastCachedFunc;
use std::test::Fail;

fn answered<F: FnMut(u32) -> u32>(
    func: &mut FastCachedFunc<u32, u32, F>,
    x: u32,
    use_cache: bool,
) -> Option<u32>
    requires { F.IsAlwaysCallable func.old.func }
    ensures { F.IsAlwaysCallable func.new.func }
{
    func.eval(x, use_cache).ok()
}

#[test]
fn a_cached_function_answers_as_the_function(rt: HostRuntime) -> Result<(), Fail> {
    let mut square = FastCachedFunc::new(rt.alloc(), |x: u32| x.wrapping_mul(x), 0)?;
    assert!(rt; answered(&mut square, 5, true) == Some(25));
    assert!(rt; answered(&mut square, 5, true) == Some(25));
    assert!(rt; answered(&mut square, 6, false) == Some(36));
    Ok(())
}

#[test]
fn a_kept_answer_needs_no_call(rt: HostRuntime) -> Result<(), Fail> {
    let mut calls = 0u32;
    let counted = |x: u32| {
        calls = calls.wrapping_add(1);
        x.wrapping_mul(x)
    };
    let mut square = FastCachedFunc::new(rt.alloc(), counted, 0)?;
    assert!(rt; answered(&mut square, 5, true) == Some(25));
    assert!(rt; answered(&mut square, 5, true) == Some(25));
    assert!(rt; answered(&mut square, 6, false) == Some(36));
    assert!(rt; answered(&mut square, 6, true) == Some(36));
    drop(square);
    assert!(rt; calls == 3);
    Ok(())
}
