// Lists as text.
use pu_index::{format_list, format_list_container, format_tuple};
use std::test::Fail;

#[test]
fn writes_lists(rt: HostRuntime) -> Result<(), Fail> {
    let alloc = rt.alloc();
    let text = format_list!(alloc, [1, 2, 3].iter())?;
    assert!(rt; text.as_str() == "[1, 2, 3]");
    let none: [u8; 0] = [];
    let text = format_list!(alloc, none.iter())?;
    assert!(rt; text.as_str() == "[]");
    let text = format_tuple!(alloc, [1].iter())?;
    assert!(rt; text.as_str() == "(1)");
    let text = format_list!(alloc, [4, 5].to_vec(alloc)?)?;
    assert!(rt; text.as_str() == "[4, 5]");
    let text = format_list_container!(alloc, [1, 2].iter(), '<', '>')?;
    assert!(rt; text.as_str() == "<1, 2>");
    Ok(())
}
