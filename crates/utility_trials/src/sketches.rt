// Sketches of how many different hashes were seen.
use crate::shared::can_be_shared;
use pu_map::CardinalitySketch;
use std::test::Fail;

fn note(sketch: &mut CardinalitySketch, hash: u64) {
    sketch.insert(hash);
}

fn join(sketch: &mut CardinalitySketch, other: &CardinalitySketch) {
    sketch.combine(other);
}

#[test]
fn the_sketch_of_two_hashes(rt: HostRuntime) -> Result<(), Fail> {
    let mut sketch = CardinalitySketch::new(rt.alloc())?;
    note(&mut sketch, 0);
    let mut other = sketch.try_clone(rt.alloc())?;
    note(&mut other, 1);
    join(&mut sketch, &other);
    let registers = sketch.registers();
    assert!(rt; registers[0] == 65);
    assert!(rt; registers[144] == 3);
    assert!(rt; registers.iter().filter(|r| **r == 0).count() == 254);
    can_be_shared(&sketch);
    Ok(())
}
