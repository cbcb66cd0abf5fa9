// The pieces that are out, with as many workers as there may be.
use crate::comparing::is;
use ps_outs::{Out, Outs};
use std::test::Fail;

const WORKERS: u32 = 256;

#[test]
fn each_worker_has_one_piece(rt: HostRuntime) -> Result<(), Fail> {
    let mut outs = Outs::new(rt.alloc(), WORKERS as usize)?;
    assert!(rt; !outs.is_free(WORKERS));
    assert!(rt; !outs.has_piece_of(3));
    for worker in 0..WORKERS {
        assert!(rt; outs.is_free(worker));
        if outs.is_free(worker) {
            // Each thirteenth piece is of one node, for one input.
            let out = Out {
                node: worker % 13,
                input: 1,
            };
            outs.give(worker, out);
        }
        assert!(rt; !outs.is_free(worker));
    }
    assert!(rt; outs.has_piece_of(3));
    assert!(rt; !outs.has_piece_of(13));
    // 3, 16, .. 250
    is("out for input 1", outs.count(3, 1), 20)?;
    is("out for input 0", outs.count(3, 0), 0)?;
    outs.take_back(16);
    assert!(rt; outs.is_free(16));
    is("out for input 1", outs.count(3, 1), 19)?;
    Ok(())
}
