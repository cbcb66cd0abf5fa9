// What the ranges of options serve for.
ghost use Rattle.std.specs.Prelude.{◌<◌, ◌≤◌, ◌*◌, ◌^◌};

use crate::options::Options;

// How many rows the workers hold, one morsel each. The product fits, since the options are in range.
fn rows_at_once(options: &Options) -> usize
    ensures some { 1 ≤ result }
    ensures few { result ≤ 2 ^ 28 }
{
    options.workers() * options.morsel_rows()
}

// The partition of a key with this hash. The divisor isn't nought, since the options are in range.
fn partition(options: &Options, hash: usize) -> usize
    ensures { result < options.now.partitions }
{
    hash % options.partitions()
}

#[test]
fn ranges_are_known_of_options(rt: HostRuntime) {
    let options = Options::new(256, 1 << 20, 1024, 7);
    assert_eq!(rt; options.map(|most| rows_at_once(&most)), Some(1 << 28));
    assert_eq!(rt; options.map(|most| partition(&most, 1025)), Some(1));
    assert_eq!(rt; options.map(|most| most.seed()), Some(7));
}
