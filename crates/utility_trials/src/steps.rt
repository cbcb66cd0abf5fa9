// Counted steps.
ghost use Rattle.std.specs.Prelude.{◌≡◌, ◌<◌};

use pu_base::Steps;
use std::marker::Brand;
use std::sync::ledger::{Blank, Ledger};

// The count of steps takes no bytes.
const _: () = prove!(size_of::<Steps<Brand>>() == 0);

// A counter that has ticked twice is at two. The clause alone sees the count,
// which has no value when the program runs.
fn stands_at_two<L: Ledger>(_steps: &Steps<L>)
    requires { _steps.now ≡ 2 }
{}

fn two_steps<L: Ledger>(blank: Blank)
    requires name { blank.name ≡ L.name }
    requires parts { blank.parts ≡ L.parts }
    requires some { 0 < L.parts }
{
    let mut steps: Steps<L> = Steps::new(blank);
    steps.tick();
    steps.tick();
    stands_at_two(&steps);
}

#[test]
fn steps_are_counted() {
    two_steps::<Brand>(Blank::new(1));
}
