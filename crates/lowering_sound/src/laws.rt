//! Laws of sound shapes, as theorems of functions that do nothing.
ghost use Rattle.lowering_sound.specs.Sound.{ExprsStaySound, SelectsStaySound};

/// Each node that a call makes for expressions is one of a sound shape, whatever number of readers it has: so the shape
/// stays sound but for readers where it was. So it is with a select of expressions under different names.
pub fn calls_stay_sound()
    ensures exprs { ExprsStaySound }
    ensures selects { SelectsStaySound }
{}
