// Values that are read by their places.
ghost use Rattle.std.specs.Prelude.{◌≡◌, ◌<◌, length, slice_get, Some};

use ps_frame::column::Column;
use ps_frame::value::Value;

/// Values in an order. Each is read where it stands, and not copied.
pub trait ValueList {
    ghost use Rattle.std.specs.Prelude.{List};
    ghost use Rattle.ps_frame.specs.declared.value.Value.{Value as AValue};

    ghost values: { Self → List AValue };

    /// How many values there are.
    fn len(&self) -> usize
        ensures { result ≡ length (values self.now) };

    /// The value at a place.
    fn value(&self, i: usize) -> &Value
        requires { i < length (values self.now) }
        ensures { slice_get (values self.now) i ≡ Some result.now };
}

impl ValueList for Vec<Value> {
    ghost values = { λ v. v.items };

    fn len(&self) -> usize {
        self.as_slice().len()
    }

    fn value(&self, i: usize) -> &Value {
        &self[i]
    }
}

impl ValueList for Column {
    ghost values = { λ c. c.values };

    fn len(&self) -> usize {
        self.len()
    }

    fn value(&self, i: usize) -> &Value {
        self.value(i)
    }
}
