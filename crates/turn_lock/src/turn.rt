use std::marker::Model;

/// The value of a lock, while its turn is out. It has no `Drop`: only `TurnLock::give` ends it.
pub struct Turn<T> {
    pub(crate) value: T,
}

impl<T> Model for Turn<T> {
    ghost Value = { T };

    ghost view = { λ t. t.value };
}

impl<T> Turn<T> {
    ghost use Rattle.std.specs.Prelude.{◌≡◌};
    ghost use Rattle.std.specs.Borrow.{sem};
    ghost use Rattle.turn_lock.specs.Lending.{LendsValue};

    /// The value, to read and to change.
    pub fn value(&mut self) -> &mut T
        ensures* writes_back { sem 𝓛 (LendsValue T.row self.entry result) }
        ensures value { result.now ≡ self.old }
    {
        &mut self.value
    }
}
