ghost use Rattle.std.specs.Prelude.{◌≡◌, if◌then◌else◌};
ghost use Rattle.looks.specs.Key.{is_below};

use crate::key::Key;

/// A value with the key of the change that set it (a last-writer-wins register, by keys and not by arrival).
#[derive(Clone, Copy, Debug, PartialEq, Eq, Drop)]
pub struct Register<T> {
    pub key: Key,
    pub value: T,
}

impl<T: Drop> Register<T> {
    /// Takes the value if its key is above the register's own, and drops it otherwise.
    pub fn offer(&mut self, key: Key, value: T)
        ensures { self.new
            ≡ (if is_below self.old.key key then record { key = key; value = value } else self.old) }
    {
        if self.key < key {
            *self = Register { key, value };
        }
    }
}
