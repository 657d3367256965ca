//! The rows of a table.
ghost use Rattle.std.specs.Prelude.{◌≡◌, List};

use std::marker::Model;

/// The rows of a table, seen as their list.
pub struct Rows<T> {
    items: Vec<T>,
}

// By hand: who drops one then knows nothing of its parts.
impl<T: Drop> Drop for Rows<T> {
    fn drop(self) {
        let Rows { items: _items } = self;
    }
}

impl<T> Model for Rows<T> {
    ghost Value = { List T };

    ghost view = { λ r. r.items.items };
}

impl<T> Rows<T> {
    /// The rows of a vector, without taking memory.
    pub fn new(items: Vec<T>) -> Rows<T>
        ensures { result ≡ items.items }
    {
        Rows { items }
    }

    /// The rows.
    pub fn as_slice(&self) -> &[T]
        ensures { result.now ≡ self.now }
    {
        self.items.as_slice()
    }

    /// The rows as a vector, without taking memory.
    pub fn into_vec(self) -> Vec<T>
        ensures { result.items ≡ self }
    {
        let Rows { items } = self;
        items
    }
}
