//! What takes the items of the control socket.
ghost use Rattle.std.specs.Prelude.{◌≡◌, ◌<◌, ◌++◌, ◌∷◌, [], vec_len, vec_capacity, OnOk, OnErr};

use crate::item::ControlItem;
use std::alloc::AllocError;

/// Takes what became of each command, in order.
///
/// What it was handed is a relation, as what a wire does is one.
pub trait ControlRecorder: Drop {
    ghost use Rattle.std.specs.Prelude.{List, [], ◌∷◌, ◌++◌};
    ghost use Rattle.live_control.specs.declared.item.ControlItem.{ControlItem};

    // These items, in this order, lead from one state of it to another.
    ghost went: { Self → List ControlItem → Self → Type 0 };

    // It has memory for one item more.
    ghost has_space: { Self → Type 0 };

    /// Makes sure that there is memory for one item more.
    ///
    /// # Errors
    /// That there is none.
    fn reserve(&mut self) -> Result<(), AllocError>
        ensures unchanged { went self.old [] self.new }
        ensures space { OnOk result (has_space self.new) }
        ensures short { OnErr result (has_space self.new → ⊥) };

    /// Takes an item, for which there is memory.
    fn record(&mut self, item: ControlItem)
        requires { has_space self.old }
        ensures { went self.old (item ∷ []) self.new };

    // Without an item it stays as it is.
    ghost starts: { (a : Self) → went a [] a };

    // Items behind items are one list.
    ghost goes_on: { (a b c : Self) (xs ys : List ControlItem) →
        went a xs b → went b ys c → went a (xs ++ ys) c };
}

/// Keeps all items.
impl ControlRecorder for Vec<ControlItem> {
    ghost use Rattle.std.specs.Prelude.{◌≡◌, ◌<◌, ◌++◌, vec_len, vec_capacity};
    ghost use Rattle.live_control.specs.Kept.{added_none, added_more};

    ghost went = { λ a items b. b.items ≡ a.items ++ items };

    ghost has_space = { λ a. vec_len a < vec_capacity a };

    ghost starts = { λ a. added_none a.items };

    ghost goes_on = { λ a b c xs ys. added_more a.items b.items c.items xs ys };

    fn reserve(&mut self) -> Result<(), AllocError> {
        self.reserve(1)
    }

    fn record(&mut self, item: ControlItem) {
        self.push_reserved(item);
    }
}
