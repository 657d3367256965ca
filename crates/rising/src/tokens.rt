//! The tokens of a number that only rises.
ghost use Rattle.std.specs.Prelude.{◌≡◌, ℕ, ◌+◌, ◌≤◌};
ghost use Rattle.rising.specs.Owning.{latest_owns, reached_owns};

use std::marker::{Brand, Model, PhantomData};

/// Which number a token is of. Each call of a program picks its own.
pub trait Rising {
    /// The number's own name.
    ghost rise: { ℕ };
}

impl Rising for Brand {
    ghost rise = { 0 };
}

/// A new number, which no type stands for yet.
pub struct Blank {
    marker: PhantomData<()>,
    pub ghost name: { ℕ },
}

impl Model for Blank {
    ghost also_owns = { λ b. latest_owns b.name 0 };
}

/// What the number is. There is one of it, and who has it raises the number.
pub struct Latest<L: Rising> {
    marker: PhantomData<L>,
    pub ghost number: { ℕ },
}

impl<L: Rising> Model for Latest<L> {
    ghost also_owns = { λ l. latest_owns L.rise l.number };
}

/// A number that was reached. Any number of these may be had, and they stay true.
pub struct Reached<L: Rising> {
    marker: PhantomData<L>,
    pub ghost number: { ℕ },
}

impl<L: Rising> Model for Reached<L> {
    ghost also_owns = { λ r. reached_owns L.rise r.number };
}

impl Blank {
    /// A new number.
    pub fn new() -> Blank {
        Blank {
            marker: PhantomData,
        }
    }

    /// The number under its name. It is 0.
    pub fn open<L: Rising>(self) -> (Latest<L>, Reached<L>)
        requires { self.name ≡ L.rise }
        ensures latest { result.0.number ≡ 0 }
        ensures reached { result.1.number ≡ 0 }
    {
        let Self { marker: _ } = self;
        (
            Latest {
                marker: PhantomData,
            },
            Reached {
                marker: PhantomData,
            },
        )
    }
}

impl<L: Rising> Latest<L> {
    /// Raises the number by so much, and has another see it. What that had seen was no more than the
    /// number was.
    pub fn raise(&mut self, reached: &mut Reached<L>, by: u64)
        ensures number { self.new.number ≡ self.old.number + by }
        ensures reached { reached.new.number ≡ self.new.number }
        ensures behind { reached.old.number ≤ self.old.number }
    {}
}

impl<L: Rising> Reached<L> {
    /// A copy.
    pub fn again(&mut self) -> Reached<L>
        ensures copy { result.number ≡ self.old.number }
        ensures same { self.new ≡ self.old }
    {
        Reached {
            marker: PhantomData,
        }
    }
}

impl Drop for Blank {
    fn drop(self) {
        let Self { marker: _ } = self;
    }
}

impl<L: Rising> Drop for Latest<L> {
    fn drop(self) {
        let Self { marker: _ } = self;
    }
}

impl<L: Rising> Drop for Reached<L> {
    fn drop(self) {
        let Self { marker: _ } = self;
    }
}

unsafe impl Send for Blank {}

unsafe impl<L: Rising> Send for Latest<L> {}

unsafe impl<L: Rising> Send for Reached<L> {}
