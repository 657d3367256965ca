//! The tokens of a log that only grows.
ghost use Rattle.std.specs.Prelude.{◌≡◌, ◌⊎◌, ℕ, List, [], ◌∷◌, ◌++◌};
ghost use mathlib.Core.List.{IsPrefix};
ghost use base.Stored.{coded_list};
ghost use Rattle.rising.specs.Owning.{log_owns, front_owns};

use std::marker::{Brand, Model, PhantomData};

/// Which log a token is of. Each call of a program picks its own.
pub trait Naming {
    /// The log's own name.
    ghost log_name: { ℕ };
}

impl Naming for Brand {
    ghost log_name = { 0 };
}

/// A new log of entries of this type, which no type stands for yet.
pub struct BlankLog<E> {
    marker: PhantomData<E>,
    pub ghost name: { ℕ },
}

impl<E> Model for BlankLog<E> {
    ghost also_owns = { λ b. log_owns E.row.coded b.name [] };
}

/// The log as it is. There is one of it, and who has it adds to the log.
pub struct Log<E, L: Naming> {
    marker: PhantomData<(E, L)>,
    pub ghost log: { List E } by { coded_list E.code },
}

impl<E, L: Naming> Model for Log<E, L> {
    ghost also_owns = { λ l. log_owns E.row.coded L.log_name l.log };
}

/// A beginning of the log that was seen. Any number of these may be had, and they stay true.
pub struct Front<E, L: Naming> {
    marker: PhantomData<(E, L)>,
    pub ghost log: { List E } by { coded_list E.code },
}

impl<E, L: Naming> Model for Front<E, L> {
    ghost also_owns = { λ f. front_owns E.row.coded L.log_name f.log };
}

impl<E> BlankLog<E> {
    /// A new log.
    pub fn new() -> BlankLog<E> {
        BlankLog {
            marker: PhantomData,
        }
    }

    /// The log under its name. It has no entry.
    pub fn open<L: Naming>(self) -> (Log<E, L>, Front<E, L>)
        requires { self.name ≡ L.log_name }
        ensures log { result.0.log ≡ [] }
        ensures front { result.1.log ≡ [] }
    {
        let Self { marker: _ } = self;
        (
            Log {
                marker: PhantomData,
            },
            Front {
                marker: PhantomData,
            },
        )
    }
}

impl<E, L: Naming> Log<E, L> {
    /// Adds an entry, and has a front see it. What that had seen was a beginning of the log.
    pub fn add(&mut self, front: &mut Front<E, L>, entry: &E)
        ensures log { self.new.log ≡ self.old.log ++ entry.now ∷ [] }
        ensures front { front.new.log ≡ self.new.log }
        ensures behind { IsPrefix front.old.log self.old.log }
    {}

    /// Has a front see the log as it is. What that had seen was a beginning of it.
    pub fn show(&mut self, front: &mut Front<E, L>)
        ensures log { self.new.log ≡ self.old.log }
        ensures front { front.new.log ≡ self.old.log }
        ensures behind { IsPrefix front.old.log self.old.log }
    {}
}

impl<E, L: Naming> Front<E, L> {
    /// A copy.
    pub fn again(&mut self) -> Front<E, L>
        ensures copy { result.log ≡ self.old.log }
        ensures same { self.new ≡ self.old }
    {
        Front {
            marker: PhantomData,
        }
    }

    /// Of two fronts of one log, one is a beginning of the other. Both then have seen the longer.
    pub fn join(&mut self, other: &mut Front<E, L>)
        ensures both { other.new.log ≡ self.new.log }
        ensures this { IsPrefix self.old.log self.new.log }
        ensures that { IsPrefix other.old.log self.new.log }
        ensures one { (self.new.log ≡ self.old.log) ⊎ (self.new.log ≡ other.old.log) }
    {}
}

impl<E> Drop for BlankLog<E> {
    fn drop(self) {
        let Self { marker: _ } = self;
    }
}

impl<E, L: Naming> Drop for Log<E, L> {
    fn drop(self) {
        let Self { marker: _ } = self;
    }
}

impl<E, L: Naming> Drop for Front<E, L> {
    fn drop(self) {
        let Self { marker: _ } = self;
    }
}

unsafe impl<E> Send for BlankLog<E> {}

unsafe impl<E, L: Naming> Send for Log<E, L> {}

unsafe impl<E, L: Naming> Send for Front<E, L> {}
