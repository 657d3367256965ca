//! For what there was no memory while the answers to a request were made.
ghost use Rattle.std.specs.Prelude.{◌≡◌};
ghost use Rattle.agent_core.specs.declared.shortage.Shortage.TheVariants.{Other};

use std::alloc::AllocError;

/// For what there was no memory.
#[derive(Clone, Copy, Debug, PartialEq, Eq)]
pub enum Shortage {
    /// A name above `INLINE_NUMBERS`, 24, numbers, made for the request's binding of this number, 1 for
    /// the first: the reply is genErr with this index, or tooBig where that is too long (RFC 3416, 4.2.2
    /// and 4.2.3).
    Name(usize),
    /// Anything else.
    Other,
}

impl From<AllocError> for Shortage {
    ghost from_gives = { λ _ shortage. shortage ≡ Other };

    fn from(_: AllocError) -> Shortage {
        Shortage::Other
    }
}
