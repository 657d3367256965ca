//! Names of at most 32 octets, and masks of at most 16: what the tables keep, in place.
ghost use Rattle.std.specs.Prelude.{◌≡◌, ◌≤◌, ◌==◌, ℕ, List, [], length, bytes_eq, if◌then◌else◌, nat_le};

use crate::limits::{MAX_MASK, MAX_NAME};
use arrayvec::ArrayString;
use std::marker::Model;

/// A name of at most [`MAX_NAME`] octets, which lie in the value itself.
#[derive(Drop)]
pub struct Name {
    text: ArrayString<MAX_NAME>,
}

impl Model for Name {
    ghost use Rattle.std.specs.Prelude.{◌≤◌, ℕ, List, length};
    ghost use Rattle.vacm_core.specs.declared.limits.TheConstants.{MAX_NAME};

    ghost Value = { List ℕ };

    ghost view = { λ n. n.text.bytes };

    ghost invariant = { λ n. length n.text.bytes ≤ MAX_NAME };
}

impl Name {
    /// The name of no octets.
    pub fn empty() -> Name
        ensures { result ≡ [] }
    {
        Name {
            text: ArrayString::new(),
        }
    }

    /// The name that a text is, if it is of at most [`MAX_NAME`] octets.
    pub fn from_str(text: &str) -> Option<Name>
        ensures { result ≡ (if nat_le (length text.now) MAX_NAME then Some text.now else None) }
    {
        if text.len() <= MAX_NAME {
            Some(Name::of(text))
        } else {
            None
        }
    }

    /// The name that a text of at most [`MAX_NAME`] octets is.
    pub fn of(text: &str) -> Name
        requires { length text.now ≤ MAX_NAME }
        ensures { result ≡ text.now }
    {
        let mut name = ArrayString::new();
        name.push_str(text);
        Name { text: name }
    }

    /// The name again.
    pub fn copy(&self) -> Name
        ensures { result ≡ self.now }
    {
        Name { text: self.text }
    }

    /// The text of the name.
    pub fn as_str(&self) -> &str
        ensures value { result.now ≡ self.now }
        ensures short { length self.now ≤ MAX_NAME }
    {
        self.text.as_str()
    }

    /// The octets of the name.
    pub fn as_bytes(&self) -> &[u8]
        ensures value { result.now ≡ self.now }
        ensures short { length self.now ≤ MAX_NAME }
    {
        self.text.as_str().as_bytes()
    }

    /// Whether the name has no octets.
    pub fn is_empty(&self) -> bool
        ensures { result ≡ (length self.now == 0) }
    {
        self.as_str().len() == 0
    }

    /// Whether two names are equal.
    pub fn is(&self, other: &Name) -> bool
        ensures { result ≡ bytes_eq self.now other.now }
    {
        self.as_bytes() == other.as_bytes()
    }
}

/// A mask of at most [`MAX_MASK`] octets, which lie in the value itself.
#[derive(Clone, Copy, Debug, PartialEq, Eq)]
pub struct Mask {
    // The octets of the mask, and zeros behind them.
    octets: [u8; MAX_MASK],
    len: usize,
}

impl Model for Mask {
    ghost use Rattle.std.specs.Prelude.{◌≡◌, ◌-◌, ◌≤◌, ℕ, List, length, take, drop, replicate};
    ghost use Rattle.vacm_core.specs.declared.limits.TheConstants.{MAX_MASK};
    ghost use Rattle.vacm_core.specs.Masks.{with_zeros, octets_again, length_again};

    ghost Value = { List ℕ };

    ghost view = { λ m. take m.len m.octets };

    ghost invariant = { λ m. (m.len ≤ MAX_MASK) × (length m.octets ≡ MAX_MASK)
        × (drop m.len m.octets ≡ replicate (MAX_MASK - m.len) 0) };

    ghost inverse = { λ octets. record {
      octets = with_zeros octets;
      len = length octets;
    } };

    ghost inverse_ok = { λ m h i. record {
      octets = octets_again m.octets m.len h.0 h.1 h.2 i;
      len = length_again m.octets m.len h.0 h.1 i;
    } };
}

impl Mask {
    /// The mask of at most [`MAX_MASK`] octets.
    pub fn of(octets: &[u8]) -> Mask
        requires { length octets.now ≤ MAX_MASK }
        ensures { result ≡ octets.now }
    {
        let mut kept = [0; MAX_MASK];
        for (k, octet) in octets.iter().enumerate() {
            kept[k] = *octet;
        }
        Mask {
            octets: kept,
            len: octets.len(),
        }
    }

    /// The octets of the mask.
    pub fn as_slice(&self) -> &[u8]
        ensures value { result.now ≡ self.now }
        ensures short { length self.now ≤ MAX_MASK }
    {
        &self.octets[..self.len]
    }
}
