//! Texts and octets as they are written, of any length.
ghost use Rattle.std.specs.Prelude.{◌≡◌, ℕ, List, IfOk, string_bytes};
ghost use Rattle.vacm_core.specs.Texts.{has_length, is_plain, is_plain_octet};

use std::alloc::{AllocError, Global};
use std::marker::Model;

/// A text of any length and any characters, as a policy is written.
pub struct Text {
    text: String,
}

// By hand: who drops one then knows nothing of its parts.
impl Drop for Text {
    fn drop(self) {
        let Text { text: _text } = self;
    }
}

impl Model for Text {
    ghost Value = { List ℕ };

    ghost view = { λ t. string_bytes t.text };
}

impl Text {
    /// A copy of a text.
    ///
    /// # Errors
    /// `AllocError` where there is no memory for it.
    pub fn new(alloc: Global, text: &str) -> Result<Text, AllocError>
        ensures { IfOk result (λ t. t ≡ text.now) }
    {
        Ok(Text {
            text: String::from_str(alloc, text)?,
        })
    }

    /// The text.
    pub fn as_str(&self) -> &str
        ensures { result.now ≡ self.now }
    {
        self.text.as_str()
    }

    /// Whether the text has at least and at most so many octets.
    pub fn has_length(&self, least: usize, most: usize) -> bool
        ensures { result ≡ has_length least most self.now }
    {
        let len = self.as_str().len();
        least <= len && len <= most
    }

    /// Whether the text is of letters, digits, `-`, `_` and `.` alone.
    pub fn is_plain(&self) -> bool
        ensures { result ≡ is_plain self.now }
    {
        all_plain(self.as_str().as_bytes())
    }
}

fn all_plain(octets: &[u8]) -> bool
    ensures { result ≡ is_plain octets.now }
{
    octets.iter().all(|octet| is_plain_octet(*octet))
}

fn is_plain_octet(octet: u8) -> bool
    ensures { result ≡ is_plain_octet octet }
{
    octet.is_ascii_alphanumeric() || octet == b'-' || octet == b'_' || octet == b'.'
}

/// Octets, any number of them, as a policy is written.
pub struct Octets {
    octets: Vec<u8>,
}

// By hand: who drops one then knows nothing of its parts.
impl Drop for Octets {
    fn drop(self) {
        let Octets { octets: _octets } = self;
    }
}

impl Model for Octets {
    ghost Value = { List ℕ };

    ghost view = { λ o. o.octets.items };
}

impl Octets {
    /// These octets.
    pub fn new(octets: Vec<u8>) -> Octets
        ensures { result ≡ octets.items }
    {
        Octets { octets }
    }

    /// The octets.
    pub fn as_slice(&self) -> &[u8]
        ensures { result.now ≡ self.now }
    {
        self.octets.as_slice()
    }

    /// The octets, without taking memory.
    pub fn into_vec(self) -> Vec<u8>
        ensures { result.items ≡ self }
    {
        let Octets { octets } = self;
        octets
    }
}
