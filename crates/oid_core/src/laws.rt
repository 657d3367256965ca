//! Laws of names. Each holds of all octets and numbers, and its function does nothing.
ghost use Rattle.std.specs.Prelude.{◌≡◌, ◌≤◌, ◌↔◌, ◌⊎◌, ℕ, List, length, IsTrue, Ok, Err, Some, None};
ghost use Rattle.oid_core.specs.declared.fault.OidFault.{OidFault};
ghost use Rattle.ber_core.specs.Encoding.{AreOctets};
ghost use Rattle.oid_core.specs.Name.{IsName, IsEncodable, canon_name};
ghost use Rattle.oid_core.specs.Reading.{name_at};
ghost use Rattle.oid_core.specs.Order.{IsBefore, IsPrefix, name_lt, name_eq, is_prefix};
ghost use Rattle.oid_core.specs.Text.{IsDotted};
ghost use Rattle.oid_core.specs.TextValue.{name_of_text};

use crate::fault::OidFault;
use crate::limits::{INLINE_NUMBERS, MAX_NUMBERS};

/// The shortest content of a name is one of its contents.
pub fn name_is_encoded()
    ensures { (name : List ℕ) → IsEncodable name → IsName (canon_name name) name }
{}

/// No content of a name has fewer octets.
pub fn no_name_is_shorter()
    ensures { (content name : List ℕ) → IsName content name →
        length (canon_name name) ≤ length content }
{}

/// A name has one content, the shortest: no group of seven bits is to spare (X.690, 8.19.2).
pub fn content_is_one()
    ensures { (content name : List ℕ) → IsName content name → content ≡ canon_name name }
{}

/// A content is that of one name at most.
pub fn name_is_one()
    ensures { (content a b : List ℕ) → IsName content a → IsName content b → a ≡ b }
{}

/// Reading from left to right gives a name exactly where the grammar has one, and `BadContent`
/// exactly where it has none.
pub fn reading_is_the_grammar()
    ensures name { (content name : List ℕ) → AreOctets content →
        (name_at content ≡ Ok name) ↔ IsName content name }
    ensures fault { (content : List ℕ) (f : OidFault) → AreOctets content →
        (name_at content ≡ Err f) ↔ ((f ≡ OidFault.BadContent) × ((name : List ℕ) →
        ¬ IsName content name)) }
{}

/// A text is the dotted text of one name at most.
pub fn text_is_one()
    ensures { (text a b : List ℕ) → IsDotted text a → IsDotted text b → a ≡ b }
{}

/// The name of a text is a function of it: `name_of_text` gives the name exactly of the dotted
/// texts, and none of every other.
pub fn text_is_read()
    ensures name { (text name : List ℕ) → (name_of_text text ≡ Some name) ↔ IsDotted text name }
    ensures none { (text : List ℕ) → (name_of_text text ≡ None) ↔ ((name : List ℕ) →
        ¬ IsDotted text name) }
{}

/// Names are in one order.
pub fn order_is_total()
    ensures one { (a b : List ℕ) → IsBefore a b ⊎ ((a ≡ b) ⊎ IsBefore b a) }
    ensures strict { (a : List ℕ) → ¬ IsBefore a a }
    ensures through { (a b c : List ℕ) → IsBefore a b → IsBefore b c → IsBefore a c }
{}

/// The tests of two lists say what the relations say.
pub fn tests_decide()
    ensures before { (a b : List ℕ) → IsTrue (name_lt a b) ↔ IsBefore a b }
    ensures same { (a b : List ℕ) → IsTrue (name_eq a b) ↔ (a ≡ b) }
    ensures prefix { (front name : List ℕ) → IsTrue (is_prefix front name) ↔ IsPrefix front name }
{}

/// The limits of names: 128 sub-identifiers at most (RFC 2578, 3.5), of which 24 take no memory.
pub fn limits_are()
    ensures most { MAX_NUMBERS ≡ 128 }
    ensures inline { INLINE_NUMBERS ≡ 24 }
{}
