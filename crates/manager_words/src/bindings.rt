//! The names and values of a request, by the words that write them.
ghost use Rattle.std.specs.Prelude.{map, IfOk, IfErr};
ghost use Rattle.message_core.specs.Encodable.{AreEncodable};
ghost use Rattle.manager_words.specs.Bindings.{Reads, Finds, IsPlainIntegerText, IsIntegerText, IsNameText, IsNameFault, IsAskedText, IsValueText, IsSettingText, AreSomeTexts};

use crate::fault::WordsFault;
use message_core::{Binding, Bindings, Octets, Value};
use oid_core::{Oid, OidFault};
use script_core::words::{read_hex, read_number};
use std::alloc::{AllocError, Global};

/// The largest INTEGER (RFC 3416, section 3).
const MAX_INTEGER: u32 = 2_147_483_647;

/// The bindings that ask for names, at least one, each with NULL.
pub(crate) fn names_of<'a>(alloc: Global, words: &[&'a str]) -> Result<Bindings, WordsFault<'a>>
    ensures read { Reads (AreSomeTexts IsAskedText (map (λ word. word.now) words.now)) result }
    ensures encodable { IfOk result AreEncodable }
{
    if words.is_empty() {
        return Err(WordsFault::Missing("NAME"));
    }
    let mut bindings = Bindings::new(alloc);
    for word in words {
        let name = name_of(alloc, word)?;
        bindings.push(Binding {
            name,
            value: Value::Null,
        })?;
    }
    Ok(bindings)
}

/// The bindings of settings, at least one.
pub(crate) fn settings_of<'a>(alloc: Global, words: &[&'a str]) -> Result<Bindings, WordsFault<'a>>
    ensures read { Reads (AreSomeTexts IsSettingText (map (λ word. word.now) words.now)) result }
    ensures encodable { IfOk result AreEncodable }
{
    if words.is_empty() {
        return Err(WordsFault::Missing("SETTING"));
    }
    let mut bindings = Bindings::new(alloc);
    for word in words {
        let binding = setting_of(alloc, word)?;
        bindings.push(binding)?;
    }
    Ok(bindings)
}

/// The name of a word, where it has an encoding.
pub(crate) fn name_of<'a>(alloc: Global, word: &'a str) -> Result<Oid, WordsFault<'a>>
    ensures read { Reads (IsNameText word.entry.now) result }
    ensures fault { IfErr result (IsNameFault word.entry.now) }
{
    match Oid::parse(alloc, word) {
        Ok(name) if name.is_encodable() => Ok(name),
        Err(OidFault::Memory) => Err(WordsFault::Memory),
        _ if word.starts_with('.') => Err(WordsFault::FrontDot(word)),
        _ => Err(WordsFault::Name(word)),
    }
}

// The binding of a setting: a name, and behind the first `=` its value.
fn setting_of<'a>(alloc: Global, word: &'a str) -> Result<Binding, WordsFault<'a>>
    ensures { Reads (IsSettingText word.entry.now) result }
{
    let Some((name, value)) = word.split_once('=') else {
        return Err(WordsFault::Assignment(word));
    };
    let name = name_of(alloc, name)?;
    match value_of(alloc, value.as_bytes())? {
        Some(value) => Ok(Binding { name, value }),
        None => Err(WordsFault::Assignment(word)),
    }
}

// The value of a setting: `i:` and a number, or `x:` and octets in hexadecimal.
fn value_of(alloc: Global, text: &[u8]) -> Result<Option<Value>, AllocError>
    ensures { IfOk result (Finds (IsValueText text.now)) }
{
    match text {
        [b'i', b':', number @ ..] => match integer_of(number) {
            Some(number) => Ok(Some(Value::Integer(number))),
            None => Ok(None),
        },
        [b'x', b':', digits @ ..] => match read_hex(alloc, digits)? {
            Some(octets) => Ok(Some(Value::OctetString(Octets::from_vec(octets)))),
            None => Ok(None),
        },
        _ => Ok(None),
    }
}

// The INTEGER of a text: digits with no leading zero, or a minus and such digits, not 0.
fn integer_of(text: &[u8]) -> Option<i32>
    ensures { Finds (IsIntegerText text.now) result }
{
    match text {
        [b'-', digits @ ..] => match read_number(digits, MAX_INTEGER + 1) {
            Some(number) if number > 0 => Some((-i64::from(number)) as i32),
            _ => None,
        },
        _ => plain_integer(text),
    }
}

// The INTEGER of digits alone.
fn plain_integer(text: &[u8]) -> Option<i32>
    ensures { Finds (IsPlainIntegerText text.now) result }
{
    match read_number(text, MAX_INTEGER) {
        Some(number) => Some(number as i32),
        None => None,
    }
}
