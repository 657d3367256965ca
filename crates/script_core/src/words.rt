//! The words, numbers and hexadecimal in a line of a script.
ghost use Rattle.std.specs.Prelude.{◌≡◌, ◌≢◌, ◌↔◌, ◌≤◌, ◌+◌, ◌%◌, ◌++◌, ◌∷◌, All, IsSome, IfSome, IfNone, IfOk, is_ok, if◌then◌else◌, option_map, length, ℕ, decimal};
ghost use Rattle.std.specs.List.{list_all, AllPass};
ghost use Rattle.std.specs.Char.{is_ascii_digit};
ghost use Rattle.hex.specs.Hex.{decode_of, encode_upper, is_hex_digit};
ghost use Rattle.script_core.specs.Words.{split_word, is_number, number_of, octets_of};

use hex::FromHexError;
use std::alloc::{AllocError, Global};

/// Cuts a line at its first space: the word before it, and all that follows it. `None` where the
/// line has no space.
pub fn split_word(line: &[u8]) -> Option<(&[u8], &[u8])>
    ensures value { option_map (λ p. (p.0.now, p.1.now)) result ≡ split_word line.now }
    ensures cut { IfSome result (λ p. (line.now ≡ p.0.now ++ (32 ∷ p.1.now)) ×
        All (λ b. b ≢ 32) p.0.now) }
    ensures whole { IfNone result (All (λ b. b ≢ 32) line.now) }
{
    cut_at_space(line)
}

fn cut_at_space(line: &[u8]) -> Option<(&[u8], &[u8])>
    ensures { option_map (λ p. (p.0.now, p.1.now)) result ≡ split_word line.now }
{
    for (i, b) in line.iter().enumerate() {
        if *b == b' ' {
            return Some((&line[..i], &line[i + 1..]));
        }
    }
    None
}

fn all_digits(word: &[u8]) -> bool
    ensures { result ≡ list_all is_ascii_digit word.now }
{
    word.iter().all(|d| d.is_ascii_digit())
}

// Whether a word is digits, with no leading zero but in 0 itself.
fn is_number(word: &[u8]) -> bool
    ensures { result ≡ is_number word.now }
{
    if word.is_empty() {
        return false;
    }
    if word[0] == b'0' {
        return word.len() == 1;
    }
    all_digits(word)
}

/// The number that a word writes in decimal, where that is at most `most`. A word has no sign and
/// no leading zero, but in 0 itself.
pub fn read_number(word: &[u8], most: u32) -> Option<u32>
    ensures value { result ≡ number_of most word.now }
    // What is read is written by the word, and each number that a word writes is read.
    ensures read { IfSome result (λ n. (n ≤ most) × (word.now ≡ decimal n)) }
    ensures printed { (n : ℕ) → n ≤ most → word.now ≡ decimal n → result ≡ Some n }
{
    scan_number(word, most)
}

fn scan_number(word: &[u8], most: u32) -> Option<u32>
    ensures { result ≡ number_of most word.now }
{
    if !is_number(word) {
        return None;
    }
    let mut n = 0u64;
    for d in word {
        n = n * 10 + u64::from(*d - b'0');
        if n > u64::from(most) {
            return None;
        }
    }
    Some(n as u32)
}

/// The octets that a text writes in hexadecimal, in either case: two digits an octet, and none for
/// the empty text. `None` where the count of digits is odd, or an octet of the text is no digit.
///
/// # Errors
///
/// `AllocError` where there is no memory for the octets.
pub fn read_hex(alloc: Global, text: &[u8]) -> Result<Option<Vec<u8>>, AllocError>
    ensures value { IfOk result (λ octets. option_map (λ v. v.items) octets ≡ octets_of text.now) }
    ensures reads { IfOk result (λ octets. IsSome octets ↔ ((length text.now % 2 ≡ 0) ×
        AllPass is_hex_digit text.now)) }
{
    match hex::decode(alloc, text) {
        Ok(octets) => Ok(Some(octets)),
        Err(error) if error == FromHexError::OutOfMemory => Err(AllocError),
        Err(_) => Ok(None),
    }
}

/// Appends the octets in hexadecimal, two upper-case digits an octet.
///
/// # Errors
///
/// `AllocError` where there is no memory for the digits; `out` then is as it was.
pub fn write_hex(out: &mut Vec<u8>, octets: &[u8]) -> Result<(), AllocError>
    ensures { out.new.items ≡ (if is_ok result then out.old.items
        ++ encode_upper octets.now else out.old.items) }
{
    let text = hex::encode_upper(*out.allocator(), octets)?;
    out.extend_from_slice(text.as_bytes())
}
