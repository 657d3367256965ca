//! Reading dotted text.
ghost use Rattle.std.specs.Prelude.{◌≡◌, ◌∷◌, ◌^◌, ◌<◌, ◌≤◌, ◌≢◌, ℕ, Some, length, IfOk, IfErr, IfSome};
ghost use Rattle.std.specs.Fmt.{decimal};
ghost use Rattle.std.specs.Option.{option_copied};
ghost use Rattle.oid_core.specs.Text.{IsDotted, IsTextFault, pieces, pieces_left};

use crate::fault::OidFault;
use crate::limits::MAX_NUMBERS;
use arrayvec::ArrayVec;

/// The number that a text writes in decimal, with no sign and no leading zero.
fn number_of(text: &str) -> Option<u32>
    ensures found { IfSome result (λ n. text.now ≡ decimal n) }
    ensures fits { IfSome result (λ n. n < 2 ^ 32) }
    ensures only { (n : ℕ) → n < 2 ^ 32 → text.now ≡ decimal n → result ≡ Some n }
{
    let first = text.as_bytes().first()?;
    if !first.is_ascii_digit() || (*first == b'0' && text.len() > 1) {
        return None;
    }
    text.parse().ok()
}

/// The text before the first dot, and what is behind that dot, if there is one.
fn first_piece(text: &str) -> (&str, Option<&str>)
    ensures { pieces text.now ≡ result.0.now ∷ pieces_left (option_copied result.1) }
{
    match text.split_once('.') {
        Some((piece, rest)) => (piece, Some(rest)),
        None => (text, None),
    }
}

/// The numbers of a dotted text, 1 to 128 of them. A text that is wrong anywhere is `BadText`, also
/// where it is too long.
pub fn numbers_of(text: &str) -> Result<ArrayVec<u32, MAX_NUMBERS>, OidFault>
    ensures found { IfOk result (λ v. IsDotted text.now v.items) }
    ensures fault { IfErr result (λ f. IsTextFault text.now f) }
    ensures memory { IfErr result (λ f. f ≢ OidFault.Memory) }
{
    let mut numbers = ArrayVec::new();
    let mut too_long = false;
    let mut left = Some(text);
    while let Some(here) = left {
        let (piece, rest) = first_piece(here);
        let Some(number) = number_of(piece) else {
            return Err(OidFault::BadText);
        };
        if numbers.try_push(number).is_err() {
            too_long = true;
        }
        left = rest;
    }
    if too_long {
        Err(OidFault::TooLong)
    } else {
        Ok(numbers)
    }
}
