//! The request of a question.
ghost use Rattle.std.specs.Prelude.{◌≡◌, map, option_map, IfOk, IfErr};
ghost use Rattle.explain.specs.declared.questions.QuestionFault.TheVariants.{Memory};
ghost use Rattle.explain.specs.Questions.{AreAskedBy, behind_dot, without_front_dot, IsNameText, IsQuestion, IsFaultOf, IsNameFault};

use message_core::{Binding, Bindings, Kind, Octets, Request, Value};
use oid_core::{Oid, OidFault};
use std::alloc::{AllocError, Global};

/// Why words make no request.
#[derive(Clone, Copy, Debug, PartialEq, Eq, Drop)]
pub enum QuestionFault<'a> {
    /// There was no memory for it.
    Memory,
    /// This word is no object identifier: numbers below 2^32 with dots between, at most 128, and it may
    /// be one dot in front.
    Name(&'a str),
}

impl From<AllocError> for QuestionFault<'_> {
    ghost from_gives = { λ _ fault. fault ≡ Memory };

    fn from(_error: AllocError) -> Self {
        QuestionFault::Memory
    }
}

/// The request of this PDU type and community for the names of these words, each with NULL. One dot may
/// stand in front of a word, as Net-SNMP's tools print it; it is no part of the name. The request-id is
/// 0, as are error-status and error-index, and of a GetBulk non-repeaters and max-repetitions: the
/// decision, which asks for the view to read by, depends on none of them.
///
/// # Errors
/// `Name` with the first word that is no object identifier; `Memory` where there is none for it.
pub fn question_of<'a>(
    alloc: Global,
    kind: Kind,
    community: &str,
    words: &[&'a str],
) -> Result<Request, QuestionFault<'a>>
    ensures request { IfOk result (λ request.
        IsQuestion kind community.now (map (λ word. word.now) words.now) request) }
    ensures fault { IfErr result (IsFaultOf (map (λ word. word.now) words.now)) }
{
    let bindings = bindings_of(alloc, words)?;
    let community = Octets::from_slice(alloc, community.as_bytes())?;
    Ok(Request {
        kind,
        id: 0,
        first: 0,
        second: 0,
        community,
        bindings,
    })
}

// The variables of these words.
fn bindings_of<'a>(alloc: Global, words: &[&'a str]) -> Result<Bindings, QuestionFault<'a>>
    ensures names { IfOk result (λ bindings.
        AreAskedBy (map (λ word. word.now) words.now) bindings) }
    ensures fault { IfErr result (IsFaultOf (map (λ word. word.now) words.now)) }
{
    let mut bindings = Bindings::new(alloc);
    for word in words {
        let name = name_of(alloc, word)?;
        bindings.push(Binding {
            name,
            value: Value::Null,
        })?;
    }
    Ok(bindings)
}

// What stands behind the dot that a word begins with, if it does.
fn behind_dot(word: &str) -> Option<&str>
    ensures { option_map (λ rest. rest.now) result ≡ behind_dot word.now }
{
    word.strip_prefix('.')
}

// The word without one dot in front.
fn without_front_dot(word: &str) -> &str
    ensures { result.now ≡ without_front_dot word.now }
{
    match behind_dot(word) {
        Some(rest) => rest,
        None => word,
    }
}

// The name of a word.
fn name_of<'a>(alloc: Global, word: &'a str) -> Result<Oid, QuestionFault<'a>>
    ensures name { IfOk result (λ name. IsNameText word.entry.now name) }
    ensures fault { IfErr result (IsNameFault word.entry.now) }
{
    match Oid::parse(alloc, without_front_dot(word)) {
        Ok(name) => Ok(name),
        Err(OidFault::Memory) => Err(QuestionFault::Memory),
        Err(_) => Err(QuestionFault::Name(word)),
    }
}
