//! Which requests have an encoding. The functions `known_` do nothing: each hands on to its caller
//! what the types of a request say of its numbers and names.
ghost use Rattle.std.specs.Prelude.{◌↔◌, IsTrue};
ghost use Rattle.std.specs.List.{AllByRecursion};
ghost use Rattle.message_core.specs.Encodable.{AreEncodable, HasEncoding, FitsRequest};

use message_core::{Binding, Request, known_binding};

// Each binding has an encoding, if all their names begin as X.690, 8.19.4 asks.
fn known_bindings(bindings: &[Binding])
    ensures { AreEncodable bindings.now → AllByRecursion HasEncoding bindings.now }
{
    for binding in bindings {
        known_binding(binding);
    }
}

/// Hands on that a request has an encoding, if its names and OBJECT IDENTIFIER values begin as
/// X.690, 8.19.4 asks. It does nothing.
pub fn known_request(request: &Request)
    ensures { AreEncodable request.now.bindings → FitsRequest request.now }
{
    let _numbers = (request.id, request.first, request.second);
    known_bindings(request.bindings.as_slice());
}

/// Whether the names and OBJECT IDENTIFIER values of bindings begin as X.690, 8.19.4 asks.
pub fn are_encodable(bindings: &[Binding]) -> bool
    ensures { IsTrue result ↔ AreEncodable bindings.now }
{
    bindings.iter().all(|binding| binding.is_encodable())
}
