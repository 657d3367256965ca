//! Whether objects have names behind which any index may stand.
ghost use Rattle.std.specs.Prelude.{◌↔◌, map, IsTrue};
ghost use Rattle.setphase_core.specs.Registry.{rows_of, prefixes_of, TakesAnyIndex, TakeAnyIndex, AreNamed};

use crate::limits::MAX_INDEX;
use crate::object::MibObject;
use oid_core::{MAX_NUMBERS, begins};

// Whether the name of an object stands under 1.3, and any index may stand behind it.
fn takes_any_index<O: MibObject>(object: &O) -> bool
    ensures { IsTrue result ↔ TakesAnyIndex (O.state object.now).row.prefix }
{
    let prefix = object.prefix();
    begins(&[1, 3], prefix) && prefix.len() <= MAX_NUMBERS - MAX_INDEX
}

/// Whether the name of each object stands under 1.3, and has no more numbers than leave place for an
/// index of [`MAX_INDEX`](crate::MAX_INDEX) numbers: at most 12. Such names are those that
/// `Registry::new` asks for, whatever the objects show. It is for objects of which nothing else is
/// known, as boxed ones, and takes no memory.
#[tactic(auto, using(crate::proofs::Places::all_take, crate::proofs::Places::take_all, crate::proofs::Places::named_of_taken))]
pub fn are_named<O: MibObject>(objects: &[O]) -> bool
    ensures exact { IsTrue result ↔ TakeAnyIndex (prefixes_of (rows_of (map O.state objects.now))) }
    ensures named { IsTrue result → AreNamed (rows_of (map O.state objects.now)) }
{
    objects.iter().all(|object| takes_any_index(object))
}
