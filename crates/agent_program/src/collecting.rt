//! The words of a command line as a list.
ghost use Rattle.std.specs.Prelude.{◌≡◌, IfOk, IfErr, map, string_bytes};
ghost use Rattle.std.specs.IoError.{error_kind};
ghost use Rattle.std.specs.Vec.Iter.{into_iter_items};
ghost use Rattle.std.specs.declared.io.ErrorKind.TheVariants.{OutOfMemory};

use std::alloc::Allocator;
use std::{env, io};

/// Words as a list, in their order.
///
/// # Errors
/// `OutOfMemory` only.
pub fn collect_words<A: Allocator>(alloc: A, words: env::Args) -> io::Result<Vec<String, A>>
    ensures words { IfOk result (λ list.
        map string_bytes list.items ≡ map string_bytes (into_iter_items words)) }
    ensures fault { IfErr result (λ error. error_kind error ≡ OutOfMemory) }
{
    let mut list = Vec::new(alloc);
    for word in words {
        list.push(word)?;
    }
    Ok(list)
}
