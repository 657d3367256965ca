//! What follows from the definitions alone.
ghost use Rattle.std.specs.Prelude.{◌≡◌, ℕ, List, Some};
ghost use Rattle.hex.specs.Hex.{encode_upper};
ghost use Rattle.script_core.specs.Lines.{lines_of, AreLines};
ghost use Rattle.script_core.specs.Words.{octets_of};

use crate::run::MAX_READS;

/// `MAX_READS`, the most reads of one run, is 4,294,967,295.
pub fn limits_are_fixed()
    ensures reads { MAX_READS ≡ 4294967295 }
{}

/// The lines of an input are the only lists without octet 0A that, each ended by one, make the
/// input, or the input and one 0A where it does not end with one.
pub fn has_its_lines()
    ensures are { (input : List ℕ) → AreLines input (lines_of input) }
    ensures only { (input : List ℕ) (lines : List (List ℕ)) → AreLines input lines →
        lines ≡ lines_of input }
{}

/// Octets that are written in hexadecimal are read back.
pub fn reads_back_hex(octets: &[u8])
    ensures { octets_of (encode_upper octets.now) ≡ Some octets.now }
{
    let _octets = octets;
}
