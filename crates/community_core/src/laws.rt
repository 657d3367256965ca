//! Laws of policies. Each holds of all tables, and its function does nothing.
ghost use Rattle.std.specs.Prelude.{◌≡◌, ◌↔◌, ℕ, List, false, Some, None};
ghost use Rattle.std.specs.List.{list_any};
ghost use Rattle.vacm_core.specs.Best.{IsUnbeatenAt};
ghost use Rattle.vacm_core.specs.Tables.{KeysDiffer};
ghost use Rattle.community_core.specs.declared.community.CommunityRow.{CommunityRow};
ghost use Rattle.community_core.specs.Communities.{PolicyTables, same_index, has_name, index_before, deciding_community};

use crate::community::MAX_COMMUNITY_NAME;

/// A community row decides on a name wherever one has it (RFC 3584, section 5, snmpCommunityTable):
/// none decides exactly where no row has the name, and the one that decides has the name, and no
/// row that has it comes before. Where no two rows have one index, there is at most one such row.
pub fn some_community_decides()
    ensures none { (rows : List CommunityRow) (name : List ℕ) →
        (deciding_community rows name ≡ None) ↔ (list_any (has_name name) rows ≡ false) }
    ensures some { (rows : List CommunityRow) (name : List ℕ) (n : ℕ) →
        deciding_community rows name ≡ Some n
        → IsUnbeatenAt (has_name name) index_before rows n }
    ensures one { (rows : List CommunityRow) (name : List ℕ) (n m : ℕ) → KeysDiffer same_index rows
        → IsUnbeatenAt (has_name name) index_before rows n →
        IsUnbeatenAt (has_name name) index_before rows m → n ≡ m }
{}

/// The limit of a community's name. RFC 3584, section 5, gives snmpCommunityName none; 255 octets
/// is what a request may bear here.
pub fn limits()
    ensures { MAX_COMMUNITY_NAME ≡ 255 }
{}
