//! Communities, and who they stand for (RFC 3584, section 5: snmpCommunityTable).
ghost use Rattle.std.specs.Prelude.{◌≡◌, ◌<◌, true, length};
ghost use Rattle.std.specs.Option.{ForSome};
ghost use Rattle.community_core.specs.Communities.{community_lengths, community_fields, community_row, written_community, same_index, index_cmp, has_name, index_before, deciding_community};
ghost use Rattle.community_core.specs.Orders.{index_total, index_ties};

use std::alloc::{AllocError, Global};
use std::cmp::Ordering;
use vacm_core::{Contest, CopiedAs, MAX_NAME, Name, Same, Text, WrittenRow, deciding_row};

/// The longest name that a community of a policy may have, in octets: 255.
pub const MAX_COMMUNITY_NAME: usize = 255;

/// A community row as it is written.
#[derive(Drop)]
pub struct WrittenCommunity {
    /// The row's index; 1 to 32 plain octets are right.
    pub index: Text,
    /// The community name; 1 to 255 octets of any text are right.
    pub name: Text,
    /// The security name; 1 to 32 plain octets are right.
    pub security: Text,
    /// The context name; 0 to 32 plain octets are right.
    pub context: Text,
}

/// A row of snmpCommunityTable: whom a community name stands for.
#[derive(Drop)]
pub struct CommunityRow {
    /// The row's index, 1 to 32 octets.
    pub index: Name,
    /// The community name, 1 to 255 octets of any text.
    pub name: Text,
    /// The security name, 1 to 32 octets.
    pub security: Name,
    /// The context name, 0 to 32 octets.
    pub context: Name,
}

/// Whom a community name stands for.
#[derive(Drop)]
pub struct Caller {
    /// The security name.
    pub security: Name,
    /// The context name.
    pub context: Name,
}

impl WrittenRow for WrittenCommunity {
    type Row = CommunityRow;

    ghost lengths = { community_lengths };

    ghost fields = { community_fields };

    ghost row_of = { community_row };

    ghost same_key = { same_index };

    ghost has_keys = { true };

    ghost key_cmp = { index_cmp };

    ghost keys_are_ordered = { index_total };

    ghost same_where_equal = { index_ties };

    fn has_right_lengths(&self) -> bool {
        self.index.has_length(1, MAX_NAME)
            && self.name.has_length(1, MAX_COMMUNITY_NAME)
            && self.security.has_length(1, MAX_NAME)
            && self.context.has_length(0, MAX_NAME)
    }

    fn has_right_fields(&self) -> bool {
        self.index.is_plain() && self.security.is_plain() && self.context.is_plain()
    }

    fn into_row(self) -> CommunityRow {
        CommunityRow {
            index: Name::of(self.index.as_str()),
            security: Name::of(self.security.as_str()),
            context: Name::of(self.context.as_str()),
            name: self.name,
        }
    }

    fn has_keys() -> bool {
        true
    }

    fn cmp_key(one: &CommunityRow, other: &CommunityRow) -> Ordering {
        one.index.as_bytes().cmp(other.index.as_bytes())
    }
}

impl CopiedAs<CommunityRow> for CommunityRow {
    ghost copy_of = { λ row. row };

    fn copy_as(&self, alloc: Global) -> Result<CommunityRow, AllocError> {
        Ok(CommunityRow {
            index: self.index.copy(),
            name: Text::new(alloc, self.name.as_str())?,
            security: self.security.copy(),
            context: self.context.copy(),
        })
    }
}

impl CopiedAs<WrittenCommunity> for CommunityRow {
    ghost copy_of = { written_community };

    fn copy_as(&self, alloc: Global) -> Result<WrittenCommunity, AllocError> {
        Ok(WrittenCommunity {
            index: Text::new(alloc, self.index.as_str())?,
            name: Text::new(alloc, self.name.as_str())?,
            security: Text::new(alloc, self.security.as_str())?,
            context: Text::new(alloc, self.context.as_str())?,
        })
    }
}

impl Same for WrittenCommunity {
    fn same(&self, other: &WrittenCommunity) -> bool {
        self.index.same(&other.index)
            && self.name.same(&other.name)
            && self.security.same(&other.security)
            && self.context.same(&other.context)
    }
}

/// Which row decides on a community name: of the rows of that name, the one whose index comes
/// first.
#[derive(Drop)]
struct CommunityContest<'a> {
    name: &'a [u8],
}

impl<'a> Contest for CommunityContest<'a> {
    ghost use Rattle.community_core.specs.Orders.{index_order};

    type Row = CommunityRow;

    ghost passes = { λ c. has_name c.name.now };

    ghost beats = { λ c. index_before };

    ghost ranks = { λ c. index_order };

    fn passes(&self, row: &CommunityRow) -> bool {
        row.name.as_str().as_bytes() == self.name
    }

    fn beats(&self, row: &CommunityRow, other: &CommunityRow) -> bool {
        row.index.as_bytes().cmp(other.index.as_bytes()).is_lt()
    }
}

/// The number of the row that decides on a community name.
pub fn deciding_community(rows: &[CommunityRow], name: &[u8]) -> Option<usize>
    ensures place { result ≡ deciding_community rows.now name.now }
    ensures within { ForSome result (λ n. n < length rows.now) }
{
    deciding_row(&CommunityContest { name }, rows)
}
