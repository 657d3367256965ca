//! A policy: the communities, and the tables of access control.
ghost use Rattle.std.specs.Prelude.{◌≡◌, ◌≢◌, ◌⊎◌, ◌<◌, ◌≤◌, length, map, slice_get, option_map, Some, IfOk, IfErr, IfSome, OnOk};
ghost use Rattle.std.specs.Option.{ForSome};
ghost use Rattle.vacm_core.specs.FamilyIndex.{next_family};
ghost use Rattle.vacm_core.specs.Rules.{AreRight, BeginsRight};
ghost use Rattle.community_core.specs.Faults.{IsCommunityFault};
ghost use Rattle.community_core.specs.Communities.{community_row, community_rules};

use crate::community::{
    Caller, CommunityRow, MAX_COMMUNITY_NAME, WrittenCommunity, deciding_community,
};
use crate::fault::{PolicyFault, PolicyTable};
use std::alloc::{AllocError, Global};
use std::marker::Model;
use vacm_core::{Mask, Rows, Same, Vacm, VacmRows, checked_rows, copied_rows};

/// Who may read and write what, seen as five lists of rows. No two communities have one index, and
/// each community's lengths and fields are right.
pub struct Policy {
    communities: Rows<CommunityRow>,
    // Boxed, so that a policy is moved without its tables.
    vacm: Box<Vacm>,
}

// By hand: who drops one then knows nothing of its parts.
impl Drop for Policy {
    fn drop(self) {
        let Policy {
            communities: _communities,
            vacm: _vacm,
        } = self;
    }
}

impl Model for Policy {
    ghost use Rattle.community_core.specs.Communities.{PolicyTables, AreSound};

    ghost Value = { PolicyTables };

    ghost view = { λ p. record { communities = p.communities; vacm = p.vacm.value } };

    ghost invariant = { λ p. AreSound p.communities };
}

/// A policy as it is written: what [`Policy::new`] and [`Vacm::new`] take.
#[derive(Drop)]
pub struct PolicyRows {
    /// The communities.
    pub communities: Rows<WrittenCommunity>,
    /// The tables of access control.
    pub vacm: VacmRows,
}

impl Same for PolicyRows {
    fn same(&self, other: &PolicyRows) -> bool {
        self.communities.same(&other.communities) && self.vacm.same(&other.vacm)
    }
}

// The rows that written communities stand for, or the first fault, as `Policy::new` says it.
fn right_communities(
    alloc: Global,
    communities: Rows<WrittenCommunity>,
) -> Result<Rows<CommunityRow>, PolicyFault>
    ensures rows { IfOk result (λ rows. rows ≡ map community_row communities) }
    ensures right { OnOk result (AreRight community_rules communities) }
    ensures fault { IfErr result (λ e. e ≢ PolicyFault.Memory → IsCommunityFault communities e) }
    ensures memory { IfErr result (λ e. e ≡ PolicyFault.Memory →
        BeginsRight community_rules communities) }
{
    Ok(checked_rows(alloc, PolicyTable::Communities, communities)?)
}

impl Policy {
    ghost use Rattle.vacm_core.specs.Rules.{AreRight, BeginsRight};
    ghost use Rattle.vacm_core.specs.Changes.{with_mask, with_type};
    ghost use Rattle.vacm_core.specs.Tables.{rows_of};
    ghost use Rattle.community_core.specs.Faults.{IsCommunityFault};
    ghost use Rattle.community_core.specs.Communities.{community_row, written_community, community_rules, with_families, caller_of, caller_of_row};

    /// The policy of these communities, as they are written, and these tables.
    ///
    /// # Errors
    ///
    /// The first community at fault, and in it its lengths, then its fields, then its index;
    /// `Memory` where a growth was refused: nothing is wrong with the first community, if there is
    /// one.
    pub fn new(
        alloc: Global,
        communities: Rows<WrittenCommunity>,
        vacm: Vacm,
    ) -> Result<Policy, PolicyFault>
        ensures policy { IfOk result (λ p.
            p ≡ record { communities = map community_row communities; vacm = vacm }) }
        ensures right { OnOk result (AreRight community_rules communities) }
        ensures fault { IfErr result (λ e. e ≢ PolicyFault.Memory →
            IsCommunityFault communities e) }
        ensures memory { IfErr result (λ e. e ≡ PolicyFault.Memory →
            BeginsRight community_rules communities ⊎ AreRight community_rules communities) }
    {
        let communities = right_communities(alloc, communities)?;
        let vacm = Box::new(alloc, vacm)?;
        Ok(Policy { communities, vacm })
    }

    /// A policy that is equal to this one.
    ///
    /// # Errors
    ///
    /// Where there is no memory for it.
    pub fn try_copy(&self, alloc: Global) -> Result<Policy, AllocError>
        ensures { IfOk result (λ copy. copy ≡ self.now) }
    {
        let copies = copied_rows(alloc, self.communities.as_slice())?;
        Ok(Policy {
            communities: copies,
            vacm: Box::new(alloc, self.vacm.try_copy(alloc)?)?,
        })
    }

    /// The rows of this policy as they are written. [`Vacm::new`] and [`Policy::new`] take them and
    /// give this policy again, as the laws [`Vacm::rows_are_right`] and
    /// [`Policy::communities_are_right`] say.
    ///
    /// # Errors
    ///
    /// Where there is no memory for them.
    pub fn rows(&self, alloc: Global) -> Result<PolicyRows, AllocError>
        ensures { IfOk result (λ rows. rows ≡ record {
          communities = map written_community self.now.communities;
          vacm = rows_of self.now.vacm;
        }) }
    {
        Ok(PolicyRows {
            communities: copied_rows(alloc, self.communities.as_slice())?,
            vacm: self.vacm.rows(alloc)?,
        })
    }

    /// The number of the family row of the least index that is greater than these numbers, if there is
    /// one (RFC 3415, vacmViewTreeFamilyTable), as [`Vacm::next_family`] gives it. It takes no memory.
    pub fn next_family(&self, numbers: &[u32]) -> Option<usize>
        ensures row { result ≡ next_family self.now.vacm.families numbers.now }
        ensures within { ForSome result (λ n. n < length self.now.vacm.families) }
    {
        self.vacm.next_family(numbers)
    }

    /// Puts the mask of the family row of this number, and gives the one that it had, as
    /// [`Vacm::put_mask`] does. It takes no memory.
    pub fn put_mask(&mut self, n: usize, mask: Mask) -> Mask
        requires { n < length self.old.vacm.families }
        ensures policy { self.new ≡ with_families self.old
            (with_mask self.old.vacm.families n mask) }
        ensures before { option_map (λ row. row.mask) (slice_get self.old.vacm.families n)
            ≡ Some result }
    {
        self.vacm.put_mask(n, mask)
    }

    /// Puts the type of the family row of this number, and gives the one that it had, as
    /// [`Vacm::put_type`] does. It takes no memory.
    pub fn put_type(&mut self, n: usize, included: bool) -> bool
        requires { n < length self.old.vacm.families }
        ensures policy { self.new ≡ with_families self.old
            (with_type self.old.vacm.families n included) }
        ensures before { option_map (λ row. row.included) (slice_get self.old.vacm.families n)
            ≡ Some result }
    {
        self.vacm.put_type(n, included)
    }

    /// The tables of access control.
    pub fn vacm(&self) -> &Vacm
        ensures { result.now ≡ self.now.vacm }
    {
        &self.vacm
    }

    /// Whom a community name stands for: the row of that name whose index comes first. A name that
    /// stands for somebody has at most [`MAX_COMMUNITY_NAME`] octets.
    pub fn caller(&self, name: &[u8]) -> Option<Caller>
        ensures caller { result ≡ caller_of self.now.communities name.now }
        ensures short { IfSome result (λ _. length name.now ≤ MAX_COMMUNITY_NAME) }
    {
        match deciding_community(self.communities.as_slice(), name) {
            Some(n) => Some(self.caller_at(n)),
            None => None,
        }
    }

    /// The law that these communities, as they are written, are rows of which nothing is wrong, and
    /// stand for these communities: what [`Policy::new`] takes gives the same policy again.
    pub fn communities_are_right(&self)
        ensures right { AreRight community_rules (map written_community self.now.communities) }
        ensures same { map community_row (map written_community self.now.communities)
            ≡ self.now.communities }
    {
        let _ = &self.vacm;
    }

    // Whom the row of this number stands for.
    fn caller_at(&self, n: usize) -> Caller
        requires { n < length self.now.communities }
        ensures { caller_of_row (slice_get self.now.communities n) ≡ Some result }
    {
        let row = &self.communities.as_slice()[n];
        Caller {
            security: row.security.copy(),
            context: row.context.copy(),
        }
    }
}
