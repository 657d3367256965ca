//! Which row of each table decides (RFC 3415, section 3.2).
ghost use Rattle.std.specs.Prelude.{◌≡◌, ◌<◌, length, option_map, find, bytes_eq};
ghost use Rattle.std.specs.List.{list_any};
ghost use Rattle.std.specs.Option.{ForSome};
ghost use Rattle.vacm_core.specs.Families.{mask_bit, agrees_at, agrees_from, matches, family_beats};
ghost use Rattle.vacm_core.specs.Rows.{same_group, same_access};
ghost use Rattle.vacm_core.specs.Tables.{KeysDiffer};
ghost use Rattle.vacm_core.specs.Keys.{group_key, access_key, IsIndex};
ghost use Rattle.vacm_core.specs.Access.{is_known, is_of, fits_context, candidate, access_beats, deciding_access, view_of};

use crate::contest::Contest;
use crate::index::{Keyed, with_key};
use crate::name::Name;
use crate::radix::behind;
use crate::tables::{AccessRow, FamilyRow, GroupRow};
use crate::verdict::{Ask, ViewType};
use crate::walk::best_among;

/// Whether the bit of this number is 1 in a mask; a short mask is extended by ones.
pub fn mask_bit(mask: &[u8], k: usize) -> bool
    ensures { result ≡ mask_bit mask.now k }
{
    match mask.get(k / 8) {
        Some(octet) => (*octet >> (7 - k % 8)) % 2 == 1,
        None => true,
    }
}

/// Whether a name is at least as long as a subtree, and equal to it wherever the mask's bit is 1.
/// Where the name begins with the subtree, the mask is not read.
pub fn agrees(mask: &[u8], subtree: &[u32], name: &[u32]) -> bool
    ensures { result ≡ agrees_from 0 mask.now subtree.now name.now }
{
    behind(name, subtree).is_some() || agrees_by_bits(mask, subtree, name)
}

/// The same, number by number.
pub fn agrees_by_bits(mask: &[u8], subtree: &[u32], name: &[u32]) -> bool
    ensures { result ≡ agrees_from 0 mask.now subtree.now name.now }
{
    if name.len() < subtree.len() {
        return false;
    }
    for (k, part) in subtree.iter().enumerate() {
        if !agrees_at(mask, k, *part, name) {
            return false;
        }
    }
    true
}

/// Whether a name has a number at a place, and it is the part of a subtree or the bit of the place is
/// 0.
pub fn agrees_at(mask: &[u8], k: usize, part: u32, name: &[u32]) -> bool
    ensures { result ≡ agrees_at mask.now k part name.now }
{
    match name.get(k) {
        Some(asked) => part == *asked || !mask_bit(mask, k),
        None => false,
    }
}

/// Which family row of a view decides on a name (RFC 3415, vacmViewTreeFamilyTable): of those whose
/// family has the name, the one with the longest subtree, and of equal lengths the
/// lexicographically greatest.
#[derive(Drop)]
pub struct FamilyContest<'a> {
    /// The view.
    pub view: &'a Name,
    /// The name.
    pub name: &'a [u32],
}

impl<'a> Contest for FamilyContest<'a> {
    ghost use Rattle.vacm_core.specs.Orders.{family_order};

    type Row = FamilyRow;

    ghost passes = { λ c. matches c.view.now c.name.now };

    ghost beats = { λ c. family_beats };

    ghost ranks = { λ c. family_order };

    fn passes(&self, row: &FamilyRow) -> bool {
        row.view.is(self.view) && agrees(row.mask.as_slice(), row.subtree.as_slice(), self.name)
    }

    fn beats(&self, row: &FamilyRow, other: &FamilyRow) -> bool {
        is_longer_or_greater(row, other)
    }
}

/// Whether the subtree of a row is longer than that of another, or of equal length and
/// lexicographically greater.
pub fn is_longer_or_greater(row: &FamilyRow, other: &FamilyRow) -> bool
    ensures { result ≡ family_beats row.now other.now }
{
    let subtree = row.subtree.as_slice();
    let other = other.subtree.as_slice();
    if other.len() != subtree.len() {
        return other.len() < subtree.len();
    }
    other.cmp(subtree).is_lt()
}

/// Whether a context is known.
pub fn is_known(contexts: &[Name], context: &Name) -> bool
    ensures { result ≡ is_known contexts.now context.now }
{
    context.is_empty() || is_listed(contexts, context)
}

fn is_listed(contexts: &[Name], context: &Name) -> bool
    ensures { result ≡ list_any (λ known. bytes_eq known context.now) contexts.now }
{
    contexts.iter().any(|known| known.is(context))
}

impl Keyed for GroupRow {
    ghost key = { group_key };

    fn key_number(&self) -> u32 {
        self.model
    }

    fn key_name(&self) -> &Name {
        &self.name
    }
}

/// The group row of a security name under a model, by the index of the rows.
pub fn group_row<'a>(rows: &'a [GroupRow], index: &[usize], ask: &Ask) -> Option<&'a GroupRow>
    requires index { IsIndex group_key rows.now index.now }
    requires differ { KeysDiffer same_group rows.now }
    ensures { option_map (λ row.
        row.now) result ≡ find (is_of ask.now.model ask.now.security) rows.now }
{
    let n = with_key(rows, index, ask.model, ask.security.as_bytes()).first()?;
    Some(&rows[*n])
}

fn fits_context(row: &AccessRow, context: &Name) -> bool
    ensures { result ≡ fits_context context.now row.now }
{
    if row.exact {
        row.prefix.is(context)
    } else {
        context.as_bytes().starts_with(row.prefix.as_bytes())
    }
}

/// Which access row decides on what is asked by a group (RFC 3415, vacmAccessTable): of the
/// candidates, in turn by the asked model, the whole context name as prefix, the longer prefix and
/// the higher level.
#[derive(Drop)]
struct AccessContest<'a> {
    ask: &'a Ask,
    group: &'a Name,
}

impl<'a> Contest for AccessContest<'a> {
    ghost use Rattle.vacm_core.specs.Orders.{access_order};

    type Row = AccessRow;

    ghost passes = { λ c. candidate c.ask.now c.group.now };

    ghost beats = { λ c. access_beats c.ask.now };

    ghost ranks = { λ c. access_order c.ask.now };

    fn passes(&self, row: &AccessRow) -> bool {
        row.group.is(self.group)
            && fits_context(row, &self.ask.context)
            && (row.model == self.ask.model || row.model == 0)
            && row.level.number() <= self.ask.level.number()
    }

    fn beats(&self, row: &AccessRow, other: &AccessRow) -> bool {
        let ask = self.ask;
        let model = (other.model == ask.model).cmp(&(row.model == ask.model));
        let whole = other
            .prefix
            .is(&ask.context)
            .cmp(&row.prefix.is(&ask.context));
        let longest = other
            .prefix
            .as_bytes()
            .len()
            .cmp(&row.prefix.as_bytes().len());
        let highest = other.level.number().cmp(&row.level.number());
        model.then(whole).then(longest).then(highest).is_lt()
    }
}

impl Keyed for AccessRow {
    ghost key = { access_key };

    fn key_number(&self) -> u32 {
        0
    }

    fn key_name(&self) -> &Name {
        &self.group
    }
}

/// The number of the access row that decides. Only the rows of the group are compared, by the
/// index of the rows.
pub fn deciding_access(
    rows: &[AccessRow],
    index: &[usize],
    ask: &Ask,
    group: &Name,
) -> Option<usize>
    requires index { IsIndex access_key rows.now index.now }
    requires differ { KeysDiffer same_access rows.now }
    ensures place { result ≡ deciding_access rows.now ask.now group.now }
    ensures within { ForSome result (λ n. n < length rows.now) }
{
    let numbers = with_key(rows, index, 0, group.as_bytes());
    best_among(&AccessContest { ask, group }, rows, numbers)
}

/// The view of an access row that is asked for.
pub fn view_of(row: &AccessRow, view: ViewType) -> &Name
    ensures { result.now ≡ view_of view row.now }
{
    match view {
        ViewType::Read => &row.read,
        ViewType::Write => &row.write,
    }
}
