//! Policies of 100,000 rows in each table, in orders that a table may be written in: they are taken, and
//! asked.
use community_core::{Policy, WrittenCommunity};
use oid_core::Oid;
use std::alloc::Global;
use std::test::Fail;
use vacm_core::{
    Ask, FamilyAnswer, Level, Name, Octets, Rows, Text, Vacm, VacmRows, Verdict, ViewType,
    WrittenAccess, WrittenFamily, WrittenGroup,
};

/// How many rows each table has.
const ROWS: u32 = 100_000;

/// An order in which the rows of a table are written.
#[derive(Clone, Copy, Debug)]
enum Order {
    /// By rising numbers.
    Rising,
    /// By falling numbers.
    Falling,
    /// Rising by 48,271, modulo their count.
    Mixed,
    /// So that what takes the middle row first, and then each half so, takes them by rising
    /// numbers.
    MiddleFirst,
}

/// All of them.
const ORDERS: [Order; 4] = [
    Order::Rising,
    Order::Falling,
    Order::Mixed,
    Order::MiddleFirst,
];

// How many rows are taken before the one at a place, where the middle one is taken first and then
// each half so.
fn taken_before(place: u32) -> u32 {
    let (mut from, mut to, mut before) = (0_u32, ROWS, 0_u32);
    for _ in 0..u32::BITS {
        let middle = u32::midpoint(from, to);
        if place == middle {
            return before;
        }
        before = before.saturating_add(1);
        if place < middle {
            to = middle;
        } else {
            before = before.saturating_add(middle.saturating_sub(from));
            from = middle.saturating_add(1);
        }
    }
    before
}

impl Order {
    // The number of the row at a place.
    fn number(self, place: u32) -> u32 {
        match self {
            Order::Rising => place,
            Order::Falling => (ROWS - 1).saturating_sub(place),
            Order::Mixed => (u64::from(place) * 48_271 % u64::from(ROWS)) as u32,
            Order::MiddleFirst => taken_before(place),
        }
    }
}

// A text that is a letter and a number, of as many octets for each number.
fn text(alloc: Global, letter: &str, number: u32) -> Result<Text, Fail> {
    let number = u64::from(ROWS) + u64::from(number);
    let text = format!(in alloc; "{letter}{number}")?;
    Ok(Text::new(alloc, text.as_str())?)
}

// A row of a table as it is written, by its number.
trait Numbered: Sized + Drop {
    fn of(alloc: Global, number: u32) -> Result<Self, Fail>;
}

impl Numbered for WrittenGroup {
    fn of(alloc: Global, number: u32) -> Result<WrittenGroup, Fail> {
        Ok(WrittenGroup {
            model: 2,
            name: text(alloc, "s", number)?,
            group: text(alloc, "g", number)?,
        })
    }
}

impl Numbered for WrittenAccess {
    fn of(alloc: Global, number: u32) -> Result<WrittenAccess, Fail> {
        Ok(WrittenAccess {
            group: text(alloc, "g", number)?,
            prefix: Text::new(alloc, "")?,
            model: 0,
            level: 1,
            exact: true,
            read: text(alloc, "v", number)?,
            write: Text::new(alloc, "all")?,
            notify: Text::new(alloc, "")?,
        })
    }
}

impl Numbered for WrittenFamily {
    fn of(alloc: Global, number: u32) -> Result<WrittenFamily, Fail> {
        Ok(WrittenFamily {
            view: Text::new(alloc, "all")?,
            subtree: Oid::from_slice(alloc, &[1, 3, 6, number])?,
            mask: Octets::new(Vec::new(alloc)),
            included: number % 2 == 0,
        })
    }
}

impl Numbered for WrittenCommunity {
    fn of(alloc: Global, number: u32) -> Result<WrittenCommunity, Fail> {
        Ok(WrittenCommunity {
            index: text(alloc, "i", number)?,
            name: text(alloc, "n", number)?,
            security: text(alloc, "s", number)?,
            context: Text::new(alloc, "")?,
        })
    }
}

// The rows of a table.
fn many<R: Numbered>(alloc: Global, order: Order) -> Result<Rows<R>, Fail> {
    let mut rows = Vec::new(alloc);
    for place in 0..ROWS {
        rows.push(R::of(alloc, order.number(place))?)?;
    }
    Ok(Rows::new(rows))
}

fn no_rows<R>(alloc: Global) -> Rows<R> {
    Rows::new(Vec::new(alloc))
}

// A policy of as many rows in each table.
fn policy(alloc: Global, order: Order) -> Result<Policy, Fail> {
    let rows = VacmRows {
        groups: many(alloc, order)?,
        access: many(alloc, order)?,
        families: many(alloc, order)?,
        contexts: no_rows(alloc),
    };
    let communities = many(alloc, order)?;
    Ok(Policy::new(alloc, communities, Vacm::new(alloc, rows)?)?)
}

// The access row by which the caller of the community of this number may write all.
fn access_row(alloc: Global, policy: &Policy, number: u32) -> Result<Option<usize>, Fail> {
    let community = text(alloc, "n", number)?;
    let Some(caller) = policy.caller(community.as_str().as_bytes()) else {
        return Ok(None);
    };
    let ask = Ask {
        model: 2,
        security: caller.security,
        context: caller.context,
        level: Level::NoAuthNoPriv,
        view: ViewType::Write,
    };
    match policy.vacm().decide(&ask) {
        Verdict::Allowed(row, _) => Ok(Some(row)),
        _ => Ok(None),
    }
}

// What decides on an instance of the subtree of this number.
fn family_answer(alloc: Global, policy: &Policy, number: u32) -> Result<FamilyAnswer, Fail> {
    let view = Name::from_str("all").ok_or("a name")?;
    let name = Oid::from_slice(alloc, &[1, 3, 6, number, 0])?;
    Ok(policy.vacm().in_view(&view, &name))
}

// Whether the rows at a place decide on what bears their number.
fn rows_decide(alloc: Global, policy: &Policy, order: Order, place: u32) -> Result<bool, Fail> {
    let number = order.number(place);
    let row = place as usize;
    let answer = if number % 2 == 0 {
        FamilyAnswer::Included(row)
    } else {
        FamilyAnswer::Excluded(row)
    };
    let decides = access_row(alloc, policy, number)? == Some(row);
    Ok(decides && family_answer(alloc, policy, number)? == answer)
}

// Rows are taken in any order, and asked by what they bear.
#[test]
fn many_rows_are_taken_and_asked(rt: HostRuntime) -> Result<(), Fail> {
    for order in ORDERS {
        let policy = policy(rt.alloc(), order)?;
        for place in [0, 12_345, 49_999, 50_000, 99_999] {
            let decides = rows_decide(rt.alloc(), &policy, order, place)?;
            assert!(rt; decides, "{order:?}: {place}");
        }
    }
    Ok(())
}
