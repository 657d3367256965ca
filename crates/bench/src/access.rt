//! Access: which row decides, among 10, 100 and 1,000 rows, and masks that are put.
use crate::print::print_turns;
use community_core::Policy;
use oid_core::Oid;
use policy_text::policy_in;
use std::alloc::{AllocError, Global};
use std::hint::black_box;
use std::io;
use std::io::{Error, ErrorKind, Write};
use std::time::Instant;
use vacm_core::{Ask, Level, Mask, Name, Vacm, Verdict, ViewType};

/// How often each is asked.
const TURNS: u32 = 100_000;

/// How many rows there are.
const ROWS: [u32; 3] = [10, 100, 1_000];

/// How many families have a mask put, of 1,000 rows.
const PUTS: u32 = 999;

/// The family of the view `last`, which is all of the bridge.
const LAST: &str =
    "[[family]]\nview = \"last\"\nsubtree = \"1.3.6.1.2.1.17\"\nmask = \"\"\nincluded = true\n";

/// The rows but for the families: `public` may read and write the view `last`, whose family is the
/// last row.
const HEAD: &str = "contexts = []
[[community]]
index = \"p\"
name = \"public\"
security = \"public\"
context = \"\"
[[group]]
model = 2
name = \"public\"
group = \"readers\"
[[access]]
group = \"readers\"
prefix = \"\"
model = 2
level = 1
exact = true
read = \"last\"
write = \"last\"
notify = \"\"
";

// The policy of a text.
fn policy_of(alloc: Global, text: &[u8]) -> io::Result<Policy> {
    match policy_in(alloc, text) {
        Ok(Some(policy)) => Ok(policy),
        _ => Err(Error::from(ErrorKind::InvalidData)),
    }
}

/// A policy of these rows of `[[family]]`, in TOML, where `public` may read and write the view `last`.
pub fn policy_of_families(alloc: Global, families: &str) -> io::Result<Policy> {
    let mut text = Vec::from_slice(alloc, HEAD.as_bytes())?;
    text.extend_from_slice(families.as_bytes())?;
    policy_of(alloc, &text)
}

// A row of `[[family]]`, in TOML, by which the view `bridge` includes a subtree.
fn family_text(alloc: Global, subtree: &str) -> Result<String, AllocError> {
    format!(in alloc;
        "[[family]]\nview = \"bridge\"\nsubtree = \"{subtree}\"\nmask = \"\"\nincluded = true\n"
    )
}

// A policy of so many families: those of the view `bridge`, siblings under one node, one a group of
// objects, and last the one of the view `last`, which is all of the bridge.
fn policy_with(alloc: Global, families: u32) -> io::Result<Policy> {
    let mut rows = String::new(alloc);
    for number in 1..families {
        let subtree = format!(in alloc; "1.3.6.1.2.1.17.{number}")?;
        rows.push_str(&family_text(alloc, &subtree)?)?;
    }
    rows.push_str(LAST)?;
    policy_of_families(alloc, &rows)
}

// A policy of so many access rows: one of the group `readers`, and those of other groups.
fn policy_with_access_rows(alloc: Global, rows: u32) -> io::Result<Policy> {
    let mut text = Vec::from_slice(alloc, HEAD.as_bytes())?;
    for number in 1..rows {
        writeln!(
            text,
            "[[access]]\ngroup = \"g{number}\"\nprefix = \"\"\nmodel = 2\nlevel = 1\nexact = true\nread = \"last\"\nwrite = \"last\"\nnotify = \"\""
        )?;
    }
    text.extend_from_slice(LAST.as_bytes())?;
    policy_of(alloc, &text)
}

fn name_of(text: &str) -> io::Result<Name> {
    Name::from_str(text).ok_or(Error::from(ErrorKind::InvalidData))
}

fn ask() -> io::Result<Ask> {
    Ok(Ask {
        model: 2,
        security: name_of("public")?,
        context: Name::empty(),
        level: Level::NoAuthNoPriv,
        view: ViewType::Read,
    })
}

fn measure_decide(rt: &HostRuntime, vacm: &Vacm) -> io::Result<()> {
    let mut ask = ask()?;
    let start = Instant::now(rt)?;
    let mut allowed = 0u32;
    for turn in 0..TURNS {
        ask.view = if turn % 2 == 0 {
            ViewType::Read
        } else {
            ViewType::Write
        };
        if matches!(vacm.decide(&ask), Verdict::Allowed(..)) {
            allowed = allowed.wrapping_add(1);
        }
    }
    print_turns(rt, "decide", TURNS, &start)?;
    println!(rt; "{allowed} allowed")
}

// The name of these numbers.
fn oid_of(alloc: Global, numbers: &[u32]) -> io::Result<Oid> {
    match Oid::from_slice(alloc, numbers) {
        Ok(name) => Ok(name),
        Err(_) => Err(Error::from(ErrorKind::OutOfMemory)),
    }
}

// Names of 12 numbers in eight groups of objects.
fn names(alloc: Global) -> io::Result<Vec<Oid>> {
    let mut names = Vec::new(alloc);
    for group in 1..9 {
        names.push(oid_of(alloc, &[1, 3, 6, 1, 2, 1, 17, group, 2, 0, 0, 1])?)?;
    }
    Ok(names)
}

// Asks for each of eight names in turn whether it is in the view `bridge`.
fn measure_in_view(rt: &HostRuntime, vacm: &Vacm, names: &[Oid]) -> io::Result<()> {
    let view = name_of("bridge")?;
    let start = Instant::now(rt)?;
    let mut included = 0u32;
    for turn in 0..TURNS {
        if let Some(name) = names.get((turn % 8) as usize) {
            if vacm.in_view(&view, name).is_included() {
                included = included.wrapping_add(1);
            }
        }
    }
    print_turns(rt, "in_view", TURNS, &start)?;
    println!(rt; "{included} in the view")
}

fn measure_families(rt: &HostRuntime, families: u32) -> io::Result<()> {
    let names = names(rt.alloc())?;
    println!(rt; "{families} family rows")?;
    let policy = policy_with(rt.alloc(), families)?;
    measure_decide(rt, policy.vacm())?;
    measure_in_view(rt, policy.vacm(), &names)
}

fn measure_access_rows(rt: &HostRuntime, rows: u32) -> io::Result<()> {
    println!(rt; "{rows} access rows")?;
    let policy = policy_with_access_rows(rt.alloc(), rows)?;
    measure_decide(rt, policy.vacm())
}

// Puts a mask of each family of the view `bridge`, which is found by its index.
fn measure_puts(rt: &HostRuntime, policy: &mut Policy, what: &str, mask: Mask) -> io::Result<()> {
    let start = Instant::now(rt)?;
    for number in 1..=PUTS {
        let index = [
            6, 98, 114, 105, 100, 103, 101, 8, 1, 3, 6, 1, 2, 1, 17, number,
        ];
        if let Some(row) = policy.vacm().family_at(&index) {
            black_box(policy.put_mask(row, mask));
        }
    }
    print_turns(rt, what, PUTS, &start)
}

// Opens a place of each mask, and closes it again.
fn measure_masks(rt: &HostRuntime) -> io::Result<()> {
    let mut policy = policy_with(rt.alloc(), 1_000)?;
    measure_puts(rt, &mut policy, "put_mask that opens", Mask::of(&[0xFE]))?;
    measure_puts(rt, &mut policy, "put_mask that closes", Mask::of(&[]))
}

/// Decides on a request, and on a name in a view, among more and more rows, and puts masks.
pub fn measure_access(rt: &HostRuntime) -> io::Result<()> {
    for rows in ROWS {
        measure_families(rt, rows)?;
        measure_access_rows(rt, rows)?;
    }
    measure_masks(rt)
}
