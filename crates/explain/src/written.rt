//! How a decision is written.
ghost use Rattle.std.specs.Prelude.{Some};
ghost use Rattle.audit_core.specs.Text.{access_text, cause_text, deciding_text, named_view_text, refusal_text};
ghost use Rattle.explain.specs.Explaining.{allowed_text, verdict_text, line_text};

use audit_core::FamilyKey;
use decision::{AccessKey, Cause, Decision, Refusal};
use oid_core::Oid;
use std::fmt;
use vacm_core::Name;

// The key of an access row, or what is asked of that table.
#[derive(Drop)]
struct WrittenKey<'a>(&'a AccessKey);

/// As `access(readers,,2,1)`: the group, the prefix, the model and the level's number.
impl fmt::Display for WrittenKey<'_> {
    ghost output = { λ key. Some (access_text key.0.now) };

    fn fmt<W: fmt::Write>(&self, f: &mut fmt::Formatter<W>) -> fmt::Result {
        let key = self.0;
        let group = key.group.as_str();
        let prefix = key.prefix.as_str();
        let model = key.model;
        let level = key.level.number();
        write!(f, "access({group},{prefix},{model},{level})")
    }
}

// A view that there is not, by its name or as having none.
#[derive(Drop)]
struct NamedView<'a>(&'a Name);

impl fmt::Display for NamedView<'_> {
    ghost output = { λ named. Some (named_view_text named.0.now) };

    fn fmt<W: fmt::Write>(&self, f: &mut fmt::Formatter<W>) -> fmt::Result {
        let view = self.0.as_str();
        if view.is_empty() {
            write!(f, "empty")
        } else {
            write!(f, "view {view}")
        }
    }
}

// Why a request is dropped.
#[derive(Drop)]
struct WrittenCause<'a>(&'a Cause);

/// As `unknownCommunity` or `noSuchContext lab`.
impl fmt::Display for WrittenCause<'_> {
    ghost output = { λ cause. Some (cause_text cause.0.now) };

    fn fmt<W: fmt::Write>(&self, f: &mut fmt::Formatter<W>) -> fmt::Result {
        match self.0 {
            Cause::UnknownCommunity => write!(f, "unknownCommunity"),
            Cause::NoSuchContext(name) => {
                let name = name.as_str();
                write!(f, "noSuchContext {name}")
            }
        }
    }
}

// Why a request is refused.
#[derive(Drop)]
struct WrittenRefusal<'a>(&'a Refusal);

/// As `noGroupName group(2,lost)` or `noSuchView access(readers,,2,1) empty`.
impl fmt::Display for WrittenRefusal<'_> {
    ghost output = { λ why. Some (refusal_text why.0.now) };

    fn fmt<W: fmt::Write>(&self, f: &mut fmt::Formatter<W>) -> fmt::Result {
        match self.0 {
            Refusal::NoGroupName { model, name } => {
                let name = name.as_str();
                write!(f, "noGroupName group({model},{name})")
            }
            Refusal::NoAccessEntry(asked) => {
                let asked = WrittenKey(asked);
                write!(f, "noAccessEntry {asked}")
            }
            Refusal::NoSuchView { row, view } => {
                let row = WrittenKey(row);
                let view = NamedView(view);
                write!(f, "noSuchView {row} {view}")
            }
        }
    }
}

// By which row a request is allowed, and in which view.
#[derive(Drop)]
struct WrittenLeave<'a> {
    // The key of the access row.
    row: &'a AccessKey,
    // The view that it names.
    view: &'a Name,
}

/// As `ok access(readers,,2,1) view bridge`.
impl fmt::Display for WrittenLeave<'_> {
    ghost output = { λ leave. Some (allowed_text leave.row.now leave.view.now) };

    #[tactic(auto, unfolding(crate::specs::Explaining::allowed_text))]
    fn fmt<W: fmt::Write>(&self, f: &mut fmt::Formatter<W>) -> fmt::Result {
        let row = WrittenKey(self.row);
        let view = self.view.as_str();
        write!(f, "ok {row} view {view}")
    }
}

/// A decision in the words of an audit.
#[derive(Drop)]
pub(crate) struct WrittenDecision<'a>(pub(crate) &'a Decision);

/// As `drop unknownCommunity`, `noSuchView access(readers,,2,1) empty` or
/// `ok access(readers,,2,1) view bridge`.
impl fmt::Display for WrittenDecision<'_> {
    ghost output = { λ decision. Some (verdict_text decision.0.now) };

    fn fmt<W: fmt::Write>(&self, f: &mut fmt::Formatter<W>) -> fmt::Result {
        match self.0 {
            Decision::Drop(cause) => {
                let cause = WrittenCause(cause);
                write!(f, "drop {cause}")
            }
            Decision::Empty => write!(f, "empty"),
            Decision::Refused(why) => {
                let why = WrittenRefusal(why);
                write!(f, "{why}")
            }
            Decision::Allowed { row, view } => {
                let leave = WrittenLeave { row, view };
                write!(f, "{leave}")
            }
        }
    }
}

// The key of the family that decides, if one does.
#[derive(Drop)]
struct WrittenFamily<'a>(&'a Option<FamilyKey>);

/// As `family(bridge,1.3.6.1.2.1.17)` or `none`.
impl fmt::Display for WrittenFamily<'_> {
    ghost output = { λ family. Some (deciding_text family.0.now) };

    fn fmt<W: fmt::Write>(&self, f: &mut fmt::Formatter<W>) -> fmt::Result {
        match self.0 {
            Some(family) => write!(f, "{family}"),
            None => write!(f, "none"),
        }
    }
}

/// Whether a name is in a view, and by which family.
#[derive(Drop)]
pub(crate) struct WrittenLine<'n, 'v, 'f> {
    /// The name.
    pub(crate) name: &'n Oid,
    /// `in` or `out`.
    pub(crate) standing: &'static str,
    /// The view.
    pub(crate) view: &'v Name,
    /// The key of the family that decides, if one does.
    pub(crate) family: &'f Option<FamilyKey>,
}

/// As `1.3.6.1.2.1.17 in of view bridge by family(bridge,1.3.6.1.2.1.17)`, or
/// `1.3.6.1 out of view bridge by none`.
impl fmt::Display for WrittenLine<'_, '_, '_> {
    ghost output = { λ line. Some (line_text line.name.now line.standing.now line.view.now
        line.family.now) };

    fn fmt<W: fmt::Write>(&self, f: &mut fmt::Formatter<W>) -> fmt::Result {
        let name = self.name;
        let standing = self.standing;
        let view = self.view.as_str();
        let family = WrittenFamily(self.family);
        write!(f, "{name} {standing} of view {view} by {family}")
    }
}
