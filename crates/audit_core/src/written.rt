//! How a decision is written.
ghost use Rattle.std.specs.Prelude.{Some};
ghost use Rattle.audit_core.specs.Text.{access_text, cause_text, leave_text, named_view_text, refusal_text};

use decision::{AccessKey, Cause, Refusal};
use std::fmt;
use vacm_core::Name;

// The key of an access row, or what is asked of that table.
#[derive(Drop)]
struct WrittenKey<'a>(&'a AccessKey);

/// As `access(readers,,2,1)`: the group, the prefix, the model and the level's number.
impl fmt::Display for WrittenKey<'_> {
    ghost output = { λ key. Some (access_text key.0.now) };

    fn fmt<W: fmt::Write>(&self, f: &mut fmt::Formatter<W>) -> fmt::Result {
        let key = self.0;
        let group = key.group.as_str();
        let prefix = key.prefix.as_str();
        let model = key.model;
        let level = key.level.number();
        write!(f, "access({group},{prefix},{model},{level})")
    }
}

// A view that there is not, by its name or as having none.
#[derive(Drop)]
struct NamedView<'a>(&'a Name);

impl fmt::Display for NamedView<'_> {
    ghost output = { λ named. Some (named_view_text named.0.now) };

    fn fmt<W: fmt::Write>(&self, f: &mut fmt::Formatter<W>) -> fmt::Result {
        let view = self.0.as_str();
        if view.is_empty() {
            write!(f, "empty")
        } else {
            write!(f, "view {view}")
        }
    }
}

/// By which row a request is authorized, and for which view.
#[derive(Drop)]
pub struct WrittenLeave<'a> {
    /// The key of the access row.
    pub row: &'a AccessKey,
    /// The view that it names.
    pub view: &'a Name,
}

/// As `ok access(readers,,2,1) view bridge`.
impl fmt::Display for WrittenLeave<'_> {
    ghost output = { λ leave. Some (leave_text leave.row.now leave.view.now) };

    #[tactic(auto, unfolding(crate::specs::Text::leave_text))]
    fn fmt<W: fmt::Write>(&self, f: &mut fmt::Formatter<W>) -> fmt::Result {
        let row = WrittenKey(self.row);
        let view = self.view.as_str();
        write!(f, "ok {row} view {view}")
    }
}

/// Why a request is dropped.
#[derive(Drop)]
pub struct WrittenCause<'a>(pub &'a Cause);

/// As `unknownCommunity` or `noSuchContext lab`.
impl fmt::Display for WrittenCause<'_> {
    ghost output = { λ cause. Some (cause_text cause.0.now) };

    fn fmt<W: fmt::Write>(&self, f: &mut fmt::Formatter<W>) -> fmt::Result {
        match self.0 {
            Cause::UnknownCommunity => write!(f, "unknownCommunity"),
            Cause::NoSuchContext(name) => {
                let name = name.as_str();
                write!(f, "noSuchContext {name}")
            }
        }
    }
}

/// Why a request is refused.
#[derive(Drop)]
pub struct WrittenRefusal<'a>(pub &'a Refusal);

/// As `noGroupName group(2,lost)` or `noSuchView access(readers,,2,1) empty`.
impl fmt::Display for WrittenRefusal<'_> {
    ghost output = { λ why. Some (refusal_text why.0.now) };

    fn fmt<W: fmt::Write>(&self, f: &mut fmt::Formatter<W>) -> fmt::Result {
        match self.0 {
            Refusal::NoGroupName { model, name } => {
                let name = name.as_str();
                write!(f, "noGroupName group({model},{name})")
            }
            Refusal::NoAccessEntry(asked) => {
                let asked = WrittenKey(asked);
                write!(f, "noAccessEntry {asked}")
            }
            Refusal::NoSuchView { row, view } => {
                let row = WrittenKey(row);
                let view = NamedView(view);
                write!(f, "noSuchView {row} {view}")
            }
        }
    }
}
