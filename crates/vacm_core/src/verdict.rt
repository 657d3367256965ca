//! What is asked of the tables, and what they answer.
ghost use Rattle.std.specs.Prelude.{◌≡◌};
ghost use Rattle.vacm_core.specs.Families.{is_included};

use crate::name::Name;
use crate::tables::Level;

/// Which of an access row's views is asked for (viewType of RFC 3415, section 3.2).
#[derive(Clone, Copy, Debug, PartialEq, Eq)]
pub enum ViewType {
    /// To read.
    Read,
    /// To write.
    Write,
}

/// Who asks for what.
#[derive(Drop)]
pub struct Ask {
    /// The security model; 2 is SNMPv2c.
    pub model: u32,
    /// The security name.
    pub security: Name,
    /// The context name.
    pub context: Name,
    /// The security level of the request.
    pub level: Level,
    /// The view that is asked for.
    pub view: ViewType,
}

/// The decision on a request, up to its names (RFC 3415, section 3.2). Rows go by their number.
#[derive(Drop)]
pub enum Verdict {
    /// Allowed by this access row, in this view.
    Allowed(usize, Name),
    /// This context is not known.
    NoSuchContext(Name),
    /// No group row has this model and security name.
    NoGroupName(u32, Name),
    /// No access row fits this group, context, model and level.
    NoAccessEntry(Name, Name, u32, Level),
    /// This access row names this view, which is empty or of no family.
    NoSuchView(usize, Name),
}

/// The decision on a name in a view. Rows go by their number.
#[derive(Clone, Copy, Debug, PartialEq, Eq)]
pub enum FamilyAnswer {
    /// In the view by this family row.
    Included(usize),
    /// Not in the view by this family row.
    Excluded(usize),
    /// Not in the view, since no family row of it matches.
    NoRow,
}

impl FamilyAnswer {
    /// Whether the name is in the view.
    pub fn is_included(self) -> bool
        ensures { result ≡ is_included self }
    {
        matches!(self, FamilyAnswer::Included(_))
    }
}

/// The decision on a name in a view, and the front of the name under which it is the same. A front is
/// the first numbers of a name, and goes by how many they are.
#[derive(Clone, Copy, Debug, PartialEq, Eq)]
pub struct FrontAnswer {
    /// The decision on the name.
    pub answer: FamilyAnswer,
    /// The shortest front such that the decision is the same, by the same row, on every name that
    /// begins with it. There is none where some name that begins with the whole name gets another.
    pub front: Option<usize>,
}
