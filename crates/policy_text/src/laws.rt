//! Laws of the texts of policies. Each holds of all tables, and its function does nothing.
ghost use Rattle.std.specs.Prelude.{◌≡◌, ◌↔◌, Some};
ghost use Rattle.toml.specs.Data.{Members};
ghost use Rattle.community_core.specs.Communities.{PolicyTables};
ghost use Rattle.policy_text.specs.Policies.{IsPolicy};
ghost use Rattle.policy_text.specs.Stated.{policy_of_members};

/// The policy of a table is a function of it: `policy_of_members` gives the policy exactly of the
/// tables that say one of which nothing is wrong.
pub fn policy_is_stated()
    ensures { (ms : Members) (policy : PolicyTables) →
        (policy_of_members ms ≡ Some policy) ↔ IsPolicy ms policy }
{}
