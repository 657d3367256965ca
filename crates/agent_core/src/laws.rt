//! Laws of what a manager can see, over the definitions alone. Each stands on a function that does
//! nothing.
ghost use Rattle.std.specs.Prelude.{◌≡◌, ◌≢◌, ◌*◌, ◌≤◌, ℕ, suc, Bool, List, [], ◌∷◌, ◌++◌, length, All, IsTrue, Some};
ghost use Rattle.community_core.specs.Communities.{with_families};
ghost use Rattle.setting_keys.specs.declared.SettingKey.TheVariants.{FamilyMask, FamilyType};
ghost use Rattle.setphase_core.specs.declared.world.World.{World};
ghost use Rattle.setphase_core.specs.Objects.{ObjectState};
ghost use Rattle.setphase_core.specs.Registry.{rows_of};
ghost use Rattle.setphase_core.specs.Settings.{families_of, mask_at, type_at, with_marks_of};
ghost use Rattle.setphase_core.specs.Variables.{writings};
ghost use Rattle.message_core.specs.declared.binding.Binding.{Binding};
ghost use Rattle.message_core.specs.declared.request.Request.{Request};
ghost use Rattle.message_core.specs.declared.request.Kind.TheVariants.{Get, Set};
ghost use Rattle.vacm_core.specs.Families.{in_view};
ghost use Rattle.decision.specs.declared.keys.AccessKey.{AccessKey};
ghost use Rattle.decision.specs.declared.choice.Decision.TheVariants.{Allowed};
ghost use Rattle.decision.specs.Deciding.{decision_on};
ghost use Rattle.setphase_core.specs.Registry.{AreApart};
ghost use Rattle.oid_core.specs.Order.{is_prefix};
ghost use Rattle.message_core.specs.Instances.{IsRising, after};
ghost use Rattle.message_core.specs.declared.limits.TheConstants.{MAX_COMMUNITY, MAX_REPLY};
ghost use Rattle.agent_core.specs.Reading.{visible, object_of, end_under};
ghost use Rattle.agent_core.specs.Lookups.{most_lookups};
ghost use Rattle.agent_core.specs.Bulk.{repetitions, IsRepeated};
ghost use Rattle.agent_core.specs.Fitting.{fitting_front, least_binding, IsLongestFitting};
ghost use Rattle.agent_core.specs.Replies.{get_reply, next_reply, bulk_reply, walk, last_name};
ghost use Rattle.agent_core.specs.Answers.{Shown, AgreesOnAsked, reply_of, RequestNotes, step_of};

/// Only what is visible matters (RFC 3416, 4.2.1 to 4.2.3): where two worlds let the caller in and
/// show it the same instances, the replies to GetNext and to GetBulk are equal, and so is the reply
/// to Get where they have the same objects and the views also agree on whether each asked name is
/// in them.
///
/// In particular a hidden instance that exists is answered as one that does not.
pub fn same_visible()
    ensures get { (objects : List (List ℕ)) (first second : List ℕ →
        Bool) (rows others : List Binding) (request : Request) →
        visible first rows ≡ visible second others →
        All (λ asked. first asked.name ≡ second asked.name) request.bindings →
        get_reply objects first rows request ≡ get_reply objects second others request }
    ensures next { (first second : List ℕ → Bool) (rows others : List Binding) (request : Request) →
        visible first rows ≡ visible second others →
        next_reply first rows request ≡ next_reply second others request }
    ensures bulk { (first second : List ℕ → Bool) (rows others : List Binding) (request : Request) →
        visible first rows ≡ visible second others →
        bulk_reply first rows request ≡ bulk_reply second others request }
    ensures reply { (shown other : Shown) (request : Request) (row other_row : AccessKey)
        (view other_view : List ℕ) →
        decision_on shown.policy request ≡ Allowed row view →
        decision_on other.policy request ≡ Allowed other_row other_view →
        visible (in_view shown.policy.vacm.families view) shown.instances ≡ visible
        (in_view other.policy.vacm.families other_view) other.instances →
        request.kind ≢ Set →
        (request.kind ≡ Get → AgreesOnAsked shown other view other_view request) →
        reply_of shown request ≡ reply_of other request }
{}

/// A walk lists all (RFC 3416, 4.2.2): from any name, GetNext over and over lists the rest of what
/// the view shows, in order and each once, and then endOfMibView under the last name.
pub fn walk_lists_all()
    ensures { (shows : List ℕ → Bool) (rows : List Binding) (name : List ℕ) → IsRising rows →
        let rest = after name (visible shows rows) in
        walk (visible shows rows) (suc (length rest)) name ≡
        rest ++ end_under (last_name name rest) ∷ [] }
{}

/// Where no object's name begins another's, the object of a name is the one that begins it: there
/// is no other.
pub fn one_object()
    ensures { (objects : List (List ℕ)) (name : List ℕ) → AreApart objects →
        All (λ object. IsTrue (is_prefix object name) →
        object_of objects name ≡ Some object) objects }
{}

/// What GetBulk sends (RFC 3416, 4.2.3) is the longest front of its list that fits into a reply; a
/// community has at most `MAX_COMMUNITY` octets.
pub fn fitting_is_longest()
    ensures { (request : Request) (all : List Binding) → length request.community ≤ MAX_COMMUNITY →
        IsLongestFitting request all (fitting_front request all) }
{}

/// A GetBulk repeats (RFC 3416, 4.2.3): the binding of repetition r and column c is the r-th
/// successor of that column's name, each counted from 0. There are as many repetitions as are asked
/// for, or fewer where the last is all endOfMibView and none before it is.
pub fn repetitions_are_successors()
    ensures { (rows : List Binding) (names : List (List ℕ)) (most : ℕ) →
        (count : ℕ) × IsRepeated rows names most count (repetitions rows most names) }
{}

/// Where a view hides nothing, one lookup finds a successor.
pub fn one_lookup_where_all_is_seen()
    ensures { (shows : List ℕ → Bool) (rows : List Binding) →
        All (λ row. IsTrue (shows row.name)) rows →
        most_lookups shows rows ≡ 1 }
{}

/// Few bindings fit: each has `least_binding`, 6, octets or more.
pub fn few_fit()
    ensures { (request : Request) (all : List Binding) → length request.community ≤ MAX_COMMUNITY →
        least_binding * length (fitting_front request all) ≤ MAX_REPLY }
{}

/// Of requests a Set alone changes the policy, and of it the masks and types of view families that its
/// variables write (RFC 3415, vacmViewTreeFamilyTable). Whatever a request is, each family keeps its
/// view and its subtree, and none is made or removed.
pub fn policy_changes_by_sets_alone()
    ensures kept { (objects : List ObjectState) (world : World) (request : Request)
        (notes : RequestNotes) → let after = (step_of objects world request notes).world in
        after.policy ≡ with_families world.policy
        (with_marks_of (families_of after) (families_of world)) }
    ensures read { (objects : List ObjectState) (world : World) (request : Request)
        (notes : RequestNotes) → request.kind ≢ Set →
        (step_of objects world request notes).world.policy ≡ world.policy }
    ensures masks { (objects : List ObjectState) (world : World) (request : Request)
        (notes : RequestNotes) (n : ℕ) →
        All (λ written. written.assignment.key ≢ FamilyMask n)
        (writings (rows_of objects) world request.bindings) →
        mask_at (families_of (step_of objects world request notes).world) n
        ≡ mask_at (families_of world) n }
    ensures types { (objects : List ObjectState) (world : World) (request : Request)
        (notes : RequestNotes) (n : ℕ) →
        All (λ written. written.assignment.key ≢ FamilyType n)
        (writings (rows_of objects) world request.bindings) →
        type_at (families_of (step_of objects world request notes).world) n
        ≡ type_at (families_of world) n }
{}
