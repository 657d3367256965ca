//! A law of the text. Its function does nothing.
ghost use Rattle.std.specs.Prelude.{◌≡◌, ℕ, List};
ghost use Rattle.decision.specs.declared.keys.AccessKey.{AccessKey};
ghost use Rattle.audit_core.specs.Text.{leave_text};
ghost use Rattle.explain.specs.Explaining.{allowed_text};

/// A request that is allowed is explained as its audit says it.
pub fn allowed_as_audited()
    ensures { (row : AccessKey) (view : List ℕ) → allowed_text row view ≡ leave_text row view }
{}
