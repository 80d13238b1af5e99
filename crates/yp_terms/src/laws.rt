//! Laws of terms, which the definitions keep; nothing runs.
ghost use Rattle.std.specs.Prelude.{◌≡◌, ℕ, Option};
ghost use Rattle.yp_base.specs.declared.notice.Trigger.{Trigger};
ghost use Rattle.yp_terms.specs.Amends.{amended_trigger};
ghost use Rattle.yp_terms.specs.Terms.{has_period};

/// A trigger stays periodic or on change, whatever is given.
pub fn an_amendment_leaves_the_kind_of_a_trigger()
    ensures { (now : ℕ) (given : Option Trigger) (kept : Trigger) → has_period (amended_trigger now given kept) ≡ has_period kept }
{}
