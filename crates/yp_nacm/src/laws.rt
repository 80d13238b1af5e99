//! Facts about users' own rules, for the crates above. Each call does nothing.
ghost use Rattle.std.specs.Prelude.{◌≡◌, List, true};
ghost use Rattle.yp_base.specs.declared.path.Seg.{Seg};
ghost use Rattle.yp_schema.specs.declared.schema.SchemaNode.{SchemaNode};
ghost use Rattle.yp_nacm.specs.declared.compile.UserRules.{UserRules};
ghost use Rattle.yp_nacm.specs.Decision.{is_readable};
ghost use Rattle.yp_nacm.specs.Same.{are_same_rules};

/// Rules that are found the same are one, so by them the same paths may be read.
#[tactic(auto, using(crate::specs::SameLaws::same_are_one, crate::specs::SameLaws::same_itself, crate::specs::SameLaws::same_readable))]
pub fn same_rules_are_one()
    ensures one { (a b : UserRules) → are_same_rules a b ≡ true → a ≡ b }
    ensures itself { (a : UserRules) → are_same_rules a a ≡ true }
    ensures readable { (a b : UserRules) → are_same_rules a b ≡ true → (nodes : List SchemaNode) (path : List Seg)
        → is_readable nodes a path ≡ is_readable nodes b path }
{}
