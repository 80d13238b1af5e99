//! Laws of targets and of rule paths.
ghost use Rattle.std.specs.Prelude.{◌≡◌, ◌↔◌, true, Ok, List, None, ℕ};
ghost use Rattle.yp_base.specs.declared.path.Seg.{Seg};
ghost use Rattle.yp_base.specs.declared.rule_path.RuleSeg.{RuleSeg};
ghost use Rattle.yp_schema.specs.declared.schema.SchemaNode.{SchemaNode};
ghost use Rattle.yp_schema.specs.WellFormed.{IsSchema};
ghost use Rattle.yp_schema.specs.Datastore.{is_path_of};
ghost use Rattle.yp_schema.specs.RulePaths.{IsRulePathOf};
ghost use Rattle.yp_path.specs.Grammar.{RulePart, IsRuleText};
ghost use Rattle.yp_path.specs.RulePaths.{rule_path_in, rule_parts_in};
ghost use Rattle.yp_path.specs.TargetGrammar.{TargetPart, IsTargetText};
ghost use Rattle.yp_path.specs.Targets.{target_in, target_parts_in, target_text, has_texts};

use yp_value::text::read_text_fits;

/// The text of a path of a schema is read again as this path.
#[tactic(auto, using(crate::proofs::Back::target_again))]
pub fn written_target_is_read()
    ensures { (nodes : List SchemaNode) (path : List Seg) → IsSchema nodes → is_path_of nodes path ≡ true → has_texts path ≡ true
        → target_in nodes (target_text nodes path) ≡ Ok path }
{}

/// A text is read as a path exactly when it consists of the parts of a target, and these name the path.
pub fn target_has_parts()
    ensures { (nodes : List SchemaNode) (text : List ℕ) (path : List Seg) → IsSchema nodes
        → ((target_in nodes text ≡ Ok path) ↔ ((parts : List TargetPart) × (IsTargetText text parts × (target_parts_in nodes None parts ≡ Ok path)))) }
{}

/// The rule path that a text is read as is one of the schema.
pub fn a_read_rule_path_is_of_its_schema()
    ensures { (nodes : List SchemaNode) (text : List ℕ) (path : List RuleSeg) → rule_path_in nodes text ≡ Ok path → IsRulePathOf nodes path }
{
    read_text_fits();
}

/// A text is read as a rule path exactly when it consists of the parts of one, and these name the path.
pub fn rule_path_has_parts()
    ensures { (nodes : List SchemaNode) (text : List ℕ) (path : List RuleSeg) → IsSchema nodes
        → ((rule_path_in nodes text ≡ Ok path) ↔ ((parts : List RulePart) × (IsRuleText text parts × (rule_parts_in nodes None parts ≡ Ok path)))) }
{}
