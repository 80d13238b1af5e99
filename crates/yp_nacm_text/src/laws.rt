//! Laws of policies, which the definitions keep; nothing runs.
ghost use Rattle.std.specs.Prelude.{◌≡◌, List, Ok};
ghost use Rattle.serde_json.specs.Data.{Data};
ghost use Rattle.yp_schema.specs.declared.schema.SchemaNode.{SchemaNode};
ghost use Rattle.yp_nacm.specs.declared.policy.Policy.{Policy};
ghost use Rattle.yp_nacm.specs.Policies.{IsPolicyOf};
ghost use Rattle.yp_nacm_text.specs.Policies.{policy_in};

use yp_path::laws::a_read_rule_path_is_of_its_schema;

/// The paths of the policy that JSON is are paths of the schema.
pub fn a_read_policy_is_of_its_schema()
    ensures { (nodes : List SchemaNode) (json : Data) (policy : Policy) → policy_in nodes json ≡ Ok policy → IsPolicyOf nodes policy }
{
    a_read_rule_path_is_of_its_schema();
}
