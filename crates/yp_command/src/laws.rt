//! Laws of commands, which the definitions keep; nothing runs.
ghost use Rattle.yp_command.specs.Commands.{CommandsMayCome};

use yp_nacm_text::laws::a_read_policy_is_of_its_schema;

/// A command of a schema and of receivers that is within its bounds may come in a journal of them.
pub fn a_read_command_may_come()
    ensures { CommandsMayCome }
{
    // The paths of a policy are of the schema by which it is read.
    a_read_policy_is_of_its_schema();
}
