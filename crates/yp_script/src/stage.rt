//! The order of a script's lines.
ghost use Rattle.std.specs.Prelude.{◌≡◌};
ghost use Rattle.yp_command.specs.declared.fault.ScriptKind.TheVariants.{Order};
ghost use Rattle.yp_script.specs.Order.{next_stage, is_complete};

use crate::form::Form;
use yp_cause::cause::{Awaited, Cause, Wrong};
use yp_command::fault::{Flaw, ScriptKind};

/// How far a script has come.
#[derive(Debug, Clone, Copy, PartialEq, Eq, Drop)]
pub enum Stage {
    /// Before the start.
    Opening,
    /// After the start, before the first part of the schema.
    Started,
    /// After a part of the schema.
    Schemas,
    /// After a receiver.
    Receivers,
    /// After a command before the lanes.
    Before,
    /// In the lanes.
    Within,
    /// After the lanes.
    After,
}

/// The stage to which a line of a form leads, where it may stand at this one.
pub fn next_stage<V>(stage: Stage, form: &Form<V>) -> Option<Stage>
    ensures { result ≡ next_stage stage form.now }
{
    match (stage, form) {
        (Stage::Opening, Form::Start(_)) => Some(Stage::Started),
        (Stage::Started | Stage::Schemas, Form::Schema(_)) => Some(Stage::Schemas),
        (Stage::Schemas | Stage::Receivers, Form::Receiver(_)) => Some(Stage::Receivers),
        (Stage::Schemas | Stage::Receivers | Stage::Before, Form::Command(_)) => {
            Some(Stage::Before)
        }
        (Stage::Schemas | Stage::Receivers | Stage::Before, Form::Lanes(_)) => Some(Stage::Within),
        (Stage::Within, Form::Lane(_, _)) => Some(Stage::Within),
        (Stage::Within, Form::Join(_)) => Some(Stage::After),
        (Stage::After, Form::Command(_)) => Some(Stage::After),
        _ => None,
    }
}

/// Whether a script may end at a stage.
pub fn is_complete(stage: Stage) -> bool
    ensures { result ≡ is_complete stage }
{
    !matches!(stage, Stage::Opening | Stage::Started | Stage::Within)
}

/// Where a line of a form may stand.
fn place_of<V>(form: &Form<V>) -> &'static str {
    match form {
        Form::Start(_) => "`start` stands first, and once",
        Form::Schema(_) => "`schema` stands after the start and before all other lines",
        Form::Receiver(_) => "`receiver` stands after the schema and before the first command",
        Form::Command(_) => {
            "a command stands after the schema and the receivers, and in lanes it is the `do` of a `lane`"
        }
        Form::Lanes(_) => "`lanes` stands once, after the schema and the receivers",
        Form::Lane(_, _) => "`lane` and `do` stand between `lanes` and `join` alone",
        Form::Join(_) => "`join` stands once, after the lines of the lanes",
    }
}

/// The fault of a line of a form that may not stand at a stage.
pub fn misplaced<V>(stage: Stage, form: &Form<V>) -> Flaw
    ensures { result ≡ Order }
{
    let wrong = match (stage, form) {
        (Stage::Opening, _) => Wrong::Before(Awaited::Start),
        (Stage::Started, Form::Start(_)) => Wrong::Misplaced(place_of(form)),
        (Stage::Started, _) => Wrong::Before(Awaited::Schema),
        _ => Wrong::Misplaced(place_of(form)),
    };
    Flaw::of(ScriptKind::Order, Cause::of(wrong))
}

/// The fault of a script that ends at a stage at which it may not end.
pub fn unfinished(stage: Stage) -> Flaw
    ensures { result ≡ Order }
{
    let awaited = match stage {
        Stage::Opening => Awaited::Start,
        Stage::Started => Awaited::Schema,
        _ => Awaited::Join,
    };
    Flaw::of(ScriptKind::Order, Cause::of(Wrong::Ends(awaited)))
}
