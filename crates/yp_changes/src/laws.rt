//! Facts about records, for the crates above. The call does nothing.
ghost use Rattle.yp_changes.specs.WindowLaws.{OneStepIsAStep};

/// The record of a window of one step, where no kind of edits is excluded, is the record of the step.
#[tactic(auto, using(crate::specs::WindowLaws::one_step))]
pub fn a_window_of_one_step_has_the_record_of_the_step()
    ensures { OneStepIsAStep }
{}
