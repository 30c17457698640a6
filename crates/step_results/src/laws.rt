ghost use Rattle.step_results.specs.Laws.{VerifiedByFunctions, EditsVerify, GeneralizedVerifies, InterchangedVerifies};

/// A module is verified exactly where each of its functions passes, no number repeats, and the limits are kept. There is
/// nothing to run.
pub fn verified_by_functions()
    ensures { VerifiedByFunctions }
{}

/// Once for all steps: where what a step puts in its target's place passes, under fresh numbers and within the limits, the
/// module that it forms verifies.
pub fn edits_verify()
    ensures { EditsVerify }
{}

/// What generalizing and interchanging form from a verified module verifies, whether a rule of the step is broken or not.
pub fn formed_modules_verify()
    ensures generalized { GeneralizedVerifies }
    ensures interchanged { InterchangedVerifies }
{}
