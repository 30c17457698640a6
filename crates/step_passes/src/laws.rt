//! What one pass gives.

ghost use Rattle.step_passes.specs.Laws.{GeneralizeIsOnePass, InterchangeIsOnePass};

/// Generalizing operations of a verified module in turn gives what one pass over it gives.
pub fn generalize_is_one_pass()
    ensures { GeneralizeIsOnePass }
{}

/// Interchanging the dimensions of operations of a verified module in turn gives what one pass over it gives.
pub fn interchange_is_one_pass()
    ensures { InterchangeIsOnePass }
{}
