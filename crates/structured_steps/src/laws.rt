ghost use Rattle.structured_steps.specs.Laws.{GeneralizeKeepsMeaning, InterchangeKeepsMeaning, RulesDecide};

/// Generalizing keeps the meaning of every function of a verified module.
pub fn generalize_keeps_meaning()
    ensures { GeneralizeKeepsMeaning }
{}

/// Interchanging dimensions keeps the meaning of every function of a verified module.
pub fn interchange_keeps_meaning()
    ensures meaning { InterchangeKeepsMeaning }
    ensures rules { RulesDecide }
{}
