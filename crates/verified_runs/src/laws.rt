ghost use Rattle.verified_runs.specs.Laws.{VerifiedPasses, ComesTyped, PlacePasses, EndsTyped};
ghost use Rattle.verified_runs.specs.Laws.{ComesSafe};
ghost use Rattle.verified_runs.specs.Laws.{ComesKept, AroundIsBelow, LaterAreOther, RenamedAfter};
ghost use Rattle.verified_runs.specs.Laws.{NamedMeansGeneric, GenericPasses};
ghost use Rattle.verified_runs.specs.Laws.{StepKeepsMeaning, ModuleKeepsMeaning, FormedPasses};

/// In a verified module, run on inputs of their parameters' types, functions come to each place with each
/// value in scope of its type, and end in tensors of their result types or the division trap. There is
/// nothing to run.
pub fn verified_functions_are_typed()
    ensures passes { VerifiedPasses }
    ensures place { PlacePasses }
    ensures states { ComesTyped }
    ensures answers { EndsTyped }
{}

/// At each place that a run on inputs of its types reaches, what the operation there asks holds: a verified
/// function reads nothing outside its operands.
pub fn verified_functions_read_inside()
    ensures { ComesSafe }
{}

/// What nothing before or around a place defines holds there what it held before. What stands around a
/// place of a verified function reads only numbers of the function, and what is defined after it has others.
pub fn places_keep_other_values()
    ensures kept { ComesKept }
    ensures alone { AroundIsBelow }
    ensures other { LaterAreOther }
    ensures renamed { RenamedAfter }
{}

/// A structured operation that passes means, in each typed state, the generic that it is by the types in
/// scope; and that generic passes.
pub fn named_operations_are_generics()
    ensures meaning { NamedMeansGeneric }
    ensures passes { GenericPasses }
{}

/// A step that has its target's effect in each typed state keeps the meaning of every function; and
/// where its new operations pass the verifier, so does the whole function.
pub fn steps_keep_meaning()
    ensures function { StepKeepsMeaning }
    ensures module { ModuleKeepsMeaning }
    ensures passes { FormedPasses }
{}
