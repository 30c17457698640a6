ghost use Rattle.script_run.specs.Laws.{RunKeepsMeaning};

/// A script keeps the name, the types and the meaning of every function of a verified module, and the module that it gives verifies.
pub fn run_keeps_meaning()
    ensures { RunKeepsMeaning }
{}
