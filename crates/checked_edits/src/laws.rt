ghost use Rattle.checked_edits.specs.Replacing.{LimitsAreTheLastRule};

/// A module is verified exactly where it keeps the rules that `replace` asks of what it forms, and passes no limit on types
/// or dimensions.
pub fn limits_are_the_last_rule()
    ensures { LimitsAreTheLastRule }
{}
