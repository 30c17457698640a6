ghost use Rattle.renumbered_meaning.specs.Laws.{RenumberedMeans};

/// The functions of a printable file whose module verifies, under the numbers of the file's text, mean the same. There is nothing to
/// run.
pub fn renumbering_keeps_meaning()
    ensures { RenumberedMeans }
{}
