ghost use Rattle.printable_fusing.specs.Laws.{FusedPrintable};

/// A printable file whose module is verified is printable with what fusing the pairs of one function forms from its
/// module. There is nothing to run.
pub fn fused_files_are_printable()
    ensures { FusedPrintable }
{}
