ghost use Rattle.printable_steps.specs.Laws.{ReadPrintable, RenumberedVerifies, GeneralizedPrintable, InterchangedPrintable};

/// What a text stands for is printable; and where the module of a printable file is verified, so is what its canonical text
/// stands for. There is nothing to run.
pub fn texts_keep_files()
    ensures read { ReadPrintable }
    ensures written { RenumberedVerifies }
{}

/// A printable file whose module is verified is printable with what generalizing or interchanging forms from its module.
pub fn formed_files_are_printable()
    ensures generalized { GeneralizedPrintable }
    ensures interchanged { InterchangedPrintable }
{}
