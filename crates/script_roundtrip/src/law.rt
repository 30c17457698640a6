ghost use Rattle.std.specs.Prelude.{◌≡◌, ℕ, List};
ghost use Rattle.text_format.specs.declared.span.Span.{Span};
ghost use Rattle.script_read.specs.declared.script.Script.{Script};
ghost use Rattle.script_read.specs.Reading.{StandsFor};
ghost use Rattle.script_text.specs.Canonical.{text_of};
ghost use Rattle.script_roundtrip.specs.Printable.{IsPrintable, IsTextOf};
ghost use Rattle.script_roundtrip.specs.Renumbered.{renumbered};

/// The law of reading and printing scripts. There is nothing to run.
pub fn canonical_text_reads_back()
    // The canonical text of a printable script stands for the script with the numbers of the text.
    ensures printable { (s : Script) → IsPrintable s → IsTextOf (text_of s) (renumbered s) }
    // The canonical text of a script that the tokens of a text stand for stands for that script.
    ensures read { (source : List ℕ) (ts : List Span) (first : ℕ) (s : Script) (next : ℕ) → StandsFor source ts first s next → IsTextOf (text_of s) s }
    // Tokens stand for one script at most.
    ensures one { (source : List ℕ) (ts : List Span) (first : ℕ) (a b : Script) (m n : ℕ) → StandsFor source ts first a m → StandsFor source ts first b n → a ≡ b }
{}
