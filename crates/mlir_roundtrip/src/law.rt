ghost use Rattle.std.specs.Prelude.{◌≡◌, ℕ, List, [], ◌∷◌, ◌++◌, None, Ok};
ghost use Rattle.affine_maps.specs.Shape.{MapShape};
ghost use Rattle.affine_maps.specs.Map.{IsMap};
ghost use Rattle.affine_text.specs.Text.{text_of_map};
ghost use Rattle.mlir_ir.specs.Shape.{FuncShape};
ghost use Rattle.mlir_read.specs.declared.files.FileScope.{FileScope};
ghost use Rattle.mlir_file.specs.declared.file.File.{File};
ghost use Rattle.mlir_scope.specs.Maps.{aliased, map_of};
ghost use Rattle.mlir_read.specs.Reading.{StandsFor};
ghost use Rattle.mlir_read.specs.Resolve.{alias_of};
ghost use Rattle.mlir_print.specs.Canonical.{text_of};
ghost use Rattle.mlir_print.specs.Maps.{alias_text, alias_line_at, use_at, with_funcs};
ghost use Rattle.mlir_roundtrip.specs.Numbered.{renumbered};
ghost use Rattle.mlir_roundtrip.specs.Maps.{ArePrintableMaps, HasAlias, FuncsHaveAliases, row, rows, with_aliases};
ghost use Rattle.mlir_roundtrip.specs.Printable.{IsPrintable};

/// The law of reading and printing. There is nothing to run.
pub fn canonical_text_reads_back()
    // The canonical text of what a text stands for stands for it.
    ensures read { (source : List ℕ) (f : File) → StandsFor source f → StandsFor (text_of f) f }
    // The canonical text of a printable file stands for the file with the numbers of the text.
    ensures printable { (f : File) → IsPrintable f → StandsFor (text_of f) (renumbered f) }
    // A text stands for one file at most.
    ensures one { (source : List ℕ) (f : File) (g : File) → StandsFor source f → StandsFor source g → f ≡ g }
{}

/// The maps of a canonical text and their aliases. There is nothing to run.
pub fn aliases_read_back()
    // Maps of one text are one, so that distinct maps have aliases of their own.
    ensures distinct { (m : MapShape) (o : MapShape) → IsMap m → IsMap o → text_of_map m ≡ text_of_map o → m ≡ o }
    // Each map that functions use has an alias.
    ensures aliased { (fs : List FuncShape) → FuncsHaveAliases (with_funcs [] fs) fs }
    // The line of an alias defines it, wherever the line begins.
    ensures defined { (s : FileScope) (n : ℕ) (m : MapShape) (at : ℕ) → aliased s.aliases (alias_text n) ≡ None → IsMap m → alias_of s ((alias_line_at n m).tree at) ≡ Ok (with_aliases s (s.aliases ++ row n m ∷ [])) }
    // Behind the lines of aliases, a use of a map stands for that map.
    ensures used { (al : List MapShape) (m : MapShape) (at : ℕ) → HasAlias al m → ArePrintableMaps al → IsMap m → map_of (rows 0 al) ((use_at al m).tree at) ≡ Ok m }
{}
