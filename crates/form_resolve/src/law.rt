ghost use Rattle.std.specs.Prelude.{◌≡◌, ℕ, true, List, Ok, Err, Some};
ghost use Rattle.text_format.specs.declared.class.Class.{Class};
ghost use Rattle.text_format.specs.Formats.{State};
ghost use Rattle.form_table.specs.declared.part.Part.{Part};
ghost use Rattle.form_table.specs.declared.field.Field.{Field};
ghost use Rattle.form_table.specs.declared.want.Opcode.{Opcode};
ghost use Rattle.form_table.specs.declared.want.Want.{Want};
ghost use Rattle.form_table.specs.Form.{tail, form};
ghost use Rattle.form_table.specs.Parts.{formats};
ghost use Rattle.form_table.specs.Writing.{written};
ghost use Rattle.form_laws.specs.Fields.{fields_of};
ghost use Rattle.form_laws.specs.Fits.{Fits};
ghost use Rattle.form_laws.specs.Rows.{row_w, IsRow};
ghost use Rattle.form_resolve.specs.declared.value.Value.{Value};
ghost use Rattle.form_resolve.specs.Forms.{AreParts, all_mean};
ghost use Rattle.form_resolve.specs.Resolving.{nothing_seen, resolved};
ghost use Rattle.form_resolve.specs.FirstFaults.{IsFirstFault};
ghost use Rattle.form_resolve.specs.Values.{AreFor};
ghost use Rattle.form_resolve.specs.Saying.{nothing_told, Say};
ghost use Rattle.mlir_lex.specs.declared.fault.Fault.{Fault};
ghost use Rattle.mlir_scope.specs.Names.{Entry};
ghost use Rattle.mlir_scope.specs.Maps.{AliasShape, AreMaps};

/// What the parts of a text stand for, for all lists of wants. There is nothing to run.
pub fn parts_are_resolved()
    // Where they are those of the wants, a fault is the first.
    ensures fault { (al : List AliasShape) (env : List Entry) (ws : List Want) (ps : List Part) (e : Fault) → all_mean ws 0 0 ≡ true → AreParts ws 0 ps → resolved al env ws 0 nothing_seen ps ≡ Err e → IsFirstFault al env ws 0 nothing_seen ps e }
    // The values are those that the wants ask for, within their limits.
    ensures values { (al : List AliasShape) (env : List Entry) (ws : List Want) (ps : List Part) (vs : List Value) → AreMaps al → resolved al env ws 0 nothing_seen ps ≡ Ok vs → AreFor ws 0 0 vs }
    // Parts that say what stands for values are resolved to these values, wherever they stand.
    ensures said { (al : List AliasShape) (env : List Entry) (ws : List Want) (ps : List Part) (fs : List Field) (vs : List Value) → Say al env ws 0 nothing_told fs vs → fields_of ws 0 ps ≡ Some fs → resolved al env ws 0 nothing_seen ps ≡ Ok vs }
{}

/// The parts of a text are those of the wants. There is nothing to run.
pub fn parts_are_read()
    // What is read is a part for each want that isn't left out.
    ensures parts { (ws : List Want) (s : State) (x : List Part) (t : State) → (x, t) ≡ (formats ws 0).read s → AreParts ws 0 x }
    // Each part has a meaning in every row of the table, and behind the region of every operation.
    ensures row { (o : Opcode) → all_mean (form o) 0 0 ≡ true }
    ensures tail { (o : Opcode) → all_mean (tail o) 0 0 ≡ true }
{}

/// The text of an operation, for every row of the table. There is nothing to run.
pub fn rows_resolve_back()
    // What is written is resolved to what was written.
    ensures row { (al : List AliasShape) (env : List Entry) (c : Class) (name : List ℕ) (o : Opcode) (fs : List Field) (vs : List Value) → IsRow c name o fs → Say al env (form o) 0 nothing_told fs vs → (at : ℕ) → resolved al env (form o) 0 nothing_seen ((row_w c name o fs).tree at).parts ≡ Ok vs }
    // And so is what stands behind the region.
    ensures tail { (al : List AliasShape) (env : List Entry) (o : Opcode) (fs : List Field) (vs : List Value) → Fits (tail o) 0 fs → Say al env (tail o) 0 nothing_told fs vs → (at : ℕ) → resolved al env (tail o) 0 nothing_seen ((written (tail o) 0 fs).tree at) ≡ Ok vs }
{}
