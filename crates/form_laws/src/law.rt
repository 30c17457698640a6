ghost use Rattle.std.specs.Prelude.{◌≡◌, ℕ, List, ◌++◌, Ok, Some};
ghost use Rattle.text_format.specs.declared.class.Class.{Class};
ghost use Rattle.text_format.specs.Token.{TokenShape};
ghost use Rattle.text_format.specs.Tokens.{shapes_of};
ghost use Rattle.text_format.specs.Formats.{State, Stop, live};
ghost use Rattle.text_format.specs.Parsing.{end_of};
ghost use Rattle.text_format.specs.Pieces.{bytes_of, shapes_at};
ghost use Rattle.text_format.specs.Places.{IsFault};
ghost use Rattle.form_table.specs.declared.part.Part.{Part};
ghost use Rattle.form_table.specs.declared.part.Row.{Row};
ghost use Rattle.form_table.specs.declared.field.Field.{Field};
ghost use Rattle.form_table.specs.declared.want.Opcode.{Opcode};
ghost use Rattle.form_table.specs.Form.{tail, form};
ghost use Rattle.form_table.specs.Parts.{formats, row};
ghost use Rattle.form_table.specs.Writing.{written};
ghost use Rattle.form_laws.specs.Fields.{fields_of};
ghost use Rattle.form_laws.specs.Fits.{Fits};
ghost use Rattle.form_laws.specs.Rows.{row_w, IsRow};

/// The text of an operation, for every row of the table. There is nothing to run.
pub fn rows_read_back()
    // The text has the tokens that were written.
    ensures tokens { (c : Class) (name : List ℕ) (o : Opcode) (fs : List Field) → IsRow c name o fs → shapes_of (bytes_of (row_w c name o fs).pieces) ≡ Ok (shapes_at 0 (row_w c name o fs).pieces) }
    // They are read as its tree, whatever comes behind them.
    ensures read { (c : Class) (name : List ℕ) (o : Opcode) (fs : List Field) → IsRow c name o fs → (at : ℕ) (end : ℕ) (rest : List TokenShape) → (row c o).read (live end (shapes_at at (row_w c name o fs).pieces ++ rest)) ≡ ((row_w c name o fs).tree at, live end rest) }
    // The tree says the fields that were written.
    ensures fields { (c : Class) (name : List ℕ) (o : Opcode) (fs : List Field) → IsRow c name o fs → (at : ℕ) → fields_of (form o) 0 ((row_w c name o fs).tree at).parts ≡ Some fs }
    // Where reading stops, and why, is the first fault.
    ensures fault { (c : Class) (wanted : Class) (o : Opcode) (end : ℕ) (ts : List TokenShape) (x : Row) (s : State) (q : Stop) → (x, s) ≡ (row c o).read (live end ts) → end_of wanted s ≡ Some q → IsFault (row c o) wanted end ts q }
{}

/// What stands behind the region of an operation. There is nothing to run.
pub fn tails_read_back()
    // The text has the tokens that were written.
    ensures tokens { (o : Opcode) (fs : List Field) → Fits (tail o) 0 fs → shapes_of (bytes_of (written (tail o) 0 fs).pieces) ≡ Ok (shapes_at 0 (written (tail o) 0 fs).pieces) }
    // They are read as its parts, whatever comes behind them.
    ensures read { (o : Opcode) (fs : List Field) → Fits (tail o) 0 fs → (at : ℕ) (end : ℕ) (rest : List TokenShape) → (formats (tail o) 0).read (live end (shapes_at at (written (tail o) 0 fs).pieces ++ rest)) ≡ ((written (tail o) 0 fs).tree at, live end rest) }
    // The parts say the fields that were written.
    ensures fields { (o : Opcode) (fs : List Field) → Fits (tail o) 0 fs → (at : ℕ) → fields_of (tail o) 0 ((written (tail o) 0 fs).tree at) ≡ Some fs }
    // Where reading stops, and why, is the first fault.
    ensures fault { (wanted : Class) (o : Opcode) (end : ℕ) (ts : List TokenShape) (x : List Part) (s : State) (q : Stop) → (x, s) ≡ (formats (tail o) 0).read (live end ts) → end_of wanted s ≡ Some q → IsFault (formats (tail o) 0) wanted end ts q }
{}
