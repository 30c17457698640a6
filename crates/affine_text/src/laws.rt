//! Laws of the text of maps. Their functions have no code: each contract is a law.

ghost use Rattle.std.specs.Prelude.{◌≡◌, ℕ, Bool, List, ◌++◌, length, ◌⊎◌, Result, Ok, Err};
ghost use Rattle.affine_maps.specs.Map.{IsMap};
ghost use Rattle.affine_maps.specs.Shape.{MapShape};
ghost use Rattle.text_format.specs.declared.class.Class.{Class};
ghost use Rattle.text_format.specs.Pieces.{bytes_of, shapes_at, IsSpaced};
ghost use Rattle.affine_text.specs.declared.reading.fault.MapError.{MapError};
ghost use Rattle.affine_text.specs.declared.reading.fault.MapError.TheVariants.{Memory};
ghost use Rattle.affine_text.specs.Faults.{Stream, stream_of, IsMapText, IsFirstFault, IsAnswer};
ghost use Rattle.affine_text.specs.Grammar.{MapTree, IsMapTree, map_tokens};
ghost use Rattle.affine_text.specs.Meaning.{meaning};
ghost use Rattle.affine_text.specs.Canonical.{map_pieces, map_tree};
ghost use Rattle.affine_text.specs.Text.{text_of_map};

/// Reading has one answer. There is nothing to run.
pub fn one_reading()
    // Two answers to one text are the same, memory alone being free.
    ensures answer { (symbols : Bool) (s : Stream) (r : Result (MapShape × ℕ) MapError) (q : Result (MapShape × ℕ) MapError) → IsAnswer symbols s r → IsAnswer symbols s q → (r ≡ q) ⊎ ((r ≡ Err Memory) ⊎ (q ≡ Err Memory)) }
    // At the front of a text stands one map at most, and it has one length.
    ensures map { (symbols : Bool) (s : Stream) (m : MapShape) (o : MapShape) (n : ℕ) (k : ℕ) → IsMapText symbols s m n → IsMapText symbols s o k → (m ≡ o) × (n ≡ k) }
    // Where a map stands there is no fault.
    ensures no_fault { (symbols : Bool) (s : Stream) (m : MapShape) (n : ℕ) (fault : MapError) → IsMapText symbols s m n → IsFirstFault symbols s fault → ⊥ }
    // There is one first fault at most.
    ensures fault { (symbols : Bool) (s : Stream) (f : MapError) (g : MapError) → IsFirstFault symbols s f → IsFirstFault symbols s g → f ≡ g }
    // Tokens spell one tree at most.
    ensures tree { (x : MapTree) (y : MapTree) → map_tokens x ≡ map_tokens y → x ≡ y }
{}

/// The canonical text of a map in pieces. There is nothing to run.
pub fn canonical_pieces()
    // The pieces are the canonical text.
    ensures text { (c : Class) (m : MapShape) → bytes_of (map_pieces c m) ≡ text_of_map m }
    // Each token ends where the next piece begins, whatever stands behind the map.
    ensures spaced { (c : Class) (m : MapShape) (rest : List ℕ) → IsMap m → IsSpaced (map_pieces c m) rest }
    // Their tokens spell the canonical tree, at whatever place the map begins.
    ensures tree { (c : Class) (m : MapShape) (at : ℕ) → map_tokens (map_tree c at m) ≡ shapes_at at (map_pieces c m) }
    // That tree is a map's, and it means this map.
    ensures means { (c : Class) (m : MapShape) (at : ℕ) (symbols : Bool) → IsMap m → IsMapTree symbols (map_tree c at m) × (meaning (map_tree c at m) ≡ Ok m) }
{}

/// The canonical text of a map is read as that map, whatever stands behind it, and whether symbols are
/// allowed or not. There is nothing to run.
pub fn canonical_map_reads_back()
    // At its front stands the map, which is as long as the canonical text.
    ensures map { (m : MapShape) (rest : List ℕ) (symbols : Bool) → IsMap m → IsMapText symbols (stream_of (text_of_map m ++ rest)) m (length (text_of_map m)) }
    // So reading answers this map and this length, memory alone being free.
    ensures answer { (m : MapShape) (rest : List ℕ) (symbols : Bool) (r : Result (MapShape × ℕ) MapError) → IsMap m → IsAnswer symbols (stream_of (text_of_map m ++ rest)) r → (r ≡ Ok (m, length (text_of_map m))) ⊎ (r ≡ Err Memory) }
{}
