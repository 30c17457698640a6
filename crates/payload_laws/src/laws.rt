ghost use Rattle.std.specs.Prelude.{◌≡◌, ◌<◌, ◌^◌, ℕ, true, false, List, Option};
ghost use Rattle.payload_ops.specs.Combine.{joined};
ghost use Rattle.payload_laws.specs.Combiners.{neutral_of, combining};
ghost use Rattle.payload_laws.specs.Known.{may_trap, is_neutral_under};
ghost use Rattle.payload_laws.specs.Laws.{IsAssociative, IsCommutative, IsNeutral, JoinsTerm, IsApartFromOut, NeverTraps, KeepsOutput};
ghost use Rattle.payload_ops.specs.Payload.{IsPayload};
ghost use Rattle.payload_ops.specs.Shape.{PayloadShape};
ghost use Rattle.payload_ops.specs.Values.{Given};
ghost use Rattle.payload_ops.specs.declared.kinds.Combiner.{Combiner};
ghost use Rattle.payload_ops.specs.declared.step.Arg.{Arg};

/// The law of combiners at every width: values may be joined in any order and any grouping, the
/// neutral element is a value that changes none, and what is joined is a value. There is nothing to
/// run.
pub fn values_join_in_any_order()
    ensures associative { (c : Combiner) (w : ℕ) → IsAssociative (joined c w) }
    ensures commutative { (c : Combiner) (w : ℕ) → IsCommutative (joined c w) }
    ensures neutral { (c : Combiner) (w : ℕ) → IsNeutral w (joined c w) (neutral_of c w) }
    ensures value { (c : Combiner) (w : ℕ) → 0 < w → neutral_of c w < 2 ^ w }
    ensures closed { (c : Combiner) (w : ℕ) (a : ℕ) (b : ℕ) → joined c w a b < 2 ^ w }
{}

/// The law of payloads with a combiner. Such a payload yields that combiner of the output's element
/// and a term, and neither the term nor whether a step traps depends on the output's element. There
/// is nothing to run.
pub fn combiner_joins_a_term()
    ensures joins { (p : PayloadShape) (c : Combiner) (t : Arg) → IsPayload p → combining p.steps p.yielded ≡ Some (c, t) → (g : Given) → JoinsTerm p g c t }
    ensures apart { (p : PayloadShape) (c : Combiner) (t : Arg) → IsPayload p → combining p.steps p.yielded ≡ Some (c, t) → (g : Given) → IsApartFromOut p g t }
{}

/// The law of payloads that cannot trap: no values make a step trap. There is nothing to run.
pub fn no_values_trap()
    ensures { (p : PayloadShape) → IsPayload p → may_trap p ≡ false → NeverTraps p }
{}

/// The law of padding. A payload that cannot trap, and whose term is neutral where some inputs are
/// known, keeps every element of the output, whatever the point, the other inputs and the captured
/// values are. There is nothing to run.
pub fn neutral_term_keeps_output()
    ensures { (p : PayloadShape) (pads : List (Option ℕ)) → IsPayload p → may_trap p ≡ false → is_neutral_under p pads ≡ true → KeepsOutput p pads }
{}
