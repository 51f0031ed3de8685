// Worked examples of the evaluation.
ghost use Rattle.std.specs.Prelude.{◌≡◌, ℕ, List, [], ◌∷◌, ◌^◌, ◌-◌, pos, negsuc, true, false, None, Some, codes};
ghost use Rattle.sml_evaluation.specs.declared.value.Value.{Value};
ghost use Rattle.sml_evaluation.specs.declared.value.Bound.{roll-Bound};
ghost use Rattle.sml_evaluation.specs.declared.value.Bound.TheOpen.{Value-F, Bound-F};
ghost use Rattle.sml_syntax.specs.declared.tree.DecForm.TheOpen.{Piece-F};
ghost use Rattle.sml_evaluation.specs.Values.{Env, int_value, exn_value, quote_value};
ghost use Rattle.sml_evaluation.specs.RunState.{Done, Raised, counted};
ghost use Rattle.sml_evaluation.specs.Outcome.{State};
ghost use Rattle.sml_evaluation.specs.BasisFunctions.{quotient, modulus};
ghost use Rattle.sml_evaluation.specs.Primitives.{Comparing, by_divisor};
ghost use Rattle.sml_syntax.specs.declared.tree.Span.{Span};
ghost use Rattle.sml_evaluation.specs.Evaluation.{Evaluator, bound_more, constructor_match, held_by, piece_value, same_result};
ghost use Rattle.sml_syntax.specs.declared.constructor.Constructor.TheVariants as con;
ghost use Rattle.sml_evaluation.specs.Page.{PageOf, Finished, html_type};
ghost use Rattle.eval_laws.specs.Examples.{any_or_other, squares, square_answers, square_calls};

/// `~7 div 2` is `~4` and leaves 1; `7 div ~2` is `~4` and leaves `~1`.
pub fn division_rounds_down()
    ensures left { (s : State) → by_divisor quotient (Value-F.Int (negsuc 6)) (Value-F.Int (pos 2)) s ≡ Done (int_value (negsuc 3)) s }
    ensures left_over { (s : State) → by_divisor modulus (Value-F.Int (negsuc 6)) (Value-F.Int (pos 2)) s ≡ Done (int_value (pos 1)) s }
    ensures right { (s : State) → by_divisor quotient (Value-F.Int (pos 7)) (Value-F.Int (negsuc 1)) s ≡ Done (int_value (negsuc 3)) s }
    ensures right_over { (s : State) → by_divisor modulus (Value-F.Int (pos 7)) (Value-F.Int (negsuc 1)) s ≡ Done (int_value (negsuc 0)) s }
{}

/// The least integer divided by `~1` raises `Overflow`, and anything divided by 0 raises `Div`.
pub fn division_raises()
    ensures overflow { (s : State) → by_divisor quotient (Value-F.Int (negsuc (2 ^ 63 - 1))) (Value-F.Int (negsuc 0)) s ≡ Raised (exn_value 3) (counted 2 s) }
    ensures zero { (s : State) → by_divisor quotient (Value-F.Int (pos 1)) (Value-F.Int (pos 0)) s ≡ Raised (exn_value 2) (counted 2 s) }
{}

/// A reference is equal to itself alone.
pub fn references_are_told_apart()
    ensures same { (part : Comparing) (s : State) → same_result part (Value-F.Ref 3) (Value-F.Ref 3) s ≡ Done true s }
    ensures other { (part : Comparing) (s : State) → same_result part (Value-F.Ref 3) (Value-F.Ref 4) s ≡ Done false s }
{}

/// Constructors of two datatypes are two, though they have one place in theirs, and so are those of one datatype with two places.
pub fn constructors_are_told_apart()
    ensures match_other { (s : State) → constructor_match (con.Data 7 1) (Value-F.Con 6 1) s ≡ Done None s }
    ensures match_same { (s : State) → constructor_match (con.Data 7 1) (Value-F.Con 7 1) s ≡ Done (Some []) s }
    ensures equality { (part : Comparing) (s : State) → same_result part (Value-F.Con 6 1) (Value-F.Con 7 1) s ≡ Done false s }
    ensures index { (part : Comparing) (s : State) → same_result part (Value-F.Con 7 0) (Value-F.Con 7 1) s ≡ Done false s }
{}

/// A pattern that doesn't fit raises `Bind`.
pub fn bind_is_raised()
    ensures { (env : Env) (s : State) → bound_more env None s ≡ Raised (exn_value 1) (counted 2 s) }
{}

/// A plain piece of a quotation is `QUOTE` of its text: two words, and two of the text.
pub fn plain_piece_is_quoted()
    ensures { (part : Evaluator) (env : Env) (s : State) → piece_value part env s (Piece-F.Plain (codes "a")) ≡ Done (quote_value (codes "a")) (counted 4 s) }
{}

/// Where a variable hides a constructor of the basis, a function with that name in a pattern holds the variable, so that the name
/// binds there: `fun NONE x = x`, and then `fn NONE => "any" | _ => "other"`.
pub fn hidden_constructor_is_held()
    ensures { (at : Span) (v : Value) → held_by ((codes "NONE", roll-Bound (Bound-F.Variable v)) ∷ []) (any_or_other at) ≡ (codes "NONE", roll-Bound (Bound-F.Variable v)) ∷ [] }
{}

/// `Web.Cache.memoize` of the prelude, and a script that writes the square of 7 twice by it. The first time nothing is found, the
/// function runs, and what it gives is kept; the second time that is found, and the function doesn't run.
pub fn square_is_remembered()
    ensures { (at : Span) (form : List (List ℕ × List ℕ)) (databases : List (List ℕ)) → PageOf (squares at) form databases square_answers square_calls (Finished 200 html_type (codes "run 49 49")) }
{}
