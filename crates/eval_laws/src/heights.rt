// Evaluations at greater heights, and with more answers.
ghost use Rattle.std.specs.Prelude.{◌+◌, ◌≤◌, ℕ, List, suc};
ghost use Rattle.web_data.specs.declared.database.WebAns.{WebAns};
ghost use Rattle.sml_syntax.specs.declared.tree.Exp.{Exp};
ghost use Rattle.sml_syntax.specs.declared.tree.Dec.{Dec};
ghost use Rattle.sml_evaluation.specs.Values.{Env};
ghost use Rattle.sml_evaluation.specs.RunState.{count_of};
ghost use Rattle.sml_evaluation.specs.Outcome.{State};
ghost use Rattle.sml_evaluation.specs.Evaluation.{eval, eval_decs};
ghost use Rattle.eval_laws.specs.Heights.{Betters, with_more, Begins, calls_of, Extends};

/// A greater height changes no outcome but that the height ran out, and there it counts more.
pub fn greater_heights()
    ensures expressions { (n m : ℕ) (env : Env) (s : State) (e : Exp) → Betters 1 (eval n env s e) (eval (n + suc m) env s e) }
    ensures declarations { (n m : ℕ) (env : Env) (s : State) (decs : List Dec) → Betters 1 (eval_decs n env s decs) (eval_decs (n + suc m) env s decs) }
{}

/// What is counted only grows.
pub fn counts_grow()
    ensures expressions { (n : ℕ) (env : Env) (s : State) (e : Exp) → s.count ≤ count_of (eval n env s e) }
    ensures declarations { (n : ℕ) (env : Env) (s : State) (decs : List Dec) → s.count ≤ count_of (eval_decs n env s decs) }
{}

/// Calls that are made stay made, and later ones come behind them.
pub fn calls_grow()
    ensures expressions { (n : ℕ) (env : Env) (s : State) (e : Exp) → Begins s.shared.calls (calls_of (eval n env s e)) }
    ensures declarations { (n : ℕ) (env : Env) (s : State) (decs : List Dec) → Begins s.shared.calls (calls_of (eval_decs n env s decs)) }
{}

/// More answers change no outcome but that an answer was wanting, and there the calls so far begin
/// those that are made then.
pub fn more_answers()
    ensures expressions { (more : List WebAns) (n : ℕ) (env : Env) (s : State) (e : Exp) → Extends more (eval n env s e) (eval n env (with_more more s) e) }
    ensures declarations { (more : List WebAns) (n : ℕ) (env : Env) (s : State) (decs : List Dec) → Extends more (eval_decs n env s decs) (eval_decs n env (with_more more s) decs) }
{}
