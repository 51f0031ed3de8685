// Evaluations at greater heights.
ghost use Rattle.std.specs.Prelude.{◌+◌, ◌≤◌, ℕ, suc, List};
ghost use Rattle.web_data.specs.declared.database.WebAns.{WebAns};
ghost use Rattle.region_syntax.specs.GroundTerms as g;
ghost use Rattle.region_syntax.specs.RegionTerms as r;
ghost use Rattle.region_eval.specs.GroundValues as gv;
ghost use Rattle.region_eval.specs.GroundPrimitives as gp;
ghost use Rattle.region_eval.specs.GroundEvaluation as ground;
ghost use Rattle.region_eval.specs.RegionStore as rs;
ghost use Rattle.region_eval.specs.RegionEvaluation as region;
ghost use Rattle.sml_evaluation.specs.RunState.{count_of};
ghost use Rattle.eval_laws.specs.Heights.{Betters, Extends, with_more};

/// A greater height changes no outcome but that the height ran out, and there it counts more.
pub fn greater_heights()
    ensures specialised_expressions { (n m : ℕ) (env : gv.Env) (s : gp.State) (e : g.Exp) → Betters 1 (ground.eval n env s e) (ground.eval (n + suc m) env s e) }
    ensures specialised_declarations { (n m : ℕ) (env : gv.Env) (s : gp.State) (ds : g.Decs) → Betters 1 (ground.eval_decs n env s ds) (ground.eval_decs (n + suc m) env s ds) }
    ensures region_expressions { (n m : ℕ) (around : rs.Around) (env : rs.Env) (s : rs.State) (e : r.Exp) → Betters 1 (region.eval n around env s e) (region.eval (n + suc m) around env s e) }
    ensures region_declarations { (n m : ℕ) (around : rs.Around) (env : rs.Env) (s : rs.State) (ds : r.Decs) → Betters 1 (region.eval_decs n around env s ds) (region.eval_decs (n + suc m) around env s ds) }
{}

/// What is counted only grows.
pub fn counts_grow()
    ensures specialised_expressions { (n : ℕ) (env : gv.Env) (s : gp.State) (e : g.Exp) → s.count ≤ count_of (ground.eval n env s e) }
    ensures specialised_declarations { (n : ℕ) (env : gv.Env) (s : gp.State) (ds : g.Decs) → s.count ≤ count_of (ground.eval_decs n env s ds) }
    ensures region_expressions { (n : ℕ) (around : rs.Around) (env : rs.Env) (s : rs.State) (e : r.Exp) → s.count ≤ count_of (region.eval n around env s e) }
    ensures region_declarations { (n : ℕ) (around : rs.Around) (env : rs.Env) (s : rs.State) (ds : r.Decs) → s.count ≤ count_of (region.eval_decs n around env s ds) }
{}

/// With more answers behind those that are left, an evaluation of specialised terms comes to another outcome only where it waits; then the calls that it made begin those that it makes with more.
pub fn answers_extend()
    ensures specialised_expressions { (more : List WebAns) (n : ℕ) (env : gv.Env) (s : gp.State) (e : g.Exp) → Extends more (ground.eval n env s e) (ground.eval n env (with_more more s) e) }
    ensures specialised_declarations { (more : List WebAns) (n : ℕ) (env : gv.Env) (s : gp.State) (ds : g.Decs) → Extends more (ground.eval_decs n env s ds) (ground.eval_decs n env (with_more more s) ds) }
{}
