// Worked examples of the evaluations.
ghost use Rattle.std.specs.Prelude.{◌≡◌, ℕ, pos, List, [], ◌++◌, codes};
ghost use Rattle.region_syntax.specs.GroundTerms.{Datatype};
ghost use Rattle.sml_evaluation.specs.RunState.{EvalState, state_of};
ghost use Rattle.region_eval.specs.RegionStore as rs;
ghost use Rattle.region_syntax.specs.UsedRegions.{choice_of_code};
ghost use Rattle.region_eval.specs.RegionEvaluation as region;
ghost use Rattle.region_eval.specs.Examples.{pair_is_read, pair_is_dead, pair_is_held, two_writes, hello, Gives, HasNoRule, Writes};
ghost use Rattle.region_eval.specs.GroundValues as gv;
ghost use Rattle.region_eval.specs.GroundEvaluation as ground;
ghost use Rattle.sml_evaluation.specs.Primitives.{int_text};

/// A pair is made in a region and read before the region ends.
#[tactic(auto, using(crate::proofs::Computed::read_gives))]
pub fn pair_is_read_in_its_region()
    ensures { (ds : List Datatype) (q : EvalState) → Gives (region.eval 5 (region.start_around ds (choice_of_code [])) [] (state_of q region.start_store 0) pair_is_read) (rs.Int (pos 9)) }
{}

/// No rule fits where a pair is read whose region has ended.
#[tactic(auto, using(crate::proofs::Computed::dead_has_no_rule))]
pub fn dead_pair_has_no_rule()
    ensures { (ds : List Datatype) (q : EvalState) → HasNoRule (region.eval 5 (region.start_around ds (choice_of_code [])) [] (state_of q region.start_store 0) pair_is_dead) }
{}

/// An address into a region that has ended may be held, where it isn't followed.
#[tactic(auto, using(crate::proofs::Computed::held_gives))]
pub fn dead_pair_may_be_held()
    ensures { (ds : List Datatype) (q : EvalState) → Gives (region.eval 5 (region.start_around ds (choice_of_code [])) [] (state_of q region.start_store 0) pair_is_held) (rs.Int (pos 1)) }
{}

/// Parts are evaluated from left to right, so what the first one writes comes first.
#[tactic(auto, using(crate::proofs::Computed::two_writes_here))]
pub fn writes_come_in_order()
    ensures { (q : EvalState) → Writes (ground.eval_decs 5 gv.no_names (state_of q [] 0) two_writes) ((q.body ++ codes "a") ++ codes "b") }
{}

/// `val _ = Web.write ("Hello " ^ Int.toString (6 * 7))`
#[tactic(auto, using(crate::proofs::Computed::hello_here))]
pub fn product_is_greeted()
    ensures { (q : EvalState) → Writes (ground.eval_decs 8 gv.no_names (state_of q [] 0) hello) (q.body ++ (codes "Hello " ++ int_text (pos 42))) }
{}
