// What holds of the definitions.
ghost use Rattle.std.specs.Prelude.{◌≡◌, ◌≤◌, ◌<◌, ◌+◌, ◌*◌, ℕ, Bool, List, ◌++◌, length, None, true, false};
ghost use Rattle.region_syntax.specs.declared.region.RExp.{RExp};
ghost use Rattle.region_syntax.specs.declared.types.RTy.{RTy};
ghost use Rattle.region_syntax.specs.Erasure.{exp_erasure};
ghost use Rattle.region_syntax.specs.RegionTypes.{region_type};
ghost use Rattle.region_syntax.specs.Effects.{all_of, placed, put};
ghost use Rattle.region_syntax.specs.GroundTerms as g;
ghost use Rattle.region_syntax.specs.GroundTyping as ground;
ghost use Rattle.region_syntax.specs.RegionTerms as r;
ghost use Rattle.region_syntax.specs.RegionTerms.{Program};
ghost use Rattle.region_syntax.specs.RegionTyping as region;
ghost use Rattle.region_syntax.specs.RegionTyping.{Context, Tables, first_failing, failing_after, all_hold};
ghost use Rattle.region_syntax.specs.TopLevel.{program_answers, program_fits, item_answers};
ghost use Rattle.region_syntax.specs.Cost.{IsWork, IsDepth, IsPaid, HasRoom, PassesBudget, PassesStack};

/// A copy of a specialised term has the same twin.
pub fn copies_have_one_twin()
    ensures terms { (e d : RExp) → e ≡ d → exp_erasure e ≡ exp_erasure d }
    ensures types { (t u : RTy) → t ≡ u → all_of (region_type t) ≡ all_of (region_type u) }
{}

/// A program has at most one work and at most one depth.
#[tactic(auto, using(crate::proofs::Costs::work_is_one, crate::proofs::Costs::depth_is_one))]
pub fn work_and_depth_are_one()
    ensures work { (count : ℕ → ℕ) (v w : ℕ) → IsWork count v → IsWork count w → v ≡ w }
    ensures depth { (count : ℕ → ℕ) (w c d : ℕ) → IsDepth count w c → IsDepth count w d → c ≡ d }
{}

/// No node of a program is the first that fails exactly where the own rule of each node holds.
#[tactic(auto, using(crate::proofs::Failing::all_from_none, crate::proofs::Failing::none_from_all))]
pub fn none_fails_where_all_hold()
    ensures none { (p : Program) → first_failing (program_answers p) ≡ None → all_hold (program_answers p) ≡ true }
    ensures all { (p : Program) → all_hold (program_answers p) ≡ true → first_failing (program_answers p) ≡ None }
{}

/// The first node that fails goes by parts: that of one list and then another is that of the first, or else that of the second behind the first.
#[tactic(auto, using(crate::proofs::Failing::by_parts))]
pub fn first_failing_goes_by_parts()
    ensures { (bs cs : List Bool) → first_failing (bs ++ cs) ≡ failing_after (length bs) (first_failing bs) (first_failing cs) }
{}

/// A program that is accepted has the basis in front of its tables, which stand, and binds each region and each effect variable once.
#[tactic(auto, using(crate::proofs::Failing::accepted_fits))]
pub fn accepted_programs_fit()
    ensures { (p : Program) → all_hold (program_answers p) ≡ true → program_fits p ≡ true }
{}

/// Where a program has a work and a depth, the bounds by heights are bounds by these; the count never falls.
#[tactic(auto, using(crate::proofs::Costs::paid_by_work, crate::proofs::Costs::budget_by_work, crate::proofs::Costs::room_by_depth, crate::proofs::Costs::stack_by_depth))]
pub fn bounds_go_by_work_and_depth()
    ensures charge { (count : ℕ → ℕ) (w width charge : ℕ) → IsWork count w → IsPaid width count charge → charge ≤ 16 * width * w + 64 }
    ensures budget { (count : ℕ → ℕ) (w width budget : ℕ) → IsWork count w → PassesBudget width count budget → budget < 16 * width * w + 64 }
    ensures stack { (count : ℕ → ℕ) (w d width stack : ℕ) → ((n m : ℕ) → n ≤ m → count n ≤ count m) → IsWork count w → IsDepth count w d → HasRoom width count stack → stack ≤ 8 * width * d + 64 }
    ensures limit { (count : ℕ → ℕ) (w d width limit : ℕ) → IsWork count w → IsDepth count w d → PassesStack width count limit → limit < 8 * width * d + 64 }
{}

/// A `val` without bindings is typed nowhere: not among specialised declarations, not among region declarations, not as an item.
pub fn empty_val_is_refused()
    ensures ground { (ds : g.Decs) → ground.are_decs (g.vals g.no_rules ds) ≡ false }
    ensures region { (c : Context) (ds : r.Decs) → region.are_decs c (r.vals r.no_rules ds) ≡ false }
    ensures item { (tables : Tables) (c : Context) (ds : r.Decs) → all_hold (item_answers tables c (r.vals r.no_rules ds)) ≡ false }
{}
