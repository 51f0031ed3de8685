// The machine and the grammar.
ghost use Rattle.std.specs.Prelude.{◌≡◌, ℕ, List, []};
ghost use Rattle.sml_syntax.specs.declared.token.Token.{Token as TokenValue};
ghost use Rattle.sml_syntax.specs.declared.tree.Program.{Program as ProgramValue};
ghost use Rattle.sml_syntax.specs.NestedTypes.{Found};
ghost use Rattle.grammar_rules.specs.Programs.{IsWide, IsUnexpected};
ghost use Rattle.sml_grammar.specs.declared.act.Made.{Made as MadeValue};
ghost use Rattle.sml_grammar.specs.Machine.{Accepts, Stops, outcome_of, place_of};
ghost use Rattle.parse_build.specs.Building.{program_of};
ghost use Rattle.grammar_sound.specs.Soundness.{FitsSlice};

/// The machine accepts each text of the wider grammar, and where it has no lacks the acts build its tree.
#[tactic(auto, using(crate::proofs::Joined::each_tree))]
pub fn each_tree_is_accepted()
    ensures { (tokens : List TokenValue) (program : ProgramValue) (lacks : List Found) → FitsSlice tokens → IsWide tokens program lacks → (acts : List MadeValue) × (outcome_of tokens ≡ Accepts acts) × (lacks ≡ [] → program_of acts ≡ program.items) }
{}

/// What it accepts has a tree of the wider grammar, which the acts build where it has no lacks.
#[tactic(auto, using(crate::proofs::Joined::accepted_tree))]
pub fn accepted_tokens_are_their_tree()
    ensures { (tokens : List TokenValue) (acts : List MadeValue) → FitsSlice tokens → outcome_of tokens ≡ Accepts acts → (program : ProgramValue) × (lacks : List Found) × IsWide tokens program lacks × (lacks ≡ [] → program_of acts ≡ program.items) }
{}

/// Where it stops the tokens stop being a text of the wider grammar.
#[tactic(auto, using(crate::proofs::Joined::stops_unexpected))]
pub fn stops_where_unexpected()
    ensures { (tokens left : List TokenValue) (to : ℕ) → FitsSlice tokens → outcome_of tokens ≡ Stops left to → IsUnexpected tokens (place_of left to) }
{}
