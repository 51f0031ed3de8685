// The laws of the machine.
ghost use Rattle.std.specs.Prelude.{◌≡◌, ◌++◌, ℕ, List, []};
ghost use Rattle.sml_syntax.specs.declared.token.Token.{Token as TokenValue};
ghost use Rattle.sml_syntax.specs.declared.tree.Program.{Program as ProgramValue};
ghost use Rattle.sml_syntax.specs.NestedTypes.{Found};
ghost use Rattle.grammar_rules.specs.Programs.{IsWide, BeginsProgram, place_behind};
ghost use Rattle.sml_grammar.specs.declared.act.Made.{Made as MadeValue};
ghost use Rattle.sml_grammar.specs.Machine.{Accepts, Stops, outcome_of, place_of};
ghost use Rattle.grammar_sound.specs.Soundness.{FitsSlice};

/// Tokens that the machine accepts have a tree of the wider grammar.
#[tactic(auto, using(crate::proofs::Viable::accepted_have_tree))]
pub fn accepted_tokens_have_a_tree()
    ensures { (tokens : List TokenValue) (acts : List MadeValue) → FitsSlice tokens → outcome_of tokens ≡ Accepts acts → (program : ProgramValue) × (lacks : List Found) × IsWide tokens program lacks }
{}

/// Where the machine stops, the tokens before that place begin a text of the wider grammar, and the place is the first byte
/// of the next one, or the end of the last.
#[tactic(auto, using(crate::proofs::Viable::read_begins))]
pub fn what_was_read_begins_a_program()
    ensures { (tokens left : List TokenValue) (to : ℕ) → FitsSlice tokens → outcome_of tokens ≡ Stops left to → (before : List TokenValue) × (tokens ≡ before ++ left) × BeginsProgram before × (place_of left to ≡ place_behind before left) }
{}
