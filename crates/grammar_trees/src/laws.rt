// Laws of the grammar's texts.
ghost use Rattle.std.specs.Prelude.{◌≡◌, List};
ghost use Rattle.sml_syntax.specs.declared.token.Token.{Token};
ghost use Rattle.sml_syntax.specs.declared.tree.Program.{Program};
ghost use Rattle.sml_syntax.specs.NestedTypes.{Found};
ghost use Rattle.grammar_rules.specs.Programs.{IsWide, IsProgram};
ghost use Rattle.grammar_trees.specs.Accepted.{IsAccepted};

/// The machine accepts the tokens of each tree of the wider grammar, and tells the acts of its derivation. Where the
/// tree has no lacks, the acts build it.
pub fn programs_are_accepted()
    ensures { (tokens : List Token) (program : Program) (lacks : List Found) → IsWide tokens program lacks → IsAccepted tokens program lacks }
{}

/// Tokens have at most one tree of the language.
pub fn one_tree()
    ensures { (tokens : List Token) (first second : Program) → IsProgram tokens first → IsProgram tokens second → first ≡ second }
{}
