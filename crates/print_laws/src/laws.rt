// What is printed reads back.
ghost use Rattle.print_laws.specs.ReadBack.{ExpressionsReadBack, TypesReadBack, PatternsReadBack, DeclarationsReadBack, ProgramsReadBack, SameHeights, ReadsBack};
ghost use Rattle.print_laws.specs.Spelt.{FormsFit};

/// Where an expression is that of some tokens, all tokens of the forms that are printed of it are of the same expression,
/// spans aside.
pub fn printed_expressions_read_back()
    ensures { ExpressionsReadBack }
{}

/// The same of types, of patterns, and of declarations, inside `let` and `local` and at the top level.
pub fn printed_parts_read_back()
    ensures types { TypesReadBack }
    ensures patterns { PatternsReadBack }
    ensures declarations { DeclarationsReadBack }
{}

/// The same of programs: all tokens of the forms that are printed of one are a program, the same one, spans aside.
pub fn printed_programs_have_their_tree()
    ensures { ProgramsReadBack }
{}

/// Trees that are the same, spans aside, have the same height.
pub fn same_trees_have_the_same_height()
    ensures { SameHeights }
{}

/// Where the forms of a program's tokens are read as they wherever they stand, the forms that are printed of it can stand one
/// behind another, up to the end of a script.
pub fn printed_forms_fit()
    ensures { FormsFit }
{}

/// Where a program is that of a script, the text that it is printed as has tokens and a tree again, the same one, spans aside.
pub fn printed_text_reads_back()
    ensures { ReadsBack }
{}
