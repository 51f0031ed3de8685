// The tokens of functions by clauses.
ghost use Rattle.std.specs.Prelude.{◌≡◌, ◌++◌, OnOk};
ghost use Rattle.print_laws.specs.Printing.{alternatives, exp_ink, several_clause};
ghost use Rattle.print_laws.specs.Opened.{clause_text, several_text, function_by, first_clauses};

use crate::expressions::print_body;
use crate::forms::Forms;
use crate::patterns::{is_number, print_parts, put_pat};
use sml_syntax::{Exp, ExpForm, Listed, NoMemory, Rule, Text};

/// The clauses of a function. Where it has the derived form of several patterns, they are those of the `case` inside.
#[cycle(printed_programs)]
pub(crate) fn print_function(
    forms: &mut Forms,
    name: &Text,
    rules: &Listed<Rule>,
) -> Result<(), NoMemory>
    ensures { OnOk result (forms.new ≡ forms.old ++ function_by name.now rules.now) }
{
    if let [first, ..] = rules.as_slice()
        && is_number(&first.pat)
    {
        return print_inner(forms, name, &first.body);
    }
    print_clauses(forms, name, rules)
}

/// Clauses of one pattern with bars between.
#[cycle(printed_programs)]
fn print_clauses(forms: &mut Forms, name: &Text, rules: &Listed<Rule>) -> Result<(), NoMemory>
    ensures { OnOk result (forms.new ≡ forms.old ++ alternatives (clause_text name.now) rules.now) }
{
    let [before @ .., last] = rules.as_slice() else {
        return Ok(());
    };
    for rule in before {
        print_clause(forms, name, false, rule)?;
        forms.mark(b"|")?;
    }
    print_clause(forms, name, true, last)
}

/// A clause of one pattern.
#[cycle(printed_programs)]
fn print_clause(forms: &mut Forms, name: &Text, last: bool, rule: &Rule) -> Result<(), NoMemory>
    ensures { OnOk result (forms.new ≡ forms.old ++ clause_text name.now last rule.now) }
{
    forms.head(name)?;
    put_pat(forms, 3, &rule.pat)?;
    forms.mark(b"=")?;
    print_body(forms, last, &rule.body)
}

/// The clauses of several patterns in a `case` that functions stand around.
#[cycle(printed_programs)]
#[tactic(auto, using(print_laws::proofs::Opened::clauses_opened, print_laws::proofs::Opened::several_printed))]
fn print_inner(forms: &mut Forms, name: &Text, exp: &Exp) -> Result<(), NoMemory>
    ensures { OnOk result (forms.new ≡ forms.old ++ alternatives (several_clause name.now) (exp_ink exp.now).clauses) }
{
    match &exp.form {
        ExpForm::Case(_, rules) => print_several(forms, name, rules)?,
        ExpForm::Fn(rules) => print_first(forms, name, rules)?,
        _ => {}
    }
    Ok(())
}

#[cycle(printed_programs)]
fn print_first(forms: &mut Forms, name: &Text, rules: &Listed<Rule>) -> Result<(), NoMemory>
    ensures { OnOk result (forms.new ≡ forms.old ++ alternatives (several_clause name.now) (first_clauses rules.now)) }
{
    if let [rule, ..] = rules.as_slice() {
        print_inner(forms, name, &rule.body)?;
    }
    Ok(())
}

/// Clauses of several patterns with bars between.
#[cycle(printed_programs)]
fn print_several(forms: &mut Forms, name: &Text, rules: &Listed<Rule>) -> Result<(), NoMemory>
    ensures { OnOk result (forms.new ≡ forms.old ++ alternatives (several_text name.now) rules.now) }
{
    let [others @ .., last] = rules.as_slice() else {
        return Ok(());
    };
    for rule in others {
        print_several_clause(forms, name, false, rule)?;
        forms.mark(b"|")?;
    }
    print_several_clause(forms, name, true, last)
}

#[cycle(printed_programs)]
fn print_several_clause(
    forms: &mut Forms,
    name: &Text,
    last: bool,
    rule: &Rule,
) -> Result<(), NoMemory>
    ensures { OnOk result (forms.new ≡ forms.old ++ several_text name.now last rule.now) }
{
    forms.head(name)?;
    print_parts(forms, &rule.pat)?;
    forms.mark(b"=")?;
    print_body(forms, last, &rule.body)
}
