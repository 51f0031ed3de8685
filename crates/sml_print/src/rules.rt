// The tokens of rules.
ghost use Rattle.std.specs.Prelude.{◌≡◌, ◌++◌, OnOk};
ghost use Rattle.print_laws.specs.Opened.{rule_text, match_text};

use crate::expressions::print_body;
use crate::forms::Forms;
use crate::patterns::print_pat;
use sml_syntax::{Listed, NoMemory, Rule};

/// Rules with bars between.
#[cycle(printed_programs)]
pub(crate) fn print_rules(forms: &mut Forms, rules: &Listed<Rule>) -> Result<(), NoMemory>
    ensures { OnOk result (forms.new ≡ forms.old ++ match_text rules.now) }
{
    let [before @ .., last] = rules.as_slice() else {
        return Ok(());
    };
    for rule in before {
        print_rule(forms, false, rule)?;
        forms.mark(b"|")?;
    }
    print_rule(forms, true, last)
}

#[cycle(printed_programs)]
fn print_rule(forms: &mut Forms, last: bool, rule: &Rule) -> Result<(), NoMemory>
    ensures { OnOk result (forms.new ≡ forms.old ++ rule_text last rule.now) }
{
    print_pat(forms, &rule.pat)?;
    forms.mark(b"=>")?;
    print_body(forms, last, &rule.body)
}
