// The derived form of a function of several patterns.
ghost use Rattle.std.specs.Prelude.{◌≡◌, ◌-◌, IfOk};
ghost use Rattle.std.specs.Fmt.{decimal};
ghost use Rattle.grammar_rules.specs.Nodes.{number_rule, numbers, nested, curried};

use sml_syntax::{Boxed, Exp, ExpForm, Listed, NoMemory, Pat, PatForm, Rule, Span, Text};
use std::alloc::Global;

/// The decimal name of a number.
fn number_name(alloc: Global, number: u64) -> Result<Text, NoMemory>
    ensures { IfOk result (λ name. name ≡ decimal number) }
{
    let digits = number.to_string(alloc)?;
    Text::from_bytes(alloc, digits.as_bytes())
}

/// The names of the numbers from one to `count`.
#[tactic(auto, using(crate::proofs::Curried::numbers_none, crate::proofs::Curried::numbers_next))]
fn numbers(alloc: Global, span: Span, count: u64) -> Result<Listed<Exp>, NoMemory>
    ensures { IfOk result (λ exps. exps ≡ numbers span 1 count) }
{
    let mut exps = Vec::new(alloc);
    let mut number = 0;
    while number < count {
        number += 1;
        let name = number_name(alloc, number)?;
        exps.push(Exp {
            span,
            form: ExpForm::Name(name),
        })?;
    }
    Ok(Listed::of(exps))
}

/// One rule with a number for its pattern.
fn number_rule(alloc: Global, span: Span, number: u64, body: Exp) -> Result<Rule, NoMemory>
    ensures { IfOk result (λ rule. rule ≡ number_rule span number body) }
{
    let name = number_name(alloc, number)?;
    Ok(Rule {
        pat: Pat {
            span,
            form: PatForm::Name(name),
        },
        body,
    })
}

/// Functions of the numbers from 2 to `count`, one inside the other.
#[tactic(auto, using(crate::proofs::Curried::nested_none, crate::proofs::Curried::nested_next))]
fn nested(alloc: Global, span: Span, count: u64, body: Exp) -> Result<Exp, NoMemory>
    ensures { IfOk result (λ exp. exp ≡ nested span 2 (count - 1) body) }
{
    let mut body = body;
    let mut number = count;
    while 1 < number {
        let rule = number_rule(alloc, span, number, body)?;
        let mut rules = Vec::new(alloc);
        rules.push(rule)?;
        body = Exp {
            span,
            form: ExpForm::Fn(Listed::of(rules)),
        };
        number -= 1;
    }
    Ok(body)
}

/// The rule of a function of several patterns with these clauses.
#[tactic(auto, unfolding(grammar_rules::specs::Nodes::curried))]
pub fn curried(alloc: Global, span: Span, count: u64, rules: Listed<Rule>) -> Result<Rule, NoMemory>
    ensures { IfOk result (λ rule. rule ≡ curried span count rules) }
{
    let exps = numbers(alloc, span, count)?;
    let names = Exp {
        span,
        form: ExpForm::Tuple(exps),
    };
    let choice = Exp {
        span,
        form: ExpForm::Case(Boxed::new(alloc, names)?, rules),
    };
    let body = nested(alloc, span, count, choice)?;
    number_rule(alloc, span, 1, body)
}
