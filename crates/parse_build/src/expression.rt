// Acts on expressions, rules and pieces.
ghost use Rattle.std.specs.Prelude.{◌≡◌, IfOk, OnOk};
ghost use Rattle.parse_build.specs.Building.{apply_exp};
ghost use Rattle.sml_grammar.specs.declared.act.ExpAct.{ExpAct};
ghost use Rattle.grammar_rules.specs.Nodes.{infix_exp};
ghost use Rattle.sml_syntax.specs.declared.tree.ExpForm.{ExpForm};

use parse_values::{ExpVal, Val, Values};
use sml_grammar::ExpAct;
use sml_syntax::{Boxed, Exp, ExpForm, Listed, NoMemory, Piece, Rule, Span, Text};
use std::alloc::Global;

#[tactic(auto, unfolding(crate::specs::Building::apply_exp))]
fn exp_first(alloc: Global, values: &mut Values, to: u64) -> Result<(), NoMemory>
    ensures { OnOk result (values.new ≡ apply_exp ExpAct.First to values.old) }
{
    let Some(first) = values.take_exp() else {
        return Ok(());
    };
    let mut all = Vec::new(alloc);
    all.push(first)?;
    values.push(Val::Exp(ExpVal::Many(Listed::of(all))))
}

#[tactic(auto, unfolding(crate::specs::Building::apply_exp))]
fn exp_push(values: &mut Values, to: u64) -> Result<(), NoMemory>
    ensures { OnOk result (values.new ≡ apply_exp ExpAct.Push to values.old) }
{
    let Some(next) = values.take_exp() else {
        return Ok(());
    };
    let Some(exps) = values.take_exps() else {
        return Ok(());
    };
    let mut all = exps.into_vec();
    all.push(next)?;
    values.push(Val::Exp(ExpVal::Many(Listed::of(all))))
}

#[tactic(auto, unfolding(crate::specs::Building::apply_exp))]
fn exp_tuple(values: &mut Values, from: u64, to: u64) -> Result<(), NoMemory>
    ensures { OnOk result (values.new ≡ apply_exp (ExpAct.Tuple from) to values.old) }
{
    let Some(exps) = values.take_exps() else {
        return Ok(());
    };
    values.push(Val::Exp(ExpVal::One(Exp {
        span: Span { from, to },
        form: ExpForm::Tuple(exps),
    })))
}

#[tactic(auto, unfolding(crate::specs::Building::apply_exp))]
fn exp_list(values: &mut Values, from: u64, to: u64) -> Result<(), NoMemory>
    ensures { OnOk result (values.new ≡ apply_exp (ExpAct.List from) to values.old) }
{
    let Some(exps) = values.take_exps() else {
        return Ok(());
    };
    values.push(Val::Exp(ExpVal::One(Exp {
        span: Span { from, to },
        form: ExpForm::List(exps),
    })))
}

#[tactic(auto, unfolding(crate::specs::Building::apply_exp))]
fn exp_seq(values: &mut Values, from: u64, to: u64) -> Result<(), NoMemory>
    ensures { OnOk result (values.new ≡ apply_exp (ExpAct.Seq from) to values.old) }
{
    let Some(exps) = values.take_exps() else {
        return Ok(());
    };
    values.push(Val::Exp(ExpVal::One(Exp {
        span: Span { from, to },
        form: ExpForm::Seq(exps),
    })))
}

#[tactic(auto, unfolding(crate::specs::Building::apply_exp))]
fn exp_app(alloc: Global, values: &mut Values, from: u64, to: u64) -> Result<(), NoMemory>
    ensures { OnOk result (values.new ≡ apply_exp (ExpAct.App from) to values.old) }
{
    let Some(argument) = values.take_exp() else {
        return Ok(());
    };
    let Some(function) = values.take_exp() else {
        return Ok(());
    };
    values.push(Val::Exp(ExpVal::One(Exp {
        span: Span { from, to },
        form: ExpForm::App(Boxed::new(alloc, function)?, Boxed::new(alloc, argument)?),
    })))
}

#[tactic(auto, unfolding(crate::specs::Building::apply_exp))]
fn exp_infix(alloc: Global, values: &mut Values, from: u64, to: u64) -> Result<(), NoMemory>
    ensures { OnOk result (values.new ≡ apply_exp (ExpAct.Infix from) to values.old) }
{
    let Some(right) = values.take_exp() else {
        return Ok(());
    };
    let Some(operator) = values.take_exp() else {
        return Ok(());
    };
    let Some(left) = values.take_exp() else {
        return Ok(());
    };
    let exp = infixed(alloc, Span { from, to }, operator, left, right)?;
    values.push(Val::Exp(ExpVal::One(exp)))
}

#[tactic(auto, unfolding(crate::specs::Building::apply_exp))]
fn exp_typed(alloc: Global, values: &mut Values, from: u64, to: u64) -> Result<(), NoMemory>
    ensures { OnOk result (values.new ≡ apply_exp (ExpAct.Typed from) to values.old) }
{
    let Some(ty) = values.take_ty() else {
        return Ok(());
    };
    let Some(body) = values.take_exp() else {
        return Ok(());
    };
    values.push(Val::Exp(ExpVal::One(Exp {
        span: Span { from, to },
        form: ExpForm::Typed(Boxed::new(alloc, body)?, ty),
    })))
}

#[tactic(auto, unfolding(crate::specs::Building::apply_exp))]
fn exp_both(alloc: Global, values: &mut Values, from: u64, to: u64) -> Result<(), NoMemory>
    ensures { OnOk result (values.new ≡ apply_exp (ExpAct.Both from) to values.old) }
{
    let Some(right) = values.take_exp() else {
        return Ok(());
    };
    let Some(left) = values.take_exp() else {
        return Ok(());
    };
    values.push(Val::Exp(ExpVal::One(Exp {
        span: Span { from, to },
        form: ExpForm::Both(Boxed::new(alloc, left)?, Boxed::new(alloc, right)?),
    })))
}

#[tactic(auto, unfolding(crate::specs::Building::apply_exp))]
fn exp_either(alloc: Global, values: &mut Values, from: u64, to: u64) -> Result<(), NoMemory>
    ensures { OnOk result (values.new ≡ apply_exp (ExpAct.Either from) to values.old) }
{
    let Some(right) = values.take_exp() else {
        return Ok(());
    };
    let Some(left) = values.take_exp() else {
        return Ok(());
    };
    values.push(Val::Exp(ExpVal::One(Exp {
        span: Span { from, to },
        form: ExpForm::Either(Boxed::new(alloc, left)?, Boxed::new(alloc, right)?),
    })))
}

#[tactic(auto, unfolding(crate::specs::Building::apply_exp))]
fn exp_handle(alloc: Global, values: &mut Values, from: u64, to: u64) -> Result<(), NoMemory>
    ensures { OnOk result (values.new ≡ apply_exp (ExpAct.Handle from) to values.old) }
{
    let Some(rules) = values.take_rules() else {
        return Ok(());
    };
    let Some(body) = values.take_exp() else {
        return Ok(());
    };
    values.push(Val::Exp(ExpVal::One(Exp {
        span: Span { from, to },
        form: ExpForm::Handle(Boxed::new(alloc, body)?, rules),
    })))
}

#[tactic(auto, unfolding(crate::specs::Building::apply_exp))]
fn exp_raise(alloc: Global, values: &mut Values, from: u64, to: u64) -> Result<(), NoMemory>
    ensures { OnOk result (values.new ≡ apply_exp (ExpAct.Raise from) to values.old) }
{
    let Some(body) = values.take_exp() else {
        return Ok(());
    };
    values.push(Val::Exp(ExpVal::One(Exp {
        span: Span { from, to },
        form: ExpForm::Raise(Boxed::new(alloc, body)?),
    })))
}

#[tactic(auto, unfolding(crate::specs::Building::apply_exp))]
fn exp_if(alloc: Global, values: &mut Values, from: u64, to: u64) -> Result<(), NoMemory>
    ensures { OnOk result (values.new ≡ apply_exp (ExpAct.If from) to values.old) }
{
    let Some(otherwise) = values.take_exp() else {
        return Ok(());
    };
    let Some(chosen) = values.take_exp() else {
        return Ok(());
    };
    let Some(test) = values.take_exp() else {
        return Ok(());
    };
    let form = choice(alloc, test, chosen, otherwise)?;
    values.push(Val::Exp(ExpVal::One(Exp {
        span: Span { from, to },
        form,
    })))
}

#[tactic(auto, unfolding(crate::specs::Building::apply_exp))]
fn exp_case(alloc: Global, values: &mut Values, from: u64, to: u64) -> Result<(), NoMemory>
    ensures { OnOk result (values.new ≡ apply_exp (ExpAct.Case from) to values.old) }
{
    let Some(rules) = values.take_rules() else {
        return Ok(());
    };
    let Some(body) = values.take_exp() else {
        return Ok(());
    };
    values.push(Val::Exp(ExpVal::One(Exp {
        span: Span { from, to },
        form: ExpForm::Case(Boxed::new(alloc, body)?, rules),
    })))
}

#[tactic(auto, unfolding(crate::specs::Building::apply_exp))]
fn exp_fn(values: &mut Values, from: u64, to: u64) -> Result<(), NoMemory>
    ensures { OnOk result (values.new ≡ apply_exp (ExpAct.Fn from) to values.old) }
{
    let Some(rules) = values.take_rules() else {
        return Ok(());
    };
    values.push(Val::Exp(ExpVal::One(Exp {
        span: Span { from, to },
        form: ExpForm::Fn(rules),
    })))
}

#[tactic(auto, unfolding(crate::specs::Building::apply_exp))]
fn exp_let(values: &mut Values, from: u64, to: u64) -> Result<(), NoMemory>
    ensures { OnOk result (values.new ≡ apply_exp (ExpAct.Let from) to values.old) }
{
    let Some(exps) = values.take_exps() else {
        return Ok(());
    };
    let Some(decs) = values.take_decs() else {
        return Ok(());
    };
    values.push(Val::Exp(ExpVal::One(Exp {
        span: Span { from, to },
        form: ExpForm::Let(decs, exps),
    })))
}

#[tactic(auto, unfolding(crate::specs::Building::apply_exp))]
fn exp_add_rule(values: &mut Values, to: u64) -> Result<(), NoMemory>
    ensures { OnOk result (values.new ≡ apply_exp ExpAct.AddRule to values.old) }
{
    let Some(body) = values.take_exp() else {
        return Ok(());
    };
    let Some(pat) = values.take_pat() else {
        return Ok(());
    };
    let Some(rules) = values.take_rules() else {
        return Ok(());
    };
    let mut all = rules.into_vec();
    all.push(Rule { pat, body })?;
    values.push(Val::Exp(ExpVal::Rules(Listed::of(all))))
}

#[tactic(auto, unfolding(crate::specs::Building::apply_exp))]
fn exp_plain(values: &mut Values, text: Text, to: u64) -> Result<(), NoMemory>
    ensures { OnOk result (values.new ≡ apply_exp (ExpAct.Plain text) to values.old) }
{
    let Some(pieces) = values.take_pieces() else {
        return Ok(());
    };
    let mut all = pieces.into_vec();
    all.push(Piece::Plain(text))?;
    values.push(Val::Exp(ExpVal::Pieces(Listed::of(all))))
}

#[tactic(auto, unfolding(crate::specs::Building::apply_exp))]
fn exp_empty_plain(alloc: Global, values: &mut Values, to: u64) -> Result<(), NoMemory>
    ensures { OnOk result (values.new ≡ apply_exp ExpAct.EmptyPlain to values.old) }
{
    let Some(pieces) = values.take_pieces() else {
        return Ok(());
    };
    let mut all = pieces.into_vec();
    all.push(Piece::Plain(Text::from_vec(Vec::new(alloc))))?;
    values.push(Val::Exp(ExpVal::Pieces(Listed::of(all))))
}

#[tactic(auto, unfolding(crate::specs::Building::apply_exp))]
fn exp_add_anti(values: &mut Values, to: u64) -> Result<(), NoMemory>
    ensures { OnOk result (values.new ≡ apply_exp ExpAct.AddAnti to values.old) }
{
    let Some(body) = values.take_exp() else {
        return Ok(());
    };
    let Some(pieces) = values.take_pieces() else {
        return Ok(());
    };
    let mut all = pieces.into_vec();
    all.push(Piece::Anti(body))?;
    values.push(Val::Exp(ExpVal::Pieces(Listed::of(all))))
}

#[tactic(auto, unfolding(crate::specs::Building::apply_exp))]
fn exp_quote(values: &mut Values, from: u64, to: u64) -> Result<(), NoMemory>
    ensures { OnOk result (values.new ≡ apply_exp (ExpAct.Quote from) to values.old) }
{
    let Some(pieces) = values.take_pieces() else {
        return Ok(());
    };
    values.push(Val::Exp(ExpVal::One(Exp {
        span: Span { from, to },
        form: ExpForm::Quote(pieces),
    })))
}

/// Acts on expressions, rules and pieces.
#[tactic(auto, unfolding(crate::specs::Building::apply_exp))]
pub fn perform_exp(alloc: Global, values: &mut Values, act: ExpAct, to: u64) -> Result<(), NoMemory>
    ensures { OnOk result (values.new ≡ apply_exp act to values.old) }
{
    match act {
        ExpAct::Int(from, number) => values.push(Val::Exp(ExpVal::One(Exp {
            span: Span { from, to },
            form: ExpForm::Int(number),
        }))),
        ExpAct::Char(from, byte) => values.push(Val::Exp(ExpVal::One(Exp {
            span: Span { from, to },
            form: ExpForm::Char(byte),
        }))),
        ExpAct::Str(from, text) => values.push(Val::Exp(ExpVal::One(Exp {
            span: Span { from, to },
            form: ExpForm::Str(text),
        }))),
        ExpAct::Name(from, name) => values.push(Val::Exp(ExpVal::One(Exp {
            span: Span { from, to },
            form: ExpForm::Name(name),
        }))),
        ExpAct::Unit(from) => values.push(Val::Exp(ExpVal::One(Exp {
            span: Span { from, to },
            form: ExpForm::Unit,
        }))),
        ExpAct::NoExps => values.push(Val::Exp(ExpVal::Many(Listed::of(Vec::new(alloc))))),
        ExpAct::First => exp_first(alloc, values, to),
        ExpAct::Push => exp_push(values, to),
        ExpAct::Tuple(from) => exp_tuple(values, from, to),
        ExpAct::List(from) => exp_list(values, from, to),
        ExpAct::Seq(from) => exp_seq(values, from, to),
        ExpAct::App(from) => exp_app(alloc, values, from, to),
        ExpAct::Infix(from) => exp_infix(alloc, values, from, to),
        ExpAct::Typed(from) => exp_typed(alloc, values, from, to),
        ExpAct::Both(from) => exp_both(alloc, values, from, to),
        ExpAct::Either(from) => exp_either(alloc, values, from, to),
        ExpAct::Handle(from) => exp_handle(alloc, values, from, to),
        ExpAct::Raise(from) => exp_raise(alloc, values, from, to),
        ExpAct::If(from) => exp_if(alloc, values, from, to),
        ExpAct::Case(from) => exp_case(alloc, values, from, to),
        ExpAct::Fn(from) => exp_fn(values, from, to),
        ExpAct::Let(from) => exp_let(values, from, to),
        ExpAct::NoRules => values.push(Val::Exp(ExpVal::Rules(Listed::of(Vec::new(alloc))))),
        ExpAct::AddRule => exp_add_rule(values, to),
        ExpAct::NoPieces => values.push(Val::Exp(ExpVal::Pieces(Listed::of(Vec::new(alloc))))),
        ExpAct::Plain(text) => exp_plain(values, text, to),
        ExpAct::EmptyPlain => exp_empty_plain(alloc, values, to),
        ExpAct::AddAnti => exp_add_anti(values, to),
        ExpAct::Quote(from) => exp_quote(values, from, to),
    }
}

/// An operator applied to its two sides.
fn infixed(alloc: Global, span: Span, operator: Exp, left: Exp, right: Exp) -> Result<Exp, NoMemory>
    ensures { IfOk result (λ exp. exp ≡ infix_exp span operator left right) }
{
    let mut sides = Vec::new(alloc);
    sides.push(left)?;
    sides.push(right)?;
    let both = Exp {
        span,
        form: ExpForm::Tuple(Listed::of(sides)),
    };
    Ok(Exp {
        span,
        form: ExpForm::App(Boxed::new(alloc, operator)?, Boxed::new(alloc, both)?),
    })
}

/// The form of a choice.
fn choice(alloc: Global, test: Exp, chosen: Exp, otherwise: Exp) -> Result<ExpForm, NoMemory>
    ensures { IfOk result (λ form. form ≡ ExpForm.If test chosen otherwise) }
{
    Ok(ExpForm::If(
        Boxed::new(alloc, test)?,
        Boxed::new(alloc, chosen)?,
        Boxed::new(alloc, otherwise)?,
    ))
}
