// How many parts the widest tuple of a program has, and the tuples that abbreviations need.
use sml_syntax::{Dec, DecForm, Exp, ExpForm, Pat, PatForm, Piece, Program, Rule, Ty, TyForm};

// A count as a number of parts.
fn parts(count: usize) -> u32 {
    count.min(4_294_960_000) as u32
}

/// The parts of the widest tuple; an abbreviation counts as one of its parameters and what it stands for.
pub fn widest(program: &Program) -> u32 {
    decs_width(program.items.as_slice())
}

#[cycle(type_widths)]
fn ty_width(t: &Ty) -> u32 {
    match &t.form {
        TyForm::Var(_) => 0,
        TyForm::Con(_, ts) => tys_width(ts.as_slice()),
        TyForm::Tuple(ts) => parts(ts.as_slice().len()).max(tys_width(ts.as_slice())),
        TyForm::Arrow(from, to) => ty_width(from.get()).max(ty_width(to.get())),
    }
}

#[cycle(type_widths)]
fn tys_width(ts: &[Ty]) -> u32 {
    let mut most = 0;
    for t in ts {
        most = ty_width(t).max(most);
    }
    most
}

#[cycle(pattern_widths)]
fn pat_width(p: &Pat) -> u32 {
    match &p.form {
        PatForm::Any
        | PatForm::Int(_)
        | PatForm::Char(_)
        | PatForm::Str(_)
        | PatForm::Unit
        | PatForm::Name(_) => 0,
        PatForm::Tuple(ps) => parts(ps.as_slice().len()).max(pats_width(ps.as_slice())),
        PatForm::List(ps) => pats_width(ps.as_slice()),
        PatForm::Con(_, part) => pat_width(part.get()),
        PatForm::Typed(part, t) => pat_width(part.get()).max(ty_width(t)),
    }
}

#[cycle(pattern_widths)]
fn pats_width(ps: &[Pat]) -> u32 {
    let mut most = 0;
    for p in ps {
        most = pat_width(p).max(most);
    }
    most
}

#[cycle(widths)]
fn exp_width(e: &Exp) -> u32 {
    match &e.form {
        ExpForm::Int(_) | ExpForm::Char(_) | ExpForm::Str(_) | ExpForm::Name(_) | ExpForm::Unit =>
            0,
        ExpForm::Tuple(es) => parts(es.as_slice().len()).max(exps_width(es.as_slice())),
        ExpForm::List(es) | ExpForm::Seq(es) => exps_width(es.as_slice()),
        ExpForm::App(left, right) | ExpForm::Both(left, right) | ExpForm::Either(left, right) => {
            exp_width(left.get()).max(exp_width(right.get()))
        }
        ExpForm::Let(ds, es) => decs_width(ds.as_slice()).max(exps_width(es.as_slice())),
        ExpForm::Fn(rules) => rules_width(rules.as_slice()),
        ExpForm::Case(part, rules) | ExpForm::Handle(part, rules) => {
            exp_width(part.get()).max(rules_width(rules.as_slice()))
        }
        ExpForm::Raise(part) => exp_width(part.get()),
        ExpForm::If(test, chosen, otherwise) => {
            let most = exp_width(test.get()).max(exp_width(chosen.get()));
            exp_width(otherwise.get()).max(most)
        }
        ExpForm::Quote(pieces) => pieces_width(pieces.as_slice()),
        ExpForm::Typed(part, t) => exp_width(part.get()).max(ty_width(t)),
    }
}

#[cycle(widths)]
fn exps_width(es: &[Exp]) -> u32 {
    let mut most = 0;
    for e in es {
        most = exp_width(e).max(most);
    }
    most
}

#[cycle(widths)]
fn pieces_width(pieces: &[Piece]) -> u32 {
    let mut most = 0;
    for piece in pieces {
        if let Piece::Anti(part) = piece {
            most = exp_width(part).max(most);
        }
    }
    most
}

#[cycle(widths)]
fn rules_width(rules: &[Rule]) -> u32 {
    let mut most = 0;
    for rule in rules {
        most = rule_width(rule).max(most);
    }
    most
}

#[cycle(widths)]
fn rule_width(rule: &Rule) -> u32 {
    pat_width(&rule.pat).max(exp_width(&rule.body))
}

#[cycle(widths)]
fn decs_width(ds: &[Dec]) -> u32 {
    let mut most = 0;
    for d in ds {
        most = dec_width(d).max(most);
    }
    most
}

#[cycle(widths)]
fn dec_width(d: &Dec) -> u32 {
    let mut most = 0;
    match &d.form {
        DecForm::Val(binds) => {
            for bind in binds.as_slice() {
                most = pat_width(&bind.0).max(most);
                most = exp_width(&bind.1).max(most);
            }
        }
        DecForm::ValRec(binds) => {
            for bind in binds.as_slice() {
                most = rules_width(bind.1.as_slice()).max(most);
            }
        }
        DecForm::Abbrev(binds) => {
            for bind in binds.as_slice() {
                most = parts(bind.0.as_slice().len()).saturating_add(1).max(most);
                most = ty_width(&bind.2).max(most);
            }
        }
        DecForm::DataDef(binds) => {
            for bind in binds.as_slice() {
                for constructor in bind.2.as_slice() {
                    most = argument_width(&constructor.1).max(most);
                }
            }
        }
        DecForm::ExnDef(constructors) => {
            for constructor in constructors.as_slice() {
                most = argument_width(&constructor.1).max(most);
            }
        }
        DecForm::Local(hidden, shown) => {
            most = decs_width(hidden.as_slice()).max(decs_width(shown.as_slice()));
        }
    }
    most
}

fn argument_width(argument: &Option<Ty>) -> u32 {
    match argument {
        Some(t) => ty_width(t),
        None => 0,
    }
}
