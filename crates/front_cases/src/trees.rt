// Trees as texts: a leaf as itself, any other node in brackets behind a word for its form. Each node stands behind its
// span where spans are told.
use case_lines::show_text;
use sml_syntax::{
    Dec, DecForm, Exp, ExpForm, NoMemory, Pat, PatForm, Piece, Rule, Span, Text, Ty, TyForm,
};

fn show_span(out: &mut String, span: Span, spans: bool) -> Result<(), NoMemory> {
    if spans {
        write!(out, "{}-{}:", span.from, span.to)?;
    }
    Ok(())
}

fn show_name(out: &mut String, before: &str, name: &Text, behind: &str) -> Result<(), NoMemory> {
    out.push_str(before)?;
    show_text(out, name.as_bytes(), b'\\')?;
    out.push_str(behind)?;
    Ok(())
}

#[cycle(shown_types)]
fn show_types(out: &mut String, types: &[Ty], spans: bool) -> Result<(), NoMemory> {
    for ty in types {
        out.push_str(" ")?;
        show_type(out, ty, spans)?;
    }
    Ok(())
}

#[cycle(shown_types)]
fn show_type(out: &mut String, ty: &Ty, spans: bool) -> Result<(), NoMemory> {
    show_span(out, ty.span, spans)?;
    match &ty.form {
        TyForm::Var(name) => return show_name(out, "", name, ""),
        TyForm::Con(name, types) => {
            show_name(out, "(type ", name, "")?;
            show_types(out, types.as_slice(), spans)?;
        }
        TyForm::Tuple(types) => {
            out.push_str("(tuple")?;
            show_types(out, types.as_slice(), spans)?;
        }
        TyForm::Arrow(from, to) => {
            out.push_str("(arrow ")?;
            show_type(out, from.get(), spans)?;
            out.push_str(" ")?;
            show_type(out, to.get(), spans)?;
        }
    }
    out.push_str(")")?;
    Ok(())
}

#[cycle(shown_patterns)]
fn show_patterns(out: &mut String, pats: &[Pat], spans: bool) -> Result<(), NoMemory> {
    for pat in pats {
        out.push_str(" ")?;
        show_pattern(out, pat, spans)?;
    }
    Ok(())
}

#[cycle(shown_patterns)]
fn show_pattern(out: &mut String, pat: &Pat, spans: bool) -> Result<(), NoMemory> {
    show_span(out, pat.span, spans)?;
    match &pat.form {
        PatForm::Any => out.push_str("_")?,
        PatForm::Int(number) => write!(out, "{number}")?,
        PatForm::Char(byte) => write!(out, "#{byte}")?,
        PatForm::Str(text) => show_name(out, "'", text, "'")?,
        PatForm::Unit => out.push_str("()")?,
        PatForm::Name(name) => show_name(out, "", name, "")?,
        PatForm::Tuple(pats) => {
            out.push_str("(tuple")?;
            show_patterns(out, pats.as_slice(), spans)?;
            out.push_str(")")?;
        }
        PatForm::List(pats) => {
            out.push_str("(list")?;
            show_patterns(out, pats.as_slice(), spans)?;
            out.push_str(")")?;
        }
        PatForm::Con(name, argument) => {
            show_name(out, "(con ", name, " ")?;
            show_pattern(out, argument.get(), spans)?;
            out.push_str(")")?;
        }
        PatForm::Typed(body, ty) => {
            out.push_str("(typed ")?;
            show_pattern(out, body.get(), spans)?;
            out.push_str(" ")?;
            show_type(out, ty, spans)?;
            out.push_str(")")?;
        }
    }
    Ok(())
}

#[cycle(shown_programs)]
fn show_rules(out: &mut String, rules: &[Rule], spans: bool) -> Result<(), NoMemory> {
    for rule in rules {
        out.push_str(" [")?;
        show_pattern(out, &rule.pat, spans)?;
        out.push_str(" ")?;
        show_expression(out, &rule.body, spans)?;
        out.push_str("]")?;
    }
    Ok(())
}

#[cycle(shown_programs)]
fn show_pieces(out: &mut String, pieces: &[Piece], spans: bool) -> Result<(), NoMemory> {
    for piece in pieces {
        match piece {
            Piece::Plain(text) => show_name(out, " '", text, "'")?,
            Piece::Anti(exp) => {
                out.push_str(" ")?;
                show_expression(out, exp, spans)?;
            }
        }
    }
    Ok(())
}

#[cycle(shown_programs)]
fn show_listed(out: &mut String, word: &str, exps: &[Exp], spans: bool) -> Result<(), NoMemory> {
    out.push_str(word)?;
    for exp in exps {
        out.push_str(" ")?;
        show_expression(out, exp, spans)?;
    }
    Ok(())
}

#[cycle(shown_programs)]
fn show_expression(out: &mut String, exp: &Exp, spans: bool) -> Result<(), NoMemory> {
    show_span(out, exp.span, spans)?;
    match &exp.form {
        ExpForm::Int(number) => return Ok(write!(out, "{number}")?),
        ExpForm::Char(byte) => return Ok(write!(out, "#{byte}")?),
        ExpForm::Str(text) => return show_name(out, "'", text, "'"),
        ExpForm::Name(name) => return show_name(out, "", name, ""),
        ExpForm::Unit => out.push_str("(")?,
        ExpForm::Tuple(exps) => show_listed(out, "(tuple", exps.as_slice(), spans)?,
        ExpForm::List(exps) => show_listed(out, "(list", exps.as_slice(), spans)?,
        ExpForm::Seq(exps) => show_listed(out, "(seq", exps.as_slice(), spans)?,
        ExpForm::App(function, argument) => {
            out.push_str("(app ")?;
            show_expression(out, function.get(), spans)?;
            out.push_str(" ")?;
            show_expression(out, argument.get(), spans)?;
        }
        ExpForm::Let(decs, exps) => {
            out.push_str("(let [")?;
            show_declarations(out, decs.as_slice(), spans)?;
            show_listed(out, "]", exps.as_slice(), spans)?;
        }
        ExpForm::Fn(rules) => {
            out.push_str("(fn")?;
            show_rules(out, rules.as_slice(), spans)?;
        }
        ExpForm::Case(body, rules) => {
            out.push_str("(case ")?;
            show_expression(out, body.get(), spans)?;
            show_rules(out, rules.as_slice(), spans)?;
        }
        ExpForm::Handle(body, rules) => {
            out.push_str("(handle ")?;
            show_expression(out, body.get(), spans)?;
            show_rules(out, rules.as_slice(), spans)?;
        }
        ExpForm::Raise(body) => {
            out.push_str("(raise ")?;
            show_expression(out, body.get(), spans)?;
        }
        ExpForm::If(test, chosen, otherwise) => {
            out.push_str("(if ")?;
            show_expression(out, test.get(), spans)?;
            out.push_str(" ")?;
            show_expression(out, chosen.get(), spans)?;
            out.push_str(" ")?;
            show_expression(out, otherwise.get(), spans)?;
        }
        ExpForm::Both(left, right) => {
            out.push_str("(andalso ")?;
            show_expression(out, left.get(), spans)?;
            out.push_str(" ")?;
            show_expression(out, right.get(), spans)?;
        }
        ExpForm::Either(left, right) => {
            out.push_str("(orelse ")?;
            show_expression(out, left.get(), spans)?;
            out.push_str(" ")?;
            show_expression(out, right.get(), spans)?;
        }
        ExpForm::Quote(pieces) => {
            out.push_str("(quote")?;
            show_pieces(out, pieces.as_slice(), spans)?;
        }
        ExpForm::Typed(body, ty) => {
            out.push_str("(typed ")?;
            show_expression(out, body.get(), spans)?;
            out.push_str(" ")?;
            show_type(out, ty, spans)?;
        }
    }
    out.push_str(")")?;
    Ok(())
}

fn show_variables(out: &mut String, names: &[Text]) -> Result<(), NoMemory> {
    for (i, name) in names.iter().enumerate() {
        show_name(out, if 0 < i { " " } else { "" }, name, "")?;
    }
    Ok(())
}

fn show_constructors(
    out: &mut String,
    constructors: &[(Text, Option<Ty>)],
    spans: bool,
) -> Result<(), NoMemory> {
    for (name, argument) in constructors {
        show_name(out, " [", name, "")?;
        if let Some(ty) = argument {
            out.push_str(" ")?;
            show_type(out, ty, spans)?;
        }
        out.push_str("]")?;
    }
    Ok(())
}

/// Writes declarations, parted by spaces.
#[cycle(shown_programs)]
pub(crate) fn show_declarations(
    out: &mut String,
    decs: &[Dec],
    spans: bool,
) -> Result<(), NoMemory> {
    for (i, dec) in decs.iter().enumerate() {
        if 0 < i {
            out.push_str(" ")?;
        }
        show_declaration(out, dec, spans)?;
    }
    Ok(())
}

#[cycle(shown_programs)]
fn show_declaration(out: &mut String, dec: &Dec, spans: bool) -> Result<(), NoMemory> {
    show_span(out, dec.span, spans)?;
    match &dec.form {
        DecForm::Val(binds) => {
            out.push_str("(val")?;
            for (pat, exp) in binds.as_slice() {
                out.push_str(" [")?;
                show_pattern(out, pat, spans)?;
                out.push_str(" ")?;
                show_expression(out, exp, spans)?;
                out.push_str("]")?;
            }
        }
        DecForm::ValRec(binds) => {
            out.push_str("(fun")?;
            for (name, rules) in binds.as_slice() {
                show_name(out, " [", name, "")?;
                show_rules(out, rules.as_slice(), spans)?;
                out.push_str("]")?;
            }
        }
        DecForm::Abbrev(binds) => {
            out.push_str("(type")?;
            for (names, name, ty) in binds.as_slice() {
                out.push_str(" [[")?;
                show_variables(out, names.as_slice())?;
                show_name(out, "] ", name, " ")?;
                show_type(out, ty, spans)?;
                out.push_str("]")?;
            }
        }
        DecForm::DataDef(binds) => {
            out.push_str("(datatype")?;
            for (names, name, constructors) in binds.as_slice() {
                out.push_str(" [[")?;
                show_variables(out, names.as_slice())?;
                show_name(out, "] ", name, "")?;
                show_constructors(out, constructors.as_slice(), spans)?;
                out.push_str("]")?;
            }
        }
        DecForm::ExnDef(constructors) => {
            out.push_str("(exception")?;
            show_constructors(out, constructors.as_slice(), spans)?;
        }
        DecForm::Local(hidden, shown) => {
            out.push_str("(local [")?;
            show_declarations(out, hidden.as_slice(), spans)?;
            out.push_str("] [")?;
            show_declarations(out, shown.as_slice(), spans)?;
            out.push_str("]")?;
        }
    }
    out.push_str(")")?;
    Ok(())
}
