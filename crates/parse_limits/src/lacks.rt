// The first lack that acts tell of.
ghost use Rattle.std.specs.Prelude.{◌≡◌, [], ◌++◌, IfOk, OnOk, option_copied};
ghost use Rattle.parse_limits.specs.Lacks.{own_types, own_of, vars_after, variables_of, same_name, pushed, applied, ends_applied, lack_of, own_after, lower, first_lack};

use crate::asked::{
    added_var, begins_datatypes, begins_vars, ends_datatypes, head_of, is_first, is_none, is_push,
    var_of,
};
use sml_grammar::{Act, Made, TyAct};
use sml_syntax::{Lack, Listed, NoMemory, Text};
use std::alloc::Global;

/// Variables and name of a type.
type Own = (Listed<Text>, Text);

fn copy_names(alloc: Global, names: &[Text]) -> Result<Listed<Text>, NoMemory>
    ensures { IfOk result (λ copies. copies ≡ names.now) }
{
    let mut copies = Vec::new(alloc);
    for name in names {
        copies.push(name.try_copy(alloc)?)?;
    }
    Ok(Listed::of(copies))
}

/// Adds a type, if one is named.
fn add_own(
    alloc: Global,
    own: &mut Vec<Own>,
    vars: &[Text],
    name: Option<&Text>,
) -> Result<(), NoMemory>
    ensures { OnOk result (own.new.items ≡ own.old.items ++ own_of vars.now (option_copied name.entry)) }
{
    match name {
        Some(name) => {
            let names = copy_names(alloc, vars)?;
            let name = name.try_copy(alloc)?;
            own.push((names, name))?;
            Ok(())
        }
        None => Ok(()),
    }
}

/// The variables after an act.
fn next_vars(alloc: Global, vars: Vec<Text>, act: &Act) -> Result<Vec<Text>, NoMemory>
    ensures { IfOk result (λ next. next.items ≡ vars_after vars.items act.now) }
{
    let mut next = if begins_vars(act) {
        Vec::new(alloc)
    } else {
        vars
    };
    match added_var(act) {
        Some(name) => {
            next.push(name.try_copy(alloc)?)?;
            Ok(next)
        }
        None => Ok(next),
    }
}

/// The types of the datatype declaration whose acts come next.
fn own_types(alloc: Global, acts: &[Made]) -> Result<Vec<Own>, NoMemory>
    ensures { IfOk result (λ own. own.items ≡ own_types [] acts.now) }
{
    let mut own = Vec::new(alloc);
    let mut vars = Vec::new(alloc);
    for made in acts {
        if ends_datatypes(&made.act) {
            return Ok(own);
        }
        add_own(alloc, &mut own, vars.as_slice(), head_of(&made.act))?;
        vars = next_vars(alloc, vars, &made.act)?;
    }
    Ok(own)
}

/// The variables of a type, where the declaration has one of that name.
fn variables_of<'a>(name: &[u8], own: &'a [Own]) -> Option<&'a [Text]>
    ensures { option_copied result ≡ variables_of name.now own.now }
{
    for types in own {
        if types.1.as_bytes() == name {
            return Some(types.0.as_slice());
        }
    }
    None
}

fn same_name(name: &Text, found: Option<&Text>) -> bool
    ensures { result ≡ same_name name.now (option_copied found.entry) }
{
    match found {
        Some(found) => found.as_bytes() == name.as_bytes(),
        None => false,
    }
}

/// Whether acts make further arguments, which are these variables.
fn pushed(names: &[Text], acts: &[Made]) -> bool
    ensures { result ≡ pushed names.now acts.now }
{
    let mut at = 0;
    for name in names {
        if acts.len() - at < 2 {
            return false;
        }
        if !same_name(name, var_of(&acts[at].act)) {
            return false;
        }
        if !is_push(&acts[at + 1].act) {
            return false;
        }
        at += 2;
    }
    at == acts.len()
}

/// Whether acts make a list of arguments, which are these variables.
#[tactic(auto, unfolding(crate::specs::Lacks::applied))]
fn applied(names: &[Text], acts: &[Made]) -> bool
    ensures { result ≡ applied names.now acts.now }
{
    match names {
        [] => match acts {
            [m] => is_none(&m.act),
            _ => false,
        },
        [name, others @ ..] => match acts {
            [m, n, rest @ ..] => {
                if same_name(name, var_of(&m.act)) {
                    if is_first(&n.act) {
                        pushed(others, rest)
                    } else {
                        false
                    }
                } else {
                    false
                }
            }
            _ => false,
        },
    }
}

/// Whether at the end of acts a list of arguments is made, which are these variables.
#[tactic(auto, unfolding(crate::specs::Lacks::ends_applied))]
fn ends_applied(names: &[Text], before: &[Made]) -> bool
    ensures { result ≡ ends_applied names.now before.now }
{
    let count = names.len();
    let further = count.max(1);
    if before.len() < count {
        return false;
    }
    let rest = before.len() - count;
    if rest < further {
        return false;
    }
    applied(names, &before[rest - further..])
}

/// The lack of an act, behind the acts before it and in a declaration of these types.
#[tactic(auto, unfolding(crate::specs::Lacks::lack_of))]
fn lack_of(own: &[Own], before: &[Made], act: &Act) -> Option<(u64, Lack)>
    ensures { result ≡ lack_of own.now before.now act.now }
{
    match act {
        Act::Lack(place, lack) => Some((*place, *lack)),
        Act::Ty(act) => match act {
            TyAct::Con(from, name) => match variables_of(name.as_bytes(), own) {
                Some(vars) => {
                    if ends_applied(vars, before) {
                        None
                    } else {
                        Some((*from, Lack::NestedType))
                    }
                }
                None => None,
            },
            _ => None,
        },
        _ => None,
    }
}

/// Of two lacks that of the lower place.
fn lower(first: Option<(u64, Lack)>, second: Option<(u64, Lack)>) -> Option<(u64, Lack)>
    ensures { result ≡ lower first second }
{
    match first {
        None => second,
        Some(first) => match second {
            None => Some(first),
            Some(second) => {
                if second.0 < first.0 {
                    Some(second)
                } else {
                    Some(first)
                }
            }
        },
    }
}

/// The types of the declaration behind an act, with the acts that follow it.
fn next_own(alloc: Global, own: Vec<Own>, act: &Act, more: &[Made]) -> Result<Vec<Own>, NoMemory>
    ensures { IfOk result (λ next. next.items ≡ own_after own.items act.now more.now) }
{
    if begins_datatypes(act) {
        own_types(alloc, more)
    } else if ends_datatypes(act) {
        Ok(Vec::new(alloc))
    } else {
        Ok(own)
    }
}

/// The lack of the lowest place.
pub fn first_lack(alloc: Global, acts: &[Made]) -> Result<Option<(u64, Lack)>, NoMemory>
    ensures { IfOk result (λ found. found ≡ first_lack acts.now) }
{
    let mut found = None;
    let mut own = Vec::new(alloc);
    for i in 0..acts.len() {
        let act = &acts[i].act;
        found = lower(found, lack_of(own.as_slice(), &acts[..i], act));
        own = next_own(alloc, own, act, &acts[i + 1..])?;
    }
    Ok(found)
}
