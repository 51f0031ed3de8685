// Hands what is asked of a class on to its parts.
ghost use Rattle.std.specs.Prelude.{◌≡◌, ◌+◌, ◌∷◌, [], ◌++◌, ◌<◌, ◌≤◌, ℕ, length, true, false, IfOk, OnErr, Err};
ghost use Rattle.hm_types.specs.Classes.{Allows, Respects, at, asked_at};
ghost use Rattle.hm_types.specs.Asking.{Told, Below, both_of, OfParts, Closes, ClosedBut, Spread, Lowers, LacksAsked};
ghost use Rattle.hm_types.specs.Joining.{IsFine, Within};
ghost use Rattle.hm_types.specs.Kept.{Sorted};
ghost use Rattle.hm_types.specs.declared.node.Equality.TheVariants.{Never};
ghost use Rattle.hm_types.specs.declared.refusal.UnifyRefusal.TheVariants as refusal;

use crate::{Asked, Equality, Node, TypeName, UnifyRefusal};
use std::alloc::Global;

// All that two ask.
fn both(a: Asked, b: Asked) -> Asked
    ensures { result ≡ both_of a b }
{
    Asked {
        equality: a.equality || b.equality,
        birth: a.birth.min(b.birth),
    }
}

// Asks more of a class, and lists it where that is news.
fn ask(
    asked: &mut [Asked],
    class: u32,
    more: Asked,
    work: &mut Vec<u32>,
) -> Result<(), UnifyRefusal>
    requires within { class < length asked.old }
    ensures told { IfOk result (λ _. Told (λ names s. Allows names more (s class)) asked.old asked.new work.old.items work.new.items) }
    ensures met { IfOk result (λ _. Below more (asked_at asked.new class)) }
    ensures memory { result ≡ Err refusal.Clash → ⊥ }
    ensures err { OnErr result (asked.new ≡ asked.old) }
{
    let now = asked[class as usize];
    let met = both(now, more);
    if met == now {
        return Ok(());
    }
    work.push(class)?;
    asked[class as usize] = met;
    Ok(())
}

// What a class asks of its parts, by the kind of its name.
fn asked_of_parts(equality: Equality, own: Asked) -> Result<Asked, UnifyRefusal>
    ensures parts { IfOk result (λ more. OfParts equality own more) }
    ensures none { result ≡ Err refusal.Clash → (own.equality ≡ true) × (equality ≡ Never) }
{
    match equality {
        Equality::Parts => Ok(own),
        Equality::Always => Ok(Asked {
            equality: false,
            birth: own.birth,
        }),
        Equality::Never => {
            if own.equality {
                return Err(UnifyRefusal::Clash);
            }
            Ok(own)
        }
    }
}

// Asks the parts of a class for what is asked of it.
fn tell(
    names: &[TypeName],
    parts: &[u32],
    nodes: &[Node],
    asked: &mut [Asked],
    class: u32,
    work: &mut Vec<u32>,
) -> Result<(), UnifyRefusal>
    requires fine { IsFine parts.now nodes.now }
    requires parts { Within (length nodes.now) parts.now }
    requires sorted { Sorted names.now nodes.now }
    requires same { length asked.old ≡ length nodes.now }
    requires within { class < length nodes.now }
    ensures told { IfOk result (λ _. Told (λ n s. (n ≡ names.now) × Respects parts.now nodes.now s) asked.old asked.new work.old.items work.new.items) }
    ensures closes { IfOk result (λ _. Closes names.now parts.now asked.new (asked_at asked.old class) (at nodes.now class)) }
    ensures none { result ≡ Err refusal.Clash → LacksAsked names.now parts.now nodes.now asked.old }
    ensures lowers { Lowers asked.old asked.new }
{
    let own = asked[class as usize];
    match nodes[class as usize] {
        Node::Variable => Ok(()),
        Node::Link(older) => ask(asked, older, own, work),
        Node::Made(name, first, count) => {
            let named = names[name as usize];
            if own.birth < named.birth {
                return Err(UnifyRefusal::Clash);
            }
            let more = asked_of_parts(named.equality, own)?;
            let list = &parts[first as usize..first as usize + count as usize];
            for i in 0..list.len() {
                ask(asked, list[i], more, work)?;
            }
            Ok(())
        }
    }
}

/// Asks the parts of the listed classes, and theirs, for what is asked of the classes.
pub(crate) fn spread(
    alloc: Global,
    names: &[TypeName],
    parts: &[u32],
    nodes: &[Node],
    asked: &mut [Asked],
    changed: &[u32],
) -> Result<(), UnifyRefusal>
    requires fine { IsFine parts.now nodes.now }
    requires parts { Within (length nodes.now) parts.now }
    requires sorted { Sorted names.now nodes.now }
    requires same { length asked.old ≡ length nodes.now }
    requires changed { Within (length nodes.now) changed.now }
    requires closed { ClosedBut names.now parts.now nodes.now asked.old changed.now }
    ensures spread { IfOk result (λ _. Spread names.now parts.now nodes.now asked.old asked.new []) }
    ensures none { result ≡ Err refusal.Clash → LacksAsked names.now parts.now nodes.now asked.old }
    ensures lowers { Lowers asked.old asked.new }
{
    let mut work: Vec<u32> = Vec::new(alloc);
    work.extend_from_slice(changed)?;
    while let Some(class) = work.pop() {
        tell(names, parts, nodes, asked, class, &mut work)?;
    }
    Ok(())
}
