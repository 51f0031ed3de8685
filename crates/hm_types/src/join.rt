// Joins classes, and what has to be equal with them. Types may then hold themselves.
ghost use Rattle.std.specs.Prelude.{◌≡◌, ◌+◌, ◌∷◌, [], ◌++◌, ◌<◌, ◌≤◌, ℕ, length, true, false, IfOk, OnErr, Err};
ghost use Rattle.hm_types.specs.Classes.{at, Stands};
ghost use Rattle.hm_types.specs.Joining.{IsFine, IsLink, Within, pairs_of, PairsIn, Steps, Keeps, Frame, NoSolution, weight};
ghost use Rattle.hm_types.specs.declared.refusal.UnifyRefusal.TheVariants.{Clash};

use crate::{Node, UnifyRefusal};
use std::alloc::Global;

// The class that stands for this one.
pub(crate) fn root_of(parts: &[u32], nodes: &[Node], class: u32) -> u32
    requires fine { IsFine parts.now nodes.now }
    requires within { class < length nodes.now }
    ensures within { result ≤ class }
    ensures stands { Stands nodes.now class result }
    ensures last { IsLink (at nodes.now result) ≡ false }
{
    let _parts = parts;
    let mut found = class;
    while let Node::Link(next) = nodes[found as usize] {
        found = next;
    }
    found
}

// Adds the pairs of two lists to what is to be made equal.
fn push_pairs(work: &mut Vec<(u32, u32)>, xs: &[u32], ys: &[u32]) -> Result<(), UnifyRefusal>
    requires { length xs.now ≡ length ys.now }
    ensures pairs { IfOk result (λ _. work.new.items ≡ work.old.items ++ pairs_of xs.now ys.now) }
    ensures memory { result ≡ Err Clash → ⊥ }
{
    for i in 0..xs.len() {
        work.push((xs[i], ys[i]))?;
    }
    Ok(())
}

// Makes two classes one that stand for themselves.
fn merge(
    parts: &[u32],
    nodes: &mut [Node],
    low: u32,
    high: u32,
    work: &mut Vec<(u32, u32)>,
) -> Result<(), UnifyRefusal>
    requires fine { IsFine parts.now nodes.old }
    requires parts { Within (length nodes.old) parts.now }
    requires order { low < high }
    requires within { high < length nodes.old }
    requires roots { (IsLink (at nodes.old low) ≡ false) × (IsLink (at nodes.old high) ≡ false) }
    requires work { PairsIn (length nodes.old) work.old.items }
    ensures steps { IfOk result (λ _. Steps parts.now nodes.old ((low, high) ∷ work.old.items) nodes.new work.new.items) }
    ensures less { IfOk result (λ _. length work.new.items + weight nodes.new ≤ length work.old.items + weight nodes.old) }
    ensures others { (c : ℕ) → (c ≡ low → ⊥) → (c ≡ high → ⊥) → at nodes.new c ≡ at nodes.old c }
    ensures none { result ≡ Err Clash → NoSolution parts.now nodes.old ((low, high) ∷ work.old.items) }
    ensures err { OnErr result (nodes.new ≡ nodes.old) }
{
    match nodes[high as usize] {
        Node::Link(_) => unreachable!(),
        Node::Variable => {
            nodes[high as usize] = Node::Link(low);
            Ok(())
        }
        Node::Made(name, first, count) => match nodes[low as usize] {
            Node::Link(_) => unreachable!(),
            Node::Variable => {
                nodes[low as usize] = Node::Made(name, first, count);
                nodes[high as usize] = Node::Link(low);
                Ok(())
            }
            Node::Made(other, start, size) => {
                if other != name {
                    return Err(UnifyRefusal::Clash);
                }
                if size != count {
                    return Err(UnifyRefusal::Clash);
                }
                let mine = &parts[start as usize..start as usize + size as usize];
                let yours = &parts[first as usize..first as usize + count as usize];
                push_pairs(work, mine, yours)?;
                nodes[high as usize] = Node::Link(low);
                Ok(())
            }
        },
    }
}

// Makes two classes one, and lists the two that stood for them.
fn equate(
    parts: &[u32],
    nodes: &mut [Node],
    x: u32,
    y: u32,
    work: &mut Vec<(u32, u32)>,
    changed: &mut Vec<u32>,
) -> Result<(), UnifyRefusal>
    requires fine { IsFine parts.now nodes.old }
    requires parts { Within (length nodes.old) parts.now }
    requires first { x < length nodes.old }
    requires second { y < length nodes.old }
    requires work { PairsIn (length nodes.old) work.old.items }
    ensures steps { IfOk result (λ _. Steps parts.now nodes.old ((x, y) ∷ work.old.items) nodes.new work.new.items) }
    ensures less { IfOk result (λ _. length work.new.items + weight nodes.new ≤ length work.old.items + weight nodes.old) }
    ensures frame { IfOk result (λ _. Frame nodes.old nodes.new changed.old.items changed.new.items) }
    ensures none { result ≡ Err Clash → NoSolution parts.now nodes.old ((x, y) ∷ work.old.items) }
    ensures err { OnErr result (nodes.new ≡ nodes.old) }
{
    let p = root_of(parts, nodes, x);
    let q = root_of(parts, nodes, y);
    if p < q {
        changed.push(p)?;
        changed.push(q)?;
        return merge(parts, nodes, p, q, work);
    }
    if q < p {
        changed.push(p)?;
        changed.push(q)?;
        return merge(parts, nodes, q, p, work);
    }
    Ok(())
}

/// Joins classes until nothing is left to be made equal. Answers the classes that may have changed.
pub(crate) fn join(
    alloc: Global,
    parts: &[u32],
    nodes: &mut [Node],
    a: u32,
    b: u32,
) -> Result<Vec<u32>, UnifyRefusal>
    requires fine { IsFine parts.now nodes.old }
    requires parts { Within (length nodes.old) parts.now }
    requires first { a < length nodes.old }
    requires second { b < length nodes.old }
    ensures steps { IfOk result (λ changed. Steps parts.now nodes.old ((a, b) ∷ []) nodes.new []) }
    ensures frame { IfOk result (λ changed. Frame nodes.old nodes.new [] changed.items) }
    ensures none { result ≡ Err Clash → NoSolution parts.now nodes.old ((a, b) ∷ []) }
    ensures keeps { Keeps parts.now nodes.old nodes.new }
{
    let mut work: Vec<(u32, u32)> = Vec::new(alloc);
    let mut changed: Vec<u32> = Vec::new(alloc);
    work.push((a, b))?;
    while let Some((x, y)) = work.pop() {
        equate(parts, nodes, x, y, &mut work, &mut changed)?;
    }
    Ok(changed)
}
