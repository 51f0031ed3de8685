// Looks for a type that holds itself, below the classes that were joined.
ghost use Rattle.std.specs.Prelude.{◌≡◌, ◌+◌, ◌∷◌, [], ◌<◌, ◌≤◌, ℕ, length, true, false, IfOk, IfSome, IfNone};
ghost use Rattle.hm_types.specs.Classes.{at, asked_at, Respects};
ghost use Rattle.hm_types.specs.Joining.{IsFine, Within};
ghost use Rattle.hm_types.specs.Searching.{Child, IsReady, Numbered, Searched, Stamped, IsPath, IsEndless, mark_at};

use crate::{Asked, Node};
use std::alloc::{AllocError, Global};

// A part of the class that is no older than that, and that the walk has not left yet.
pub(crate) fn first_part(
    parts: &[u32],
    nodes: &[Node],
    asked: &[Asked],
    marks: &[u64],
    floor: u64,
    class: u32,
    birth: u32,
) -> Option<u32>
    requires fine { IsFine parts.now nodes.now }
    requires parts { Within (length nodes.now) parts.now }
    requires same { length asked.now ≡ length nodes.now }
    requires long { length marks.now ≡ length nodes.now }
    requires within { class < length nodes.now }
    ensures part { IfSome result (λ d. Child parts.now (at nodes.now class) d × (d < length nodes.now) × (mark_at marks.now d ≤ floor)) }
    ensures none { IfNone result ((d : ℕ) → Child parts.now (at nodes.now class) d → IsReady asked.now marks.now floor birth d) }
{
    match nodes[class as usize] {
        Node::Variable => None,
        Node::Link(older) => {
            if asked[older as usize].birth >= birth && marks[older as usize] <= floor {
                return Some(older);
            }
            None
        }
        Node::Made(_, first, count) => {
            let list = &parts[first as usize..first as usize + count as usize];
            for i in 0..list.len() {
                let part = list[i];
                if asked[part as usize].birth >= birth && marks[part as usize] <= floor {
                    return Some(part);
                }
            }
            None
        }
    }
}

// Numbers the classes on the way, and those below them, a class after its parts. Answers whether that was possible.
fn number_all(
    parts: &[u32],
    nodes: &[Node],
    asked: &[Asked],
    marks: &mut [u64],
    stamp: &mut u64,
    floor: u64,
    path: &mut Vec<u32>,
) -> Result<bool, AllocError>
    requires fine { IsFine parts.now nodes.now }
    requires parts { Within (length nodes.now) parts.now }
    requires same { length asked.now ≡ length nodes.now }
    requires numbered { Numbered parts.now nodes.now asked.now marks.old floor stamp.old }
    requires path { IsPath parts.now nodes.now marks.old floor path.old.items }
    ensures numbered { Numbered parts.now nodes.now asked.now marks.new floor stamp.new }
    ensures path { IfOk result (λ done. done ≡ true → (path.new.items ≡ []) × IsPath parts.now nodes.now marks.new floor []) }
    ensures seen { (c : ℕ) → floor ≤ mark_at marks.old c → floor ≤ mark_at marks.new c }
    ensures endless { IfOk result (λ done. done ≡ false → IsEndless parts.now nodes.now) }
{
    while !path.is_empty() {
        let class = path[path.len() - 1];
        match first_part(
            parts,
            nodes,
            asked,
            marks,
            floor,
            class,
            asked[class as usize].birth,
        ) {
            None => {
                *stamp = stamp.checked_add(1).ok_or(AllocError)?;
                marks[class as usize] = *stamp;
                path.pop();
            }
            Some(part) => {
                if marks[part as usize] == floor {
                    return Ok(false);
                }
                path.push(part)?;
                marks[part as usize] = floor;
            }
        }
    }
    Ok(true)
}

/// Whether no class below the listed ones holds itself.
pub(crate) fn is_finite(
    alloc: Global,
    parts: &[u32],
    nodes: &[Node],
    asked: &[Asked],
    marks: &mut [u64],
    stamp: &mut u64,
    changed: &[u32],
) -> Result<bool, AllocError>
    requires fine { IsFine parts.now nodes.now }
    requires parts { Within (length nodes.now) parts.now }
    requires same { length asked.now ≡ length nodes.now }
    requires stamped { Stamped (length nodes.now) marks.old stamp.old }
    requires changed { Within (length nodes.now) changed.now }
    ensures searched { IfOk result (λ finite. finite ≡ true → Searched parts.now nodes.now asked.now marks.new (stamp.old + 1) changed.now) }
    ensures endless { IfOk result (λ finite. finite ≡ false → IsEndless parts.now nodes.now) }
    ensures stamped { Stamped (length nodes.now) marks.new stamp.new }
{
    *stamp = stamp.checked_add(1).ok_or(AllocError)?;
    let floor = *stamp;
    let mut path: Vec<u32> = Vec::new(alloc);
    for i in 0..changed.len() {
        let class = changed[i];
        if marks[class as usize] < floor {
            path.push(class)?;
            marks[class as usize] = floor;
            if !number_all(parts, nodes, asked, marks, stamp, floor, &mut path)? {
                return Ok(false);
            }
        }
    }
    Ok(true)
}
