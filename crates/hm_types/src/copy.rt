// The classes of a type in an order in which they can be copied.
ghost use Rattle.std.specs.Prelude.{◌≡◌, ◌<◌, ℕ, length, IfOk};
ghost use Rattle.hm_types.specs.Joining.{IsFine, Within};
ghost use Rattle.hm_types.specs.Searching.{Stamped};

use crate::search::first_part;
use crate::{Asked, Node};
use std::alloc::{AllocError, Global};

/// The classes of a class's type that aren't older than the mark, each once and after its parts. The first has the number
/// behind the floor, the next the next one. The table's types don't hold themselves; if one did there would be no order.
pub(crate) fn list_below(
    alloc: Global,
    parts: &[u32],
    nodes: &[Node],
    asked: &[Asked],
    marks: &mut [u64],
    stamp: &mut u64,
    class: u32,
    mark: u32,
) -> Result<Vec<u32>, AllocError>
    requires fine { IsFine parts.now nodes.now }
    requires parts { Within (length nodes.now) parts.now }
    requires same { length asked.now ≡ length nodes.now }
    requires stamped { Stamped (length nodes.now) marks.old stamp.old }
    requires class { class < length nodes.now }
    ensures listed { IfOk result (λ order. Within (length nodes.now) order.items) }
    ensures stamped { Stamped (length nodes.now) marks.new stamp.new }
{
    *stamp = stamp.checked_add(1).ok_or(AllocError)?;
    let floor = *stamp;
    let mut order: Vec<u32> = Vec::new(alloc);
    let mut path: Vec<u32> = Vec::new(alloc);
    path.push(class)?;
    marks[class as usize] = floor;
    while !path.is_empty() {
        let top = path[path.len() - 1];
        match first_part(parts, nodes, asked, marks, floor, top, mark) {
            None => {
                order.push(top)?;
                *stamp = stamp.checked_add(1).ok_or(AllocError)?;
                marks[top as usize] = *stamp;
                path.pop();
            }
            Some(part) => {
                if marks[part as usize] == floor {
                    return Err(AllocError);
                }
                path.push(part)?;
                marks[part as usize] = floor;
            }
        }
    }
    Ok(order)
}
