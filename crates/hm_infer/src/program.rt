// Whole programs.
ghost use Rattle.std.specs.Prelude.{◌≡◌, ℕ, length, Err, IfOk};
ghost use Rattle.typing_rules.specs.Scope.{AllBound, IsFirstUnbound};
ghost use Rattle.typing_rules.specs.TypedPrograms.{item_place};
ghost use Rattle.hm_infer.specs.Numbering.{HasNodes, IsItemPlace};
ghost use Rattle.hm_infer.specs.declared.refusal.TypeRefusal.TheVariants.{Unbound, Ill};

use crate::context::Context;
use crate::inference::Inference;
use crate::refusal::TypeRefusal;
use crate::typed::Typed;
use hm_scheme::{Stop, widest};
use hm_scope::first_unbound;
use sml_syntax::{Dec, Listed, NoMemory, Program};
use std::alloc::Global;

// A refusal at an item.
fn at_item(d: &Dec, stop: Stop) -> TypeRefusal
    ensures place { (place : ℕ) → result ≡ Ill place → place ≡ item_place d.now }
    ensures bound { (place : ℕ) → result ≡ Unbound place → ⊥ }
{
    match stop {
        Stop::Ill => TypeRefusal::Ill(d.span.from),
        Stop::NoMemory => TypeRefusal::NoMemory,
    }
}

/// The types of a program. An item at which the program has no typing is told by its first byte.
pub fn infer(alloc: Global, program: &Program) -> Result<Typed, TypeRefusal>
    ensures program { IfOk result (λ typed. typed.program ≡ program.now) }
    ensures types { IfOk result (λ typed. HasNodes program.now (length typed.types)) }
    ensures bound { IfOk result (λ _. AllBound program.now) }
    ensures unbound { (place : ℕ) → result ≡ Err (Unbound place) → IsFirstUnbound program.now place }
    ensures ill { (place : ℕ) → result ≡ Err (Ill place) → IsItemPlace program.now place }
    ensures ill_bound { (place : ℕ) → result ≡ Err (Ill place) → AllBound program.now }
{
    if let Some(place) = first_unbound(alloc, program)? {
        return Err(TypeRefusal::Unbound(place));
    }
    let inference = inferred(alloc, program)?;
    let program = program.try_copy(alloc)?;
    Ok(typed(program, inference))
}

// The classes of all nodes.
fn inferred(alloc: Global, program: &Program) -> Result<Inference, TypeRefusal>
    ensures nodes { IfOk result (λ inference. HasNodes program.now (length inference.nodes.items)) }
    ensures ill { (place : ℕ) → result ≡ Err (Ill place) → IsItemPlace program.now place }
    ensures bound { (place : ℕ) → result ≡ Err (Unbound place) → ⊥ }
{
    let mut inference = match Inference::start(alloc, widest(program)) {
        Ok(inference) => inference,
        Err(_) => return Err(TypeRefusal::NoMemory),
    };
    for d in program.items.as_slice() {
        if let Err(stop) = inference.item(d) {
            return Err(at_item(d, stop));
        }
    }
    Ok(inference)
}

// What was found of a program.
fn typed(program: Program, inference: Inference) -> Typed
    ensures program { result.program ≡ program }
    ensures types { length result.types ≡ length inference.nodes.items }
{
    let Inference {
        context,
        nodes,
        ends,
    } = inference;
    let Context {
        types,
        general,
        begins,
        stands,
        put,
        parameters,
        arguments,
        ..
    } = context;
    let (table, names) = types.finish();
    Typed {
        program,
        table,
        types: Listed::of(nodes),
        ends: Listed::of(ends),
        stands: Listed::of(stands),
        put: Listed::of(put),
        names: Listed::of(names),
        general: Listed::of(general),
        begins: Listed::of(begins),
        parameters: Listed::of(parameters),
        arguments: Listed::of(arguments),
    }
}
