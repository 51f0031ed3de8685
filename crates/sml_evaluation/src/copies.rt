// Copies of values.
ghost use Rattle.std.specs.Prelude.{◌≡◌, IfOk};

use crate::{Bound, Closure, Value};
use sml_syntax::{Boxed, Copied, Listed, NoMemory, Text, with_pair};
use std::alloc::Global;

impl Value {
    #[cycle(value_copies)]
    pub fn try_copy(&self, alloc: Global) -> Result<Value, NoMemory>
        ensures { IfOk result (λ copy. copy ≡ self.now) }
    {
        match self {
            Value::Int(n) => Ok(Value::Int(*n)),
            Value::Char(c) => Ok(Value::Char(*c)),
            Value::Str(text) => Ok(Value::Str(text.try_copy(alloc)?)),
            Value::Unit => Ok(Value::Unit),
            Value::Tuple(parts) => Ok(Value::Tuple(copy_values(alloc, parts)?)),
            Value::Con(datatype, index) => Ok(Value::Con(*datatype, *index)),
            Value::Applied(datatype, index, arg) => {
                let arg = Boxed::new(alloc, arg.get().try_copy(alloc)?)?;
                Ok(Value::Applied(*datatype, *index, arg))
            }
            Value::Exn(number, arg) => Ok(Value::Exn(*number, copy_argument(alloc, arg)?)),
            Value::Maker(constructor) => Ok(Value::Maker(*constructor)),
            Value::Ref(number) => Ok(Value::Ref(*number)),
            Value::Fun(closure) => Ok(Value::Fun(closure.try_copy(alloc)?)),
            Value::Prim(name, args) => {
                let name = name.try_copy(alloc)?;
                Ok(Value::Prim(name, copy_values(alloc, args)?))
            }
            Value::Desc(desc) => Ok(Value::Desc(desc.try_copy(alloc)?)),
            Value::Cache(id) => Ok(Value::Cache(id.try_copy(alloc)?)),
        }
    }
}

impl Closure {
    #[cycle(value_copies)]
    pub fn try_copy(&self, alloc: Global) -> Result<Closure, NoMemory>
        ensures { IfOk result (λ copy. copy ≡ self.now) }
    {
        Ok(Closure {
            rules: self.rules.copied(alloc)?,
            env: copy_environment(alloc, &self.env)?,
            group: self.group.copied(alloc)?,
        })
    }
}

impl Bound {
    #[cycle(value_copies)]
    pub fn try_copy(&self, alloc: Global) -> Result<Bound, NoMemory>
        ensures { IfOk result (λ copy. copy ≡ self.now) }
    {
        match self {
            Bound::Variable(value) => Ok(Bound::Variable(value.try_copy(alloc)?)),
            Bound::Constructor(constructor, applied) => {
                Ok(Bound::Constructor(*constructor, *applied))
            }
        }
    }
}

#[cycle(value_copies)]
fn copy_argument(
    alloc: Global,
    arg: &Option<Boxed<Value>>,
) -> Result<Option<Boxed<Value>>, NoMemory>
    ensures { IfOk result (λ copy. copy ≡ arg.now) }
{
    match arg {
        None => Ok(None),
        Some(value) => Ok(Some(Boxed::new(alloc, value.get().try_copy(alloc)?)?)),
    }
}

#[cycle(value_copies)]
fn copy_values(alloc: Global, values: &Listed<Value>) -> Result<Listed<Value>, NoMemory>
    ensures { IfOk result (λ copy. copy ≡ values.now) }
{
    let mut copies = Vec::new(alloc);
    for value in values.as_slice() {
        copies.push(value.try_copy(alloc)?)?;
    }
    Ok(Listed::of(copies))
}

#[cycle(value_copies)]
fn copy_environment(
    alloc: Global,
    names: &Listed<(Text, Bound)>,
) -> Result<Listed<(Text, Bound)>, NoMemory>
    ensures { IfOk result (λ copy. copy ≡ names.now) }
{
    let mut copies = Vec::new(alloc);
    for entry in names.as_slice() {
        let bound = entry.1.try_copy(alloc)?;
        copies = with_pair(alloc, copies, &entry.0, bound)?;
    }
    Ok(Listed::of(copies))
}
