// The machine's stack, its top first.
ghost use Rattle.std.specs.Prelude.{◌≡◌, [], ◌∷◌, ◌++◌, OnOk, MatchOption};

use crate::symbol::Sym;
use sml_syntax::NoMemory;
use std::alloc::Global;
use std::marker::Model;

/// What is still to be read. Contracts see it as a list, its top first.
#[derive(Drop)]
pub struct Stack {
    symbols: Vec<Sym>,
}

impl Model for Stack {
    ghost use Rattle.std.specs.Prelude.{List, reverse};
    ghost use Rattle.sml_grammar.specs.declared.symbol.Sym.{Sym};

    ghost Value = { List Sym };

    ghost view = { λ s. reverse s.symbols.items };
}

impl Stack {
    pub fn new(alloc: Global) -> Stack
        ensures { result ≡ [] }
    {
        Stack {
            symbols: Vec::new(alloc),
        }
    }

    fn allocator(&self) -> Global {
        *self.symbols.allocator()
    }

    pub fn push(&mut self, symbol: Sym) -> Result<(), NoMemory>
        ensures { OnOk result (self.new ≡ symbol ∷ self.old) }
    {
        self.symbols.push(symbol)?;
        Ok(())
    }

    /// Pushes symbols, the first on top.
    pub fn push_all<const N: usize>(&mut self, symbols: [Sym; N]) -> Result<(), NoMemory>
        ensures { OnOk result (self.new ≡ symbols.entry ++ self.old) }
    {
        let mut left = Vec::from_array(self.allocator(), symbols)?;
        while let Some(symbol) = left.pop() {
            self.push(symbol)?;
        }
        Ok(())
    }

    pub fn pop(&mut self) -> Option<Sym>
        ensures { MatchOption result (self.old ≡ []) (λ top. self.old ≡ top ∷ self.new) }
    {
        self.symbols.pop()
    }
}
