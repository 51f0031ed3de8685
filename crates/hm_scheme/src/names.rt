// Names as numbers.
ghost use Rattle.std.specs.Prelude.{◌≡◌, [], None, Some, IfOk};
ghost use Rattle.hm_scheme.specs.Numbering.{number_in, AllApart, HasNumbersOf};

use sml_syntax::NoMemory;
use std::alloc::Global;
use std::collections::HashMap;
use std::marker::Model;

/// The names that were met, each with its number. Contracts see it as the list of the pairs, in some order.
#[derive(Drop)]
pub struct Names {
    numbers: HashMap<Vec<u8>, u32>,
}

impl Model for Names {
    ghost use Rattle.std.specs.HashMap.{hash_map_len};
    ghost use Rattle.hm_scheme.specs.Numbering.{Numbered, number_in, shown_numbers, IsNumbering};

    ghost Value = { Numbered };

    ghost view = { λ names. shown_numbers names.numbers };

    ghost invariant = { λ names. IsNumbering (number_in (shown_numbers names.numbers)) (hash_map_len names.numbers) };
}

impl Names {
    /// No names yet.
    pub fn new(alloc: Global) -> Names
        ensures { result ≡ [] }
    {
        Names {
            numbers: HashMap::new(alloc),
        }
    }

    /// The number of a name: a new one where it wasn't met before.
    pub fn number(&mut self, alloc: Global, name: &[u8]) -> Result<u32, NoMemory>
        ensures number { IfOk result (λ n. number_in self.new name.now ≡ Some n) }
        ensures keeps { HasNumbersOf self.old self.new }
        ensures apart { AllApart self.new }
    {
        match self.known(name) {
            Some(number) => Ok(number),
            None => self.enter(alloc, name),
        }
    }

    // The number of a name that was met.
    fn known(&self, name: &[u8]) -> Option<u32>
        ensures number { result ≡ number_in self.now name.now }
        ensures apart { AllApart self.now }
    {
        self.numbers.get(name).copied()
    }

    // Gives a new name the next number.
    fn enter(&mut self, alloc: Global, name: &[u8]) -> Result<u32, NoMemory>
        requires { number_in self.old name.now ≡ None }
        ensures number { IfOk result (λ n. number_in self.new name.now ≡ Some n) }
        ensures keeps { HasNumbersOf self.old self.new }
        ensures apart { AllApart self.new }
    {
        let count = self.numbers.len();
        if count >= 4_294_967_295 {
            return Err(NoMemory);
        }
        let owned = Vec::from_slice(alloc, name)?;
        self.numbers.insert(owned, count as u32)?;
        Ok(count as u32)
    }
}
