// Tables of types call by call, and names and what they stand for.
use case_lines::Words;
use hm_scheme::{
    APPLIED, CONSTANTS, FIXED, Names, PRELUDE_LONG, Scope, Stop, TYPES, Types, VALUES,
    tables_spell_the_basis,
};
use sml_syntax::NoMemory;
use std::alloc::Global;

/// A table of types, names and their scope. What earlier lines made is named by its number in the order of the lines.
#[derive(Drop)]
pub(crate) struct Tables {
    types: Types,
    made: Vec<u32>,
    names: Names,
    scope: Scope,
}

impl Tables {
    pub(crate) fn start(alloc: Global) -> Result<Option<Tables>, NoMemory> {
        match Types::start(alloc, 5) {
            Ok(types) => Ok(Some(Tables {
                types,
                made: Vec::new(alloc),
                names: Names::new(alloc),
                scope: Scope::new(alloc),
            })),
            Err(Stop::Ill) => Ok(None),
            Err(Stop::NoMemory) => Err(NoMemory),
        }
    }

    // What an earlier line made.
    fn earlier(&self, words: &mut Words) -> u32 {
        let number = words.number();
        self.made.get(number as usize).copied().unwrap_or(0)
    }

    fn all_earlier(&self, alloc: Global, words: &mut Words) -> Result<Vec<u32>, NoMemory> {
        let mut all = Vec::new(alloc);
        for word in words.rest().split(' ') {
            if let Ok(number) = word.parse::<usize>() {
                all.push(self.made.get(number).copied().unwrap_or(0))?;
            }
        }
        Ok(all)
    }

    // What a line makes: a class, the number of a type name, or another number.
    fn make(&mut self, alloc: Global, word: &str, words: &mut Words) -> Result<u32, Stop> {
        match word {
            "class" => Ok(words.next().parse().unwrap_or(0)),
            "int" => Ok(self.types.plain.int),
            "string" => Ok(self.types.plain.string),
            "mark" => Ok(self.types.mark()),
            "var" => self.types.var(words.next() == "equality"),
            "declare" => Ok(
                self.types
                    .declare_datatype(words.next().parse().unwrap_or(0), true)?,
            ),
            "spelt" => self.types.spelt(words.next().as_bytes()),
            "con" => {
                let name = self.earlier(words);
                let parts = self.all_earlier(alloc, words)?;
                self.types.con(name, parts.as_slice())
            }
            "tuple" => {
                let parts = self.all_earlier(alloc, words)?;
                self.types.tuple(parts.as_slice())
            }
            _ => self.make_of_classes(word, words),
        }
    }

    fn make_of_classes(&mut self, word: &str, words: &mut Words) -> Result<u32, Stop> {
        let first = self.earlier(words);
        match word {
            "list" => self.types.list(first),
            "function" => {
                let to = self.earlier(words);
                self.types.function(first, to)
            }
            "copy" => {
                let mark = self.earlier(words);
                self.types.copy(first, mark)
            }
            "deep" => self.deep(first, words.number()),
            _ => {
                let index = words.next().parse().unwrap_or(0);
                self.types.part(first, index)
            }
        }
    }

    // Pairs of pairs over a class, so deep.
    fn deep(&mut self, class: u32, depth: u64) -> Result<u32, Stop> {
        let mut made = class;
        for _ in 0..depth {
            made = self.types.tuple(&[made, made])?;
        }
        Ok(made)
    }

    fn unify(&mut self, words: &mut Words, out: &mut String) -> Result<(), NoMemory> {
        let first = self.earlier(words);
        let second = self.earlier(words);
        match self.types.unify(first, second) {
            Ok(()) => out.push_str("equal")?,
            Err(Stop::Ill) => out.push_str("ill")?,
            Err(Stop::NoMemory) => return Err(NoMemory),
        }
        Ok(())
    }

    // Names and their scope.
    fn answer_scope(
        &mut self,
        alloc: Global,
        word: &str,
        words: &mut Words,
        out: &mut String,
    ) -> Result<(), NoMemory> {
        match word {
            "depth" => write!(out, "{}", self.scope.depth())?,
            "cut" => self.scope.cut(words.number() as usize),
            "hide" => {
                let outer = words.number() as usize;
                self.scope.hide(outer, words.number() as usize)?;
            }
            _ => {
                let number = self.names.number(alloc, words.next().as_bytes())?;
                match word {
                    "add" => self.scope.add(number, words.next().parse().unwrap_or(0))?,
                    "find" => match self.scope.find(number) {
                        Some(meaning) => write!(out, "{meaning}")?,
                        None => out.push_str("none")?,
                    },
                    _ => write!(out, "{number}")?,
                }
            }
        }
        Ok(())
    }

    pub(crate) fn answer(
        &mut self,
        alloc: Global,
        word: &str,
        words: &mut Words,
        out: &mut String,
    ) -> Result<(), NoMemory> {
        match word {
            "unify" => return self.unify(words, out),
            "solved" => write!(out, "{}", self.types.table.is_solved())?,
            "arity" => {
                let name = self.earlier(words);
                match self.types.table.arity(name) {
                    Some(arity) => write!(out, "{arity} of {}", self.types.names.len())?,
                    None => out.push_str("none")?,
                }
            }
            "depth" | "cut" | "hide" | "add" | "find" | "number" => {
                return self.answer_scope(alloc, word, words, out);
            }
            _ => match self.make(alloc, word, words) {
                Ok(made) => {
                    write!(out, "made {}", self.made.len())?;
                    self.made.push(made)?;
                }
                Err(Stop::Ill) => out.push_str("ill")?,
                Err(Stop::NoMemory) => return Err(NoMemory),
            },
        }
        Ok(())
    }
}

// How many rows of a table spell a type.
fn count_spelt(types: &mut Types, rows: &[(&str, &str)]) -> u64 {
    let mut count: u64 = 0;
    for row in rows {
        if types.spelt(row.1.as_bytes()).is_ok() {
            count = count.saturating_add(1);
        }
    }
    count
}

/// The tables of the basis: how many types, long names of the prelude and fixed names there are, and how many rows of each
/// other table spell a type.
pub(crate) fn show_basis(alloc: Global, out: &mut String) -> Result<(), NoMemory> {
    tables_spell_the_basis();
    let (types, long, fixed) = (TYPES.len(), PRELUDE_LONG.len(), FIXED.len());
    write!(out, "{types} {long} {fixed}")?;
    if let Some(mut tables) = Tables::start(alloc)? {
        let types = &mut tables.types;
        let values = count_spelt(types, &VALUES);
        let constants = count_spelt(types, &CONSTANTS);
        let applied = count_spelt(types, &APPLIED);
        write!(out, " {values} {constants} {applied}")?;
    }
    Ok(())
}
