// Primitives: what they take, and the instructions that they are.
use crate::location::type_region;
use crate::types::result_type;
use kam_code::Instr;
use region_syntax::RTy;
use sml_syntax::NoMemory;
use std::alloc::Global;

/// What a primitive does with its arguments and its place, which lie on the stack.
#[derive(Clone, Copy, Debug)]
pub enum Action {
    /// Nothing: the argument is the result.
    Keep,
    Do(Instr),
    /// Equality, or its contrary.
    Compare(bool),
    CacheMake,
    CacheLook,
    CachePut,
    CacheFlush,
    /// It is a description, and no function.
    Describe,
}

/// A primitive: its arguments, how many it takes one after the other, whether it makes something in a
/// place, and whether it leaves no result.
#[derive(Clone, Copy, Debug)]
pub struct Primitive {
    pub arguments: u64,
    pub stages: u64,
    pub makes: bool,
    pub action: Action,
    pub leaves_none: bool,
}

impl Primitive {
    // One that leaves a word.
    fn word(arguments: u64, instr: Instr) -> Primitive {
        Primitive {
            arguments,
            stages: 1,
            makes: false,
            action: Action::Do(instr),
            leaves_none: false,
        }
    }

    // One that makes something in a place.
    fn maker(arguments: u64, instr: Instr) -> Primitive {
        Primitive {
            arguments,
            stages: 1,
            makes: true,
            action: Action::Do(instr),
            leaves_none: false,
        }
    }

    // One that leaves no result.
    fn deed(arguments: u64, instr: Instr) -> Primitive {
        Primitive {
            arguments,
            stages: 1,
            makes: false,
            action: Action::Do(instr),
            leaves_none: true,
        }
    }

    fn other(arguments: u64, makes: bool, action: Action) -> Primitive {
        Primitive {
            arguments,
            stages: 1,
            makes,
            action,
            leaves_none: false,
        }
    }

    // One that takes its arguments one after the other.
    fn in_stages(self) -> Primitive {
        Primitive {
            stages: self.arguments,
            ..self
        }
    }

    /// The primitive of a name.
    pub fn named(name: &[u8]) -> Primitive {
        match name {
            [
                b'W',
                b'e',
                b'b',
                b'.',
                b'C',
                b'a',
                b'c',
                b'h',
                b'e',
                b'.',
                ..
            ] => of_cache(name),
            [b'W', b'e', b'b', b'.', ..] => of_web(name),
            _ => of_basis(name),
        }
    }

    /// Whether its argument is a tuple.
    pub fn takes_tuple(self) -> bool {
        self.arguments > 1 && self.stages < 2
    }

    /// How many of these are still to come behind so many arguments.
    pub fn places_left(self, have: u64) -> u64 {
        let made = match self.makes {
            true => self.stages,
            false => self.stages.saturating_sub(1),
        };
        made.saturating_sub(have)
    }

    /// Whether its code goes by its type.
    pub fn is_typed(self, name: &[u8]) -> bool {
        matches!(self.action, Action::Compare(_)) || name.starts_with(b"Web.Cache.")
    }

    /// The regions of the closures between its arguments, and of its result where it makes one.
    pub fn places(self, alloc: Global, ty: &RTy) -> Result<Vec<Option<u32>>, NoMemory> {
        let mut places = Vec::new(alloc);
        let mut function = ty;
        for stage in 0..self.stages {
            let Some(made) = result_type(function) else {
                break;
            };
            if stage + 1 < self.stages || self.makes {
                places.push(type_region(made))?;
            }
            function = made;
        }
        Ok(places)
    }

    /// Whether it is no function.
    pub fn is_constant(self) -> bool {
        matches!(self.action, Action::Describe)
    }
}

fn of_basis(name: &[u8]) -> Primitive {
    match name {
        b"+" => Primitive::word(2, Instr::Add),
        b"-" => Primitive::word(2, Instr::Sub),
        b"*" => Primitive::word(2, Instr::Mul),
        b"div" => Primitive::word(2, Instr::Div),
        b"mod" => Primitive::word(2, Instr::Mod),
        b"~" => Primitive::word(1, Instr::Neg),
        b"<" => Primitive::word(2, Instr::Less),
        b"<=" => Primitive::word(2, Instr::LessEqual),
        b">" => Primitive::word(2, Instr::Greater),
        b">=" => Primitive::word(2, Instr::GreaterEqual),
        b"=" => Primitive::other(2, false, Action::Compare(true)),
        b"<>" => Primitive::other(2, false, Action::Compare(false)),
        b"!" => Primitive::word(1, Instr::Field(0)),
        b":=" => Primitive::deed(2, Instr::SetField(0)),
        b"chr" => Primitive::word(1, Instr::CharFromInt),
        _ => of_texts(name),
    }
}

fn of_texts(name: &[u8]) -> Primitive {
    match name {
        b"^" => Primitive::maker(2, Instr::TextCat),
        b"size" => Primitive::word(1, Instr::TextSize),
        b"str" => Primitive::maker(1, Instr::TextFromChar),
        b"String.sub" => Primitive::word(2, Instr::TextSub),
        b"substring" => Primitive::maker(3, Instr::TextCut),
        b"concat" => Primitive::maker(1, Instr::TextConcat),
        b"String.compare" => Primitive::word(2, Instr::TextCompare),
        b"Int.toString" => Primitive::maker(1, Instr::TextFromInt),
        b"Int.fromString" => Primitive::maker(1, Instr::IntFromText),
        _ => Primitive::other(1, false, Action::Keep),
    }
}

fn of_web(name: &[u8]) -> Primitive {
    match name {
        b"Web.write" => Primitive::deed(1, Instr::Write),
        b"Web.setType" => Primitive::deed(1, Instr::SetType),
        b"Web.setStatus" => Primitive::deed(1, Instr::SetStatus),
        b"Web.formvar" => Primitive::maker(1, Instr::FormFirst),
        b"Web.formvars" => Primitive::maker(1, Instr::FormAll),
        b"Web.Db.dml" => Primitive::deed(2, Instr::DbDml),
        b"Web.Db.rows" => Primitive::maker(2, Instr::DbRows),
        _ => Primitive::other(1, false, Action::Keep),
    }
}

fn of_cache(name: &[u8]) -> Primitive {
    match name {
        b"Web.Cache.Option" => Primitive::deed(1, Instr::Pop(1)),
        b"Web.Cache.List" => Primitive::deed(1, Instr::Pop(1)),
        b"Web.Cache.Pair" => Primitive::deed(2, Instr::Pop(2)).in_stages(),
        b"Web.Cache.Triple" => Primitive::deed(3, Instr::Pop(3)).in_stages(),
        b"Web.Cache.get" => Primitive::other(4, true, Action::CacheMake),
        b"Web.Cache.lookup" => Primitive::other(2, true, Action::CacheLook).in_stages(),
        b"Web.Cache.insert" => Primitive::other(3, false, Action::CachePut),
        b"Web.Cache.flush" => Primitive {
            leaves_none: true,
            ..Primitive::other(1, false, Action::CacheFlush)
        },
        _ => Primitive::other(1, false, Action::Describe),
    }
}
