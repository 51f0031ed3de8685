// Where words lie while code runs.
ghost use Rattle.std.specs.Prelude.{◌≡◌, ◌+◌, IfOk};
ghost use Rattle.code_parts.specs.Locations.{load, seen_at, part, is_whole, is_deep};

use kam_code::Instr;
use region_syntax::{Place, RTy};
use sml_syntax::NoMemory;

/// Where the word of a name or of a region lies.
#[derive(Clone, Copy, Debug, PartialEq, Eq)]
pub enum Location {
    /// In the frame, so many words above its base.
    Frame(u64),
    /// In a field of the closure that runs.
    Closure(u64),
    /// It is the closure that runs.
    Running,
    /// It is the serial of the global region.
    Global,
    /// It is nowhere, and 0 stands for it: no program that was checked has such a name.
    Nowhere,
}

impl Location {
    /// The instruction that pushes the word.
    pub fn load(self) -> Instr
        ensures { result ≡ load self }
    {
        match self {
            Location::Frame(i) => Instr::Local(i),
            Location::Closure(i) => Instr::Env(i),
            Location::Running => Instr::SelfPointer,
            Location::Global => Instr::Const(1),
            Location::Nowhere => Instr::Const(0),
        }
    }
}

/// Fields that lead from a value to one of its parts.
#[derive(Clone, Copy, Debug, PartialEq, Eq)]
pub enum Path {
    Here,
    Field(u64),
    Fields(u64, u64),
}

/// A part of a value whose word lies at a location.
#[derive(Clone, Copy, Debug, PartialEq, Eq)]
pub struct Seen {
    pub location: Location,
    pub path: Path,
}

impl Seen {
    pub fn at(location: Location) -> Seen
        ensures { result ≡ seen_at location }
    {
        Seen {
            location,
            path: Path::Here,
        }
    }

    pub fn local(i: u64) -> Seen {
        Seen::at(Location::Frame(i))
    }

    /// The part in a field of it. It lies at most two fields deep.
    pub fn part(self, field: u64) -> Seen
        ensures { result ≡ part self field }
    {
        let path = match self.path {
            Path::Here => Path::Field(field),
            Path::Field(first) => Path::Fields(first, field),
            Path::Fields(first, second) => Path::Fields(first, second),
        };
        Seen {
            location: self.location,
            path,
        }
    }

    /// Whether it is the value itself.
    pub fn is_whole(self) -> bool
        ensures { result ≡ is_whole self.path }
    {
        matches!(self.path, Path::Here)
    }

    /// Whether it lies two fields deep.
    pub fn is_deep(self) -> bool
        ensures { result ≡ is_deep self.path }
    {
        matches!(self.path, Path::Fields(_, _))
    }
}

/// The region of a place, unless it is the global one.
pub fn region_of(place: Place) -> Option<u32> {
    match place {
        Place::Global => None,
        Place::Reg(region) => Some(region),
    }
}

/// The region that values of a type lie in, unless it is the global one or they lie in none.
pub fn type_region(ty: &RTy) -> Option<u32> {
    match ty {
        RTy::Str(place) => region_of(*place),
        RTy::Tuple(place, _) => region_of(*place),
        RTy::Arrow(place, _, _, _) => region_of(*place),
        RTy::DataTy { place, .. } => region_of(*place),
        RTy::Ref(place, _) => region_of(*place),
        RTy::CacheTy(place, _, _) => region_of(*place),
        _ => None,
    }
}

/// A sum of numbers of words.
pub fn sum(a: u64, b: u64) -> Result<u64, NoMemory>
    ensures { IfOk result (λ n. n ≡ a + b) }
{
    match a.checked_add(b) {
        Some(n) => Ok(n),
        None => Err(NoMemory),
    }
}
