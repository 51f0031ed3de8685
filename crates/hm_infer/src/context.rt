// The context: names in scope with what they stand for, and the types so far.
use crate::stands::{APPLIED_STAND, BASIS_EXCEPTIONS, CONSTANTS_STAND, Stands};
use hm_scheme::{
    APPLIED, CONSTANTS, Meaning, Names, Plain, Scheme, Scope, Status, Stop, TYPES, TyName,
    TypeFunction, TypeMeaning, Types, VALUES, has_variables,
};
use hm_types::{Equality, TypeTable};
use sml_syntax::{Listed, NoMemory};
use std::alloc::Global;

#[derive(Drop)]
pub(crate) struct Context {
    pub(crate) alloc: Global,
    pub(crate) types: Types,
    pub(crate) plain: Plain,
    pub(crate) names: Names,
    pub(crate) values: Scope,
    pub(crate) type_names: Scope,
    pub(crate) meanings: Vec<Meaning>,
    /// What the names of the meanings stand for.
    pub(crate) origins: Vec<Stands>,
    pub(crate) functions: Vec<TypeFunction>,
    /// What each binding so far generalises.
    pub(crate) general: Vec<Listed<u32>>,
    /// The node that each binding so far begins with.
    pub(crate) begins: Vec<u32>,
    /// What names stand for, by their nodes.
    pub(crate) stands: Vec<Stands>,
    /// The classes that uses of names put in.
    pub(crate) put: Vec<u32>,
    /// For each declared datatype the classes of its variables.
    pub(crate) parameters: Vec<Listed<u32>>,
    /// For each declared constructor and exception the class of its argument.
    pub(crate) arguments: Vec<Option<u32>>,
    /// How many exceptions there are.
    pub(crate) exceptions: u32,
    /// For each class the last walk that met it, and the last binding that lists it.
    pub(crate) met: Vec<u32>,
    pub(crate) listed: Vec<u32>,
    /// How many walks there were.
    pub(crate) walks: u32,
}

impl Context {
    /// Before the first item, with the names of the basis in scope.
    pub(crate) fn start(alloc: Global, widest: u32) -> Result<Context, Stop> {
        let types = Types::start(alloc, widest)?;
        let mut context = Context {
            alloc,
            plain: types.plain,
            types,
            names: Names::new(alloc),
            values: Scope::new(alloc),
            type_names: Scope::new(alloc),
            meanings: Vec::new(alloc),
            origins: Vec::new(alloc),
            functions: Vec::new(alloc),
            general: Vec::new(alloc),
            begins: Vec::new(alloc),
            stands: Vec::new(alloc),
            put: Vec::new(alloc),
            parameters: Vec::new(alloc),
            arguments: Vec::new(alloc),
            exceptions: BASIS_EXCEPTIONS,
            met: Vec::new(alloc),
            listed: Vec::new(alloc),
            walks: 0,
        };
        context.add_basis_types()?;
        context.add_basis(&VALUES, Status::Variable, &[])?;
        context.add_basis(&CONSTANTS, Status::Constant, &CONSTANTS_STAND)?;
        context.add_basis(&APPLIED, Status::Applied, &APPLIED_STAND)?;
        Ok(context)
    }

    fn add_basis_types(&mut self) -> Result<(), Stop> {
        for i in 0..TYPES.len() {
            let equality = match TYPES[i].2 {
                Equality::Never => None,
                Equality::Always => Some(flags(self.alloc, TYPES[i].1 as usize, false)?),
                Equality::Parts => Some(flags(self.alloc, TYPES[i].1 as usize, true)?),
            };
            let function = TypeFunction {
                arity: TYPES[i].1 as usize,
                equality,
                meaning: TypeMeaning::Name(i as u32),
            };
            self.add_type(TYPES[i].0.as_bytes(), function)?;
        }
        Ok(())
    }

    fn add_basis(
        &mut self,
        rows: &[(&'static str, &'static str)],
        status: Status,
        origins: &[Stands],
    ) -> Result<(), Stop> {
        for (i, row) in rows.iter().enumerate() {
            let origin = origins.get(i).copied().unwrap_or(Stands::Primitive);
            let name = self.name(row.0.as_bytes())?;
            let scheme = if has_variables(row.1.as_bytes()) {
                Scheme::Spelt(row.1)
            } else {
                Scheme::Held(self.types.spelt(row.1.as_bytes())?)
            };
            self.add(name, Meaning { status, scheme }, origin)?;
        }
        Ok(())
    }

    /// The number of a name.
    pub(crate) fn name(&mut self, name: &[u8]) -> Result<u32, NoMemory> {
        self.names.number(self.alloc, name)
    }

    /// Adds a value name to the scope, with what it stands for.
    pub(crate) fn add(
        &mut self,
        name: u32,
        meaning: Meaning,
        origin: Stands,
    ) -> Result<(), NoMemory> {
        let number = self.meanings.len();
        if number >= 4_294_967_295 {
            return Err(NoMemory);
        }
        self.meanings.push(meaning)?;
        self.origins.push(origin)?;
        self.values.add(name, number as u32)
    }

    /// Adds a type name to the scope.
    pub(crate) fn add_type(&mut self, name: &[u8], function: TypeFunction) -> Result<(), NoMemory> {
        let name = self.name(name)?;
        let number = self.functions.len();
        if number >= 4_294_967_295 {
            return Err(NoMemory);
        }
        self.functions.push(function)?;
        self.type_names.add(name, number as u32)
    }

    /// What a value name stands for.
    pub(crate) fn meaning(&self, name: u32) -> Option<Meaning> {
        let number = self.values.find(name)?;
        self.meanings.get(number as usize).copied()
    }

    /// Where a value name comes from.
    pub(crate) fn origin(&self, name: u32) -> Stands {
        match self.values.find(name) {
            Some(number) => self
                .origins
                .get(number as usize)
                .copied()
                .unwrap_or(Stands::Nothing),
            None => Stands::Nothing,
        }
    }

    /// Notes what the name of a node stands for.
    pub(crate) fn note(&mut self, node: usize, stands: Stands) -> Result<(), NoMemory> {
        for _ in self.stands.len()..node.saturating_add(1) {
            self.stands.push(Stands::Nothing)?;
        }
        if let Some(place) = self.stands.get_mut(node) {
            *place = stands;
        }
        Ok(())
    }

    /// What a type name stands for.
    pub(crate) fn function(&mut self, name: &[u8]) -> Result<Option<&TypeFunction>, NoMemory> {
        let name = self.name(name)?;
        match self.type_names.find(name) {
            Some(number) => Ok(self.functions.get(number as usize)),
            None => Ok(None),
        }
    }

    /// An instance of a scheme.
    pub(crate) fn instance(&mut self, scheme: Scheme) -> Result<u32, Stop> {
        match scheme {
            Scheme::Held(class) => Ok(class),
            Scheme::General(class, mark) => self.types.copy(class, mark),
            Scheme::Spelt(steps) => self.types.spelt(steps.as_bytes()),
        }
    }
}

/// So many times the same.
pub(crate) fn flags(alloc: Global, count: usize, flag: bool) -> Result<Vec<bool>, NoMemory> {
    let mut flags = Vec::new(alloc);
    for _ in 0..count {
        flags.push(flag)?;
    }
    Ok(flags)
}
