// Declarations of types and exceptions.
use crate::binding::are_distinct;
use crate::context::{Context, flags};
use crate::stands::{BASIS_DATATYPES, Stands};
use hm_scheme::{Meaning, Scheme, Status, Stop, TypeFunction, TypeMeaning, is_long, may_construct};
use sml_syntax::{Constructor, Listed, Text, Ty, TyForm};

pub(crate) type TypeBinding = (Listed<Text>, Text, Ty);

pub(crate) type Declared = (Text, Option<Ty>);

pub(crate) type DatatypeBinding = (Listed<Text>, Text, Listed<Declared>);

// Whether arguments are just these variables.
fn are_variables(names: &[Text], arguments: &[Ty]) -> bool {
    if names.len() != arguments.len() {
        return false;
    }
    for i in 0..names.len() {
        match arguments.get(i).map(|t| &t.form) {
            Some(TyForm::Var(name)) => {
                if name.as_bytes() != names[i].as_bytes() {
                    return false;
                }
            }
            _ => return false,
        }
    }
    true
}

// Whether each datatype of a declaration stands in a type at its own variables alone.
#[cycle(uniform)]
fn is_uniform(t: &Ty, own: &[DatatypeBinding]) -> bool {
    match &t.form {
        TyForm::Var(_) => true,
        TyForm::Con(name, arguments) => {
            for bind in own {
                if bind.1.as_bytes() == name.as_bytes()
                    && !are_variables(bind.0.as_slice(), arguments.as_slice())
                {
                    return false;
                }
            }
            are_uniform(arguments.as_slice(), own)
        }
        TyForm::Tuple(ts) => are_uniform(ts.as_slice(), own),
        TyForm::Arrow(from, to) => is_uniform(from.get(), own) && is_uniform(to.get(), own),
    }
}

#[cycle(uniform)]
fn are_uniform(ts: &[Ty], own: &[DatatypeBinding]) -> bool {
    for t in ts {
        if !is_uniform(t, own) {
            return false;
        }
    }
    true
}

impl Context {
    // Answers `Ill` where a name stands twice.
    fn are_different(&mut self, names: &[Text]) -> Result<(), Stop> {
        let mut numbers = Vec::new(self.alloc);
        for name in names {
            let number = self.name(name.as_bytes())?;
            numbers.push(number)?;
        }
        are_distinct(numbers)
    }

    // New classes for type variables; in `datatype` those with two primes admit equality.
    fn parameters(&mut self, names: &[Text], restricts: bool) -> Result<Vec<u32>, Stop> {
        self.are_different(names)?;
        let mut classes = Vec::new(self.alloc);
        for name in names {
            let class = self
                .types
                .var(restricts && name.as_bytes().starts_with(b"''".as_slice()))?;
            classes.push(class)?;
        }
        Ok(classes)
    }

    /// `type`: all types are read before the names are bound.
    pub(crate) fn abbreviations(&mut self, binds: &[TypeBinding]) -> Result<(), Stop> {
        if binds.is_empty() {
            return Err(Stop::Ill);
        }
        let mut numbers = Vec::new(self.alloc);
        let mut functions = Vec::new(self.alloc);
        for bind in binds {
            numbers.push(self.type_number(&bind.1)?)?;
            functions.push(self.abbreviation(bind)?)?;
        }
        are_distinct(numbers)?;
        for bind in binds.iter().rev() {
            let function = functions.pop().ok_or(Stop::Ill)?;
            self.add_type(bind.1.as_bytes(), function)?;
        }
        Ok(())
    }

    // The number of a name that a declaration of types may bind.
    fn type_number(&mut self, name: &Text) -> Result<u32, Stop> {
        if is_long(name.as_bytes()) {
            return Err(Stop::Ill);
        }
        Ok(self.name(name.as_bytes())?)
    }

    fn abbreviation(&mut self, bind: &TypeBinding) -> Result<TypeFunction, Stop> {
        let mark = self.types.mark();
        let names = bind.0.as_slice();
        let mut classes = self.parameters(names, false)?;
        let arity = classes.len();
        let class = self.ty(&bind.2, names, classes.as_slice())?;
        let mut asked = flags(self.alloc, arity, false)?;
        let admits = self.admits(&bind.2, names, &mut asked, &[], &[])?;
        let whole = if arity == 0 {
            class
        } else {
            classes.push(class)?;
            self.types.tuple(classes.as_slice())?
        };
        Ok(TypeFunction {
            arity,
            equality: if admits { Some(asked) } else { None },
            meaning: TypeMeaning::Written(whole, mark),
        })
    }

    /// `datatype`: the names are bound before the types of arguments are read.
    pub(crate) fn datatypes(&mut self, binds: &[DatatypeBinding]) -> Result<(), Stop> {
        if binds.is_empty() {
            return Err(Stop::Ill);
        }
        self.check_datatypes(binds)?;
        let chosen = self.equal_datatypes(binds)?;
        let first = self.types.declared.saturating_add(BASIS_DATATYPES);
        let mut numbers = Vec::new(self.alloc);
        for i in 0..binds.len() {
            let arity = binds[i].0.as_slice().len();
            if arity > 4_294_967_295 {
                return Err(Stop::NoMemory);
            }
            let equal = chosen.get(i).copied().unwrap_or(false);
            let number = self.types.declare_datatype(arity as u32, equal)?;
            numbers.push(number)?;
            let equality = if equal {
                Some(flags(self.alloc, arity, true)?)
            } else {
                None
            };
            let meaning = TypeMeaning::Name(number);
            self.add_type(
                binds[i].1.as_bytes(),
                TypeFunction {
                    arity,
                    equality,
                    meaning,
                },
            )?;
        }
        let mark = self.types.mark();
        for i in 0..binds.len() {
            let number = numbers.get(i).copied().ok_or(Stop::Ill)?;
            let names = binds[i].0.as_slice();
            let classes = self.parameters(names, true)?;
            let result = self.types.con(number, classes.as_slice())?;
            let datatype = first.saturating_add(i.min(4_294_967_295) as u32);
            for (place, constructor) in binds[i].2.as_slice().iter().enumerate() {
                let origin = Stands::Con(Constructor::Data(
                    datatype,
                    place.min(4_294_967_295) as u32,
                ));
                self.constructor(constructor, names, classes.as_slice(), result, mark, origin)?;
            }
            self.parameters.push(Listed::of(classes))?;
        }
        Ok(())
    }

    // What names the declaration may bind, and that its datatypes are uniform.
    fn check_datatypes(&mut self, binds: &[DatatypeBinding]) -> Result<(), Stop> {
        let mut types = Vec::new(self.alloc);
        let mut values = Vec::new(self.alloc);
        for bind in binds {
            types.push(self.type_number(&bind.1)?)?;
            if bind.2.as_slice().is_empty() {
                return Err(Stop::Ill);
            }
            for constructor in bind.2.as_slice() {
                values.push(self.constructor_number(constructor)?)?;
                if let Some(t) = &constructor.1 {
                    if !is_uniform(t, binds) {
                        return Err(Stop::Ill);
                    }
                }
            }
        }
        are_distinct(types)?;
        are_distinct(values)
    }

    fn constructor_number(&mut self, constructor: &Declared) -> Result<u32, Stop> {
        if !may_construct(constructor.0.as_bytes()) {
            return Err(Stop::Ill);
        }
        Ok(self.name(constructor.0.as_bytes())?)
    }

    // Adds a constructor of this type, whose argument has these variables.
    fn constructor(
        &mut self,
        constructor: &Declared,
        names: &[Text],
        classes: &[u32],
        datatype: u32,
        mark: u32,
        origin: Stands,
    ) -> Result<(), Stop> {
        let name = self.name(constructor.0.as_bytes())?;
        let (status, class) = match &constructor.1 {
            Some(t) => {
                let argument = self.ty(t, names, classes)?;
                self.arguments.push(Some(argument))?;
                (Status::Applied, self.types.function(argument, datatype)?)
            }
            None => {
                self.arguments.push(None)?;
                (Status::Constant, datatype)
            }
        };
        let scheme = if names.is_empty() {
            Scheme::Held(class)
        } else {
            Scheme::General(class, mark)
        };
        self.add(name, Meaning { status, scheme }, origin)?;
        Ok(())
    }

    /// `exception`: the names are bound after all types of arguments are read.
    pub(crate) fn exceptions(&mut self, binds: &[Declared]) -> Result<(), Stop> {
        if binds.is_empty() {
            return Err(Stop::Ill);
        }
        let mut numbers = Vec::new(self.alloc);
        for bind in binds {
            numbers.push(self.constructor_number(bind)?)?;
        }
        are_distinct(numbers)?;
        let mark = self.types.mark();
        for bind in binds {
            let origin = Stands::Con(Constructor::Exn(self.exceptions));
            self.constructor(bind, &[], &[], self.plain.exn, mark, origin)?;
            self.exceptions = self.exceptions.saturating_add(1);
        }
        Ok(())
    }
}
