// Declarations: each leaves the names that it adds in scope.
ghost use Rattle.std.specs.Prelude.{◌≡◌, ◌++◌, IfOk, OnOk};
ghost use Rattle.typing_rules.specs.Scope.{UnboundInType, first_parts, type_names, datatype_names, constructor_names};
ghost use Rattle.hm_scope.specs.Least.{Sees, Some_of, SeesDec, SeesDecs, SeesAbbreviations, SeesDatatypes, SeesExceptions, InArguments, InArgument};

use crate::search::Search;
use sml_syntax::{Dec, DecForm, Listed, NoMemory, Rule, Text, Ty};
use std::alloc::Global;

type TypeBinding = (Listed<Text>, Text, Ty);

type Constructor = (Text, Option<Ty>);

type DatatypeBinding = (Listed<Text>, Text, Listed<Constructor>);

impl Search {
    #[cycle(programs)]
    pub(crate) fn decs(&mut self, ds: &[Dec]) -> Result<(), NoMemory>
        ensures { OnOk result (SeesDecs ds.now self.old self.new) }
    {
        for d in ds {
            self.dec(d)?;
        }
        Ok(())
    }

    // The bindings of `val` stand outside the scope of their names, functions within it; the names of the first
    // declarations of `local` are in scope in the others alone.
    #[cycle(programs)]
    fn dec(&mut self, d: &Dec) -> Result<(), NoMemory>
        ensures { OnOk result (SeesDec d.now self.old self.new) }
    {
        match &d.form {
            DecForm::Val(binds) => {
                let mut names = Vec::new(self.alloc);
                for bind in binds.as_slice() {
                    self.pat(&bind.0);
                    self.exp(&bind.1)?;
                    self.bound(&bind.0, &mut names)?;
                }
                self.add_values(names.as_slice(), false)?;
                Ok(())
            }
            DecForm::ValRec(binds) => {
                let names = function_names(self.alloc, binds.as_slice())?;
                self.add_values(names.as_slice(), false)?;
                for bind in binds.as_slice() {
                    self.rules(bind.1.as_slice())?;
                }
                Ok(())
            }
            DecForm::Abbrev(binds) => self.abbreviation_group(binds.as_slice()),
            DecForm::DataDef(binds) => self.datatype_group(binds.as_slice()),
            DecForm::ExnDef(binds) => self.exceptions(binds.as_slice()),
            DecForm::Local(hidden, shown) => {
                let outer = self.depth();
                self.decs(hidden.as_slice())?;
                let inner = self.depth();
                self.decs(shown.as_slice())?;
                self.hide(outer, inner)?;
                Ok(())
            }
        }
    }

    // `type`: the types stand outside the scope of the names.
    fn abbreviation_group(&mut self, binds: &[TypeBinding]) -> Result<(), NoMemory>
        ensures { OnOk result (SeesAbbreviations binds.now self.old self.new) }
    {
        self.abbreviations(binds);
        let names = type_names(self.alloc, binds)?;
        self.add_types(names.as_slice())?;
        Ok(())
    }

    // `datatype`: the types stand within the scope of the type names.
    fn datatype_group(&mut self, binds: &[DatatypeBinding]) -> Result<(), NoMemory>
        ensures { OnOk result (SeesDatatypes binds.now self.old self.new) }
    {
        let types = datatype_names(self.alloc, binds)?;
        self.add_types(types.as_slice())?;
        self.datatypes(binds);
        let names = constructor_names(self.alloc, binds)?;
        self.add_values(names.as_slice(), true)?;
        Ok(())
    }

    // `exception`.
    fn exceptions(&mut self, binds: &[Constructor]) -> Result<(), NoMemory>
        ensures { OnOk result (SeesExceptions binds.now self.old self.new) }
    {
        self.constructors(&[], binds);
        let mut names = Vec::new(self.alloc);
        push_constructors(self.alloc, &mut names, binds)?;
        self.add_values(names.as_slice(), true)?;
        Ok(())
    }

    fn abbreviations(&mut self, binds: &[TypeBinding])
        ensures { Sees (Some_of (λ bind. UnboundInType self.old.names bind.0 bind.2) binds.now) self.old self.new }
    {
        for bind in binds {
            self.ty(bind.0.as_slice(), &bind.2);
        }
    }

    fn datatypes(&mut self, binds: &[DatatypeBinding])
        ensures { Sees (Some_of (λ bind. InArguments self.old.names bind.0 bind.2) binds.now) self.old self.new }
    {
        for bind in binds {
            self.constructors(bind.0.as_slice(), bind.2.as_slice());
        }
    }

    // Constructors whose arguments have these type variables.
    fn constructors(&mut self, variables: &[Text], constructors: &[Constructor])
        ensures { Sees (InArguments self.old.names variables.now constructors.now) self.old self.new }
    {
        for constructor in constructors {
            self.argument(variables, constructor);
        }
    }

    // The argument of a constructor.
    fn argument(&mut self, variables: &[Text], constructor: &Constructor)
        ensures { Sees (InArgument self.old.names variables.now constructor.now) self.old self.new }
    {
        if let Some(t) = &constructor.1 {
            self.ty(variables, t);
        }
    }
}

// The names of functions.
fn function_names(alloc: Global, binds: &[(Text, Listed<Rule>)]) -> Result<Vec<Text>, NoMemory>
    ensures { IfOk result (λ names. names.items ≡ first_parts binds.now) }
{
    let mut names = Vec::new(alloc);
    for bind in binds {
        names.push(bind.0.try_copy(alloc)?)?;
    }
    Ok(names)
}

// The names of abbreviations.
fn type_names(alloc: Global, binds: &[TypeBinding]) -> Result<Vec<Text>, NoMemory>
    ensures { IfOk result (λ names. names.items ≡ type_names binds.now) }
{
    let mut names = Vec::new(alloc);
    for bind in binds {
        names.push(bind.1.try_copy(alloc)?)?;
    }
    Ok(names)
}

// The names of datatypes.
fn datatype_names(alloc: Global, binds: &[DatatypeBinding]) -> Result<Vec<Text>, NoMemory>
    ensures { IfOk result (λ names. names.items ≡ datatype_names binds.now) }
{
    let mut names = Vec::new(alloc);
    for bind in binds {
        names.push(bind.1.try_copy(alloc)?)?;
    }
    Ok(names)
}

// Adds the names of constructors.
fn push_constructors(
    alloc: Global,
    names: &mut Vec<Text>,
    constructors: &[Constructor],
) -> Result<(), NoMemory>
    ensures { OnOk result (names.new.items ≡ names.old.items ++ first_parts constructors.now) }
{
    for constructor in constructors {
        names.push(constructor.0.try_copy(alloc)?)?;
    }
    Ok(())
}

// The names of all constructors.
fn constructor_names(alloc: Global, binds: &[DatatypeBinding]) -> Result<Vec<Text>, NoMemory>
    ensures { IfOk result (λ names. names.items ≡ constructor_names binds.now) }
{
    let mut names = Vec::new(alloc);
    for bind in binds {
        push_constructors(alloc, &mut names, bind.2.as_slice())?;
    }
    Ok(names)
}
