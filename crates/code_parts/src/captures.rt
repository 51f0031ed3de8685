// The walk that meets each use of a name or a region in a term.
use crate::location::{region_of, type_region};
use crate::primitive::Primitive;
use crate::types::result_type;
use crate::uses::{Captures, Uses};
use region_syntax::{
    FixDef, Place, RBind, RDec, RExp, RExpForm, RPat, RPatForm, RPiece, RRule, RTy,
};
use sml_syntax::{NoMemory, Text};

impl Uses {
    /// The names and regions that the rules of a function use, other than its own name.
    pub fn captured(&mut self, rules: &[RRule], own: Option<&Text>) -> Result<Captures, NoMemory> {
        let depth = self.depth();
        if let Some(name) = own {
            self.bind(name)?;
        }
        self.rules(rules)?;
        self.unbind(depth);
        Ok(self.take())
    }

    #[cycle(captures)]
    fn exp(&mut self, e: &RExp) -> Result<(), NoMemory> {
        match &e.form {
            RExpForm::Name(name) => self.name(name),
            RExpForm::Str(_, at) => self.region(region_of(*at)),
            RExpForm::Prim(name) => self.primitive_value(name, &e.ty),
            RExpForm::Con(_) => self.constructor_value(&e.ty),
            RExpForm::Tuple(parts, at) => self.made_of(parts.as_slice(), *at),
            RExpForm::List(items, at) => self.made_of(items.as_slice(), *at),
            RExpForm::Seq(steps) => self.exps(steps.as_slice()),
            RExpForm::App(f, argument) => {
                self.applied(f.get(), &e.ty)?;
                self.argument(argument.get(), takes_parts(f.get()))
            }
            RExpForm::Let(decs, body) => {
                let depth = self.depth();
                self.decs(decs.as_slice())?;
                self.exps(body.as_slice())?;
                self.unbind(depth);
                Ok(())
            }
            RExpForm::Fn(rules, at) => {
                self.region(region_of(*at))?;
                self.rules(rules.as_slice())
            }
            RExpForm::Case(subject, rules) => {
                match clause_arguments(subject.get(), rules.as_slice()) {
                    Some(arguments) => self.argument_names(arguments)?,
                    None => self.exp(subject.get())?,
                }
                self.rules(rules.as_slice())
            }
            RExpForm::Handle(body, rules) => {
                self.exp(body.get())?;
                self.rules(rules.as_slice())
            }
            RExpForm::Raise(packet) => self.exp(packet.get()),
            RExpForm::If(test, yes, no) => {
                self.exp(test.get())?;
                self.exp(yes.get())?;
                self.exp(no.get())
            }
            RExpForm::Both(left, right) => {
                self.exp(left.get())?;
                self.exp(right.get())
            }
            RExpForm::Either(left, right) => {
                self.exp(left.get())?;
                self.exp(right.get())
            }
            RExpForm::Quote(pieces, at) => {
                self.region(region_of(*at))?;
                self.pieces(pieces.as_slice())
            }
            RExpForm::LetRegion(_, body) => self.exp(body.get()),
            RExpForm::Fix(group, body) => {
                let depth = self.depth();
                self.group(group.as_slice())?;
                self.exp(body.get())?;
                self.unbind(depth);
                Ok(())
            }
            RExpForm::Inst(name, places, _) => {
                self.region(type_region(&e.ty))?;
                self.passed(name, places.as_slice())?;
                self.name(name)
            }
            RExpForm::Int(_) | RExpForm::Char(_) | RExpForm::Unit => Ok(()),
        }
    }

    #[cycle(captures)]
    fn exps(&mut self, es: &[RExp]) -> Result<(), NoMemory> {
        for e in es {
            self.exp(e)?;
        }
        Ok(())
    }

    #[cycle(captures)]
    fn made_of(&mut self, parts: &[RExp], at: Place) -> Result<(), NoMemory> {
        self.region(region_of(at))?;
        self.exps(parts)
    }

    // A function whose application has a type.
    #[cycle(captures)]
    fn applied(&mut self, f: &RExp, ty: &RTy) -> Result<(), NoMemory> {
        match &f.form {
            RExpForm::Inst(name, places, _) => {
                self.passed(name, places.as_slice())?;
                self.name(name)
            }
            RExpForm::Con(_) => self.region(type_region(ty)),
            RExpForm::Prim(name) => {
                self.primitive_places(Primitive::named(name.as_bytes()), &f.ty)
            }
            _ => self.exp(f),
        }
    }

    // An argument, which isn't made where it is a tuple whose parts the function takes.
    #[cycle(captures)]
    fn argument(&mut self, argument: &RExp, takes_parts: bool) -> Result<(), NoMemory> {
        match &argument.form {
            RExpForm::Tuple(parts, _) if takes_parts => self.exps(parts.as_slice()),
            _ => self.exp(argument),
        }
    }

    #[cycle(captures)]
    fn rules(&mut self, rules: &[RRule]) -> Result<(), NoMemory> {
        for rule in rules {
            let depth = self.depth();
            self.pattern_regions(&rule.pat)?;
            self.pattern_names(&rule.pat)?;
            self.exp(&rule.body)?;
            self.unbind(depth);
        }
        Ok(())
    }

    #[cycle(captures)]
    fn pieces(&mut self, pieces: &[RPiece]) -> Result<(), NoMemory> {
        for piece in pieces {
            if let RPiece::Anti(e) = piece {
                self.exp(e)?;
            }
        }
        Ok(())
    }

    #[cycle(captures)]
    fn group(&mut self, group: &[FixDef]) -> Result<(), NoMemory> {
        for def in group {
            self.bind(&def.name)?;
            self.head(def)?;
        }
        for def in group {
            self.region(region_of(def.at))?;
            let outer = self.enter(def)?;
            self.rules(def.rules.as_slice())?;
            self.leave(outer);
        }
        Ok(())
    }

    /// Declarations, whose names stay bound.
    #[cycle(captures)]
    pub fn decs(&mut self, decs: &[RDec]) -> Result<(), NoMemory> {
        for dec in decs {
            match dec {
                RDec::Val(binds) => self.bindings(binds.as_slice())?,
                RDec::ValRec(group) => self.group(group.as_slice())?,
                RDec::Local(hidden, shown) => {
                    let outer = self.depth();
                    self.decs(hidden.as_slice())?;
                    let inner = self.depth();
                    self.decs(shown.as_slice())?;
                    self.hide(outer, inner)?;
                }
            }
        }
        Ok(())
    }

    #[cycle(captures)]
    fn bindings(&mut self, binds: &[RBind]) -> Result<(), NoMemory> {
        for bind in binds {
            self.pattern_regions(&bind.pat)?;
            self.exp(&bind.exp)?;
        }
        for bind in binds {
            self.pattern_names(&bind.pat)?;
        }
        Ok(())
    }

    // ---- patterns: what their texts are made in, and what they bind

    fn pattern_regions(&mut self, pat: &RPat) -> Result<(), NoMemory> {
        match &pat.form {
            RPatForm::Str(_) => self.region(type_region(&pat.ty)),
            RPatForm::Tuple(parts) | RPatForm::List(parts) => {
                for part in parts.as_slice() {
                    self.pattern_regions(part)?;
                }
                Ok(())
            }
            RPatForm::App(_, argument) => self.pattern_regions(argument.get()),
            _ => Ok(()),
        }
    }

    fn pattern_names(&mut self, pat: &RPat) -> Result<(), NoMemory> {
        match &pat.form {
            RPatForm::Name(name) => self.bind(name),
            RPatForm::Tuple(parts) | RPatForm::List(parts) => {
                for part in parts.as_slice() {
                    self.pattern_names(part)?;
                }
                Ok(())
            }
            RPatForm::App(_, argument) => self.pattern_names(argument.get()),
            _ => Ok(()),
        }
    }

    // ---- what values are made in

    fn argument_names(&mut self, arguments: &[RExp]) -> Result<(), NoMemory> {
        for argument in arguments {
            if let RExpForm::Name(name) = &argument.form {
                self.name(name)?;
            }
        }
        Ok(())
    }

    fn constructor_value(&mut self, ty: &RTy) -> Result<(), NoMemory> {
        match result_type(ty) {
            Some(made) => {
                self.region(type_region(ty))?;
                self.region(type_region(made))
            }
            None => Ok(()),
        }
    }

    fn primitive_value(&mut self, name: &Text, ty: &RTy) -> Result<(), NoMemory> {
        let primitive = Primitive::named(name.as_bytes());
        if primitive.is_constant() {
            return Ok(());
        }
        self.region(type_region(ty))?;
        self.primitive_places(primitive, ty)
    }

    // Where the closures between a primitive's arguments, and its result, are made.
    fn primitive_places(&mut self, primitive: Primitive, ty: &RTy) -> Result<(), NoMemory> {
        for region in primitive.places(self.alloc, ty)?.as_slice() {
            self.region(*region)?;
        }
        Ok(())
    }
}

// Whether a function is a primitive that takes the parts of a tuple.
fn takes_parts(f: &RExp) -> bool {
    match &f.form {
        RExpForm::Prim(name) => Primitive::named(name.as_bytes()).takes_tuple(),
        _ => false,
    }
}

/// The arguments that the rules of a function of several patterns are matched with: the function means a
/// `case` on a tuple of names that no script can write, and that tuple isn't made.
pub fn clause_arguments<'a>(subject: &'a RExp, rules: &[RRule]) -> Option<&'a [RExp]> {
    let RExpForm::Tuple(parts, _) = &subject.form else {
        return None;
    };
    let parts = parts.as_slice();
    if are_generated(parts) && are_tuples(rules) {
        return Some(parts);
    }
    None
}

fn are_generated(parts: &[RExp]) -> bool {
    parts.iter().all(|part| is_generated(part))
}

fn is_generated(part: &RExp) -> bool {
    match &part.form {
        RExpForm::Name(name) => match name.as_bytes().first() {
            Some(first) => first.is_ascii_digit(),
            None => false,
        },
        _ => false,
    }
}

fn are_tuples(rules: &[RRule]) -> bool {
    rules
        .iter()
        .all(|rule| matches!(&rule.pat.form, RPatForm::Tuple(_)))
}
