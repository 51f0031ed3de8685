// Bindings of `val`, and groups of functions.
use crate::binding::are_distinct;
use crate::context::Context;
use crate::named::Named;
use crate::stands::Stands;
use hm_scheme::{PRELUDE_LONG, Stop, is_among, may_declare};
use sml_syntax::{Exp, Listed, Rule, Text};

/// The names of a binding of `val`, its number, the mark before it, and whether what isn't older than the mark is generalised.
#[derive(Drop)]
pub(crate) struct Bound {
    pub(crate) named: Vec<Named>,
    number: u32,
    mark: u32,
    steady: bool,
}

/// The names of a group of functions, its number, the mark before it, and the depth of the scope outside it.
#[derive(Drop)]
pub(crate) struct Group {
    named: Vec<Named>,
    number: u32,
    mark: u32,
    outer: usize,
}

impl Context {
    /// Begins a binding of `val`.
    pub(crate) fn begin_bound(&mut self, node: usize) -> Result<Bound, Stop> {
        let number = self.begin_binding(node)?;
        Ok(Bound {
            named: Vec::new(self.alloc),
            number,
            mark: self.types.mark(),
            steady: false,
        })
    }

    /// Ends a binding of `val`, whose pattern and expression have these classes.
    pub(crate) fn end_bound(
        &mut self,
        bound: &mut Bound,
        pattern: u32,
        class: u32,
        e: &Exp,
    ) -> Result<(), Stop> {
        self.types.unify(pattern, class)?;
        bound.steady = self.is_steady(e)?;
        Ok(())
    }

    /// Adds the names of the bindings of one declaration, which have to be different.
    pub(crate) fn add_bounds(&mut self, bounds: &[Bound]) -> Result<(), Stop> {
        if bounds.is_empty() {
            return Err(Stop::Ill);
        }
        let mut names = Vec::new(self.alloc);
        for bound in bounds {
            for it in bound.named.as_slice() {
                names.push(it.name)?;
            }
        }
        are_distinct(names)?;
        for bound in bounds {
            if bound.steady {
                self.generalise(bound.number, bound.named.as_slice(), bound.mark)?;
            } else {
                self.hold(bound.named.as_slice(), Stands::Bound(bound.number, 0))?;
            }
        }
        Ok(())
    }

    /// Begins `fun` or `val rec`: within the group each name has one type.
    pub(crate) fn begin_group(
        &mut self,
        binds: &[(Text, Listed<Rule>)],
        node: usize,
    ) -> Result<Group, Stop> {
        if binds.is_empty() {
            return Err(Stop::Ill);
        }
        let number = self.begin_binding(node)?;
        let mark = self.types.mark();
        let named = self.function_names(binds)?;
        let outer = self.values.depth();
        self.hold(named.as_slice(), Stands::Own(number))?;
        Ok(Group {
            named,
            number,
            mark,
            outer,
        })
    }

    // The names of a group of functions, each with a new class.
    fn function_names(&mut self, binds: &[(Text, Listed<Rule>)]) -> Result<Vec<Named>, Stop> {
        let mut named = Vec::new(self.alloc);
        for bind in binds {
            let name = self.name(bind.0.as_bytes())?;
            if !self.may_recur(name, &bind.0) {
                return Err(Stop::Ill);
            }
            let class = self.types.var(false)?;
            named.push(Named { name, class })?;
        }
        self.are_distinct(named.as_slice())?;
        Ok(named)
    }

    // Whether `fun` may bind the name: as `val` may, or a long name of the prelude that has no binding yet.
    fn may_recur(&self, name: u32, text: &Text) -> bool {
        if is_among(text.as_bytes(), &PRELUDE_LONG) {
            return self.meaning(name).is_none();
        }
        may_declare(text.as_bytes())
    }

    /// New classes for the argument and the result of a function of the group.
    pub(crate) fn function_of(&mut self, group: &Group, place: usize) -> Result<(u32, u32), Stop> {
        let from = self.types.var(false)?;
        let to = self.types.var(false)?;
        let class = self.types.function(from, to)?;
        let own = group.named.get(place).ok_or(Stop::Ill)?.class;
        self.types.unify(own, class)?;
        Ok((from, to))
    }

    /// Ends a group of functions.
    pub(crate) fn end_group(&mut self, group: &Group) -> Result<(), Stop> {
        self.values.cut(group.outer);
        self.generalise(group.number, group.named.as_slice(), group.mark)
    }

    /// Enters the scope of a rule from one class, whose pattern has this class and binds these names, and answers the depth outside.
    pub(crate) fn enter_rule(
        &mut self,
        from: u32,
        pattern: u32,
        named: &[Named],
    ) -> Result<usize, Stop> {
        self.types.unify(from, pattern)?;
        self.are_distinct(named)?;
        let outer = self.values.depth();
        self.hold(named, Stands::Parameter)?;
        Ok(outer)
    }
}
