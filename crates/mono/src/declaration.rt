// Declarations of values.
use crate::naming::{Copy, called};
use crate::refusal::MonoRefusal;
use crate::walk::Walk;
use region_syntax::{MBind, MDec, MDef};
use sml_syntax::{Dec, DecForm, Exp, Listed, Pat, Rule};

impl Walk<'_> {
    /// The number behind the last part of declarations that begin with that node.
    #[cycle(behind)]
    pub(crate) fn behind_decs(&self, ds: &[Dec], first: u32) -> u32 {
        let mut node = first;
        for d in ds {
            node = self.behind_dec(d, node);
        }
        node
    }

    /// The number behind the last part of a declaration that begins with that node.
    #[cycle(behind)]
    pub(crate) fn behind_dec(&self, d: &Dec, first: u32) -> u32 {
        match &d.form {
            DecForm::Val(binds) => {
                let mut node = first;
                for _ in binds.as_slice() {
                    node = self.behind(self.behind(node));
                }
                node
            }
            DecForm::ValRec(binds) => {
                let mut node = first;
                for bind in binds.as_slice() {
                    node = self.behind_rules(bind.1.as_slice(), node);
                }
                node
            }
            DecForm::Local(hidden, shown) => {
                let middle = self.behind_decs(hidden.as_slice(), first);
                self.behind_decs(shown.as_slice(), middle)
            }
            DecForm::Abbrev(_) | DecForm::DataDef(_) | DecForm::ExnDef(_) => first,
        }
    }

    // The number behind the last part of rules that begin with that node.
    fn behind_rules(&self, rules: &[Rule], first: u32) -> u32 {
        let mut node = first;
        for _ in rules {
            node = self.behind(self.behind(node));
        }
        node
    }

    /// Where each declaration begins, of those that begin with that node.
    pub(crate) fn starts(&self, ds: &[Dec], first: u32) -> Result<Vec<u32>, MonoRefusal> {
        let mut node = first;
        let mut starts = Vec::new(self.alloc);
        for d in ds {
            starts.push(node)?;
            node = self.behind_dec(d, node);
        }
        Ok(starts)
    }

    /// Declarations behind which all is walked, the last of them first.
    #[cycle(programs)]
    pub(crate) fn decs(&mut self, ds: &[Dec], first: u32) -> Result<Listed<MDec>, MonoRefusal> {
        let starts = self.starts(ds, first)?;
        let mut made = Vec::new(self.alloc);
        for i in (0..ds.len()).rev() {
            let node = starts.get(i).copied().unwrap_or(first);
            self.dec(&ds[i], node, false, &mut made)?;
        }
        made.reverse();
        Ok(Listed::of(made))
    }

    /// A declaration behind which all is walked: adds what is made of it to the list, the last first. A group that nothing reaches
    /// may be left out where it has no effect to lose, as all groups.
    #[cycle(programs)]
    pub(crate) fn dec(
        &mut self,
        d: &Dec,
        node: u32,
        may_go: bool,
        made: &mut Vec<MDec>,
    ) -> Result<(), MonoRefusal> {
        match &d.form {
            DecForm::Val(binds) => {
                let mut node = node;
                let mut copies = Vec::new(self.alloc);
                for bind in binds.as_slice() {
                    self.bind(&bind.1, &bind.0, node, &mut copies)?;
                    node = self.behind(self.behind(node));
                }
                if !copies.is_empty() {
                    made.push(MDec::Val(Listed::of(copies)))?;
                }
                Ok(())
            }
            DecForm::ValRec(_) => self.groups(d, node, may_go, made),
            DecForm::Local(hidden, shown) => {
                let middle = self.behind_decs(hidden.as_slice(), node);
                let shown = self.decs(shown.as_slice(), middle)?;
                let hidden = self.decs(hidden.as_slice(), node)?;
                made.push(MDec::Local(hidden, shown))?;
                Ok(())
            }
            DecForm::Abbrev(_) | DecForm::DataDef(_) | DecForm::ExnDef(_) => Ok(()),
        }
    }

    // The copies of a binding of `val`, in order.
    #[cycle(programs)]
    fn bind(
        &mut self,
        e: &Exp,
        p: &Pat,
        node: u32,
        made: &mut Vec<MBind>,
    ) -> Result<(), MonoRefusal> {
        let binding = self.binding_at(node);
        let variables = self.variables(binding);
        if variables.is_empty() {
            let pat = self.pat(p, node, None)?;
            let exp = self.exp(e, self.behind(node))?;
            made.push(MBind { pat, exp })?;
            return Ok(());
        }
        if !self.is_one_name(p, node) {
            let mut units = Vec::new(self.alloc);
            for _ in variables {
                units.push(self.unit)?;
            }
            self.copy_at(binding, units.as_slice())?;
        }
        let (first, lists) = self.take(binding);
        for (i, types) in lists.iter().enumerate() {
            let number = first.saturating_add(i.min(4_294_967_295) as u32);
            let around = self.begin(variables, types.as_slice())?;
            let pat = self.pat(p, node, Some(Copy { binding, number }))?;
            let exp = self.exp(e, self.behind(node))?;
            made.push(MBind { pat, exp })?;
            self.end(around);
        }
        Ok(())
    }

    // The copies of a group of functions, the last first.
    #[cycle(programs)]
    fn groups(
        &mut self,
        d: &Dec,
        node: u32,
        may_go: bool,
        made: &mut Vec<MDec>,
    ) -> Result<(), MonoRefusal> {
        let binding = self.binding_at(node);
        let variables = self.variables(binding);
        if variables.is_empty() {
            if !may_go || self.is_reached(binding) {
                made.push(self.group(d, node, None)?)?;
            }
            return Ok(());
        }
        let (first, lists) = self.take(binding);
        let mut copies = Vec::new(self.alloc);
        for (i, types) in lists.iter().enumerate() {
            let number = first.saturating_add(i.min(4_294_967_295) as u32);
            let around = self.begin(variables, types.as_slice())?;
            self.make(binding, number);
            copies.push(self.group(d, node, Some(Copy { binding, number }))?)?;
            self.end(around);
        }
        copies.reverse();
        made.append(&mut copies)?;
        Ok(())
    }

    // One copy of a group of functions.
    #[cycle(programs)]
    fn group(&mut self, d: &Dec, first: u32, copy: Option<Copy>) -> Result<MDec, MonoRefusal> {
        let mut node = first;
        let mut defs = Vec::new(self.alloc);
        if let DecForm::ValRec(binds) = &d.form {
            for bind in binds.as_slice() {
                let name = called(self.alloc, &bind.0, copy)?;
                let rules = self.rules(bind.1.as_slice(), node)?;
                defs.push(MDef { name, rules })?;
                node = self.behind_rules(bind.1.as_slice(), node);
            }
        }
        Ok(MDec::ValRec(Listed::of(defs)))
    }

    fn is_reached(&self, binding: u32) -> bool {
        match self.bindings.get(binding as usize) {
            Some(it) => it.reached,
            None => true,
        }
    }
}
