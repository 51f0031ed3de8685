// Expressions and matches.
ghost use Rattle.std.specs.Prelude.{length, map, OnOk};
ghost use Rattle.sml_syntax.specs.declared.tree.ExpForm.{out-ExpForm};
ghost use Rattle.hm_infer.specs.Numbering.{Numbered, AllNumbered, an_exp, a_piece, a_rule, exp_trees};

use crate::inference::Inference;
use hm_scheme::Stop;
use sml_syntax::{Exp, ExpForm, Piece, Rule};

impl Inference {
    /// The class of an expression.
    #[cycle(programs)]
    pub(crate) fn exp(&mut self, e: &Exp) -> Result<u32, Stop>
        ensures { OnOk result (Numbered (an_exp e.now) (length self.old.nodes.items) (length self.new.nodes.items)) }
    {
        let node = self.open()?;
        let class = self.exp_form(&e.form)?;
        self.close(node, class);
        Ok(class)
    }

    #[cycle(programs)]
    fn exp_form(&mut self, form: &ExpForm) -> Result<u32, Stop>
        ensures { OnOk result (AllNumbered (exp_trees (out-ExpForm form.now)) (length self.old.nodes.items) (length self.new.nodes.items)) }
    {
        match form {
            ExpForm::Int(_) => Ok(self.context.plain.int),
            ExpForm::Char(_) => Ok(self.context.plain.char),
            ExpForm::Str(_) => Ok(self.context.plain.string),
            ExpForm::Unit => Ok(self.context.plain.unit),
            ExpForm::Name(name) => self.context.used(name, self.nodes.len().saturating_sub(1)),
            ExpForm::Tuple(es) => {
                let parts = self.exps(es.as_slice())?;
                self.context.types.tuple(parts.as_slice())
            }
            ExpForm::List(es) => {
                let parts = self.exps(es.as_slice())?;
                self.context.list_of(parts.as_slice())
            }
            ExpForm::Seq(es) => self.sequence(es.as_slice()),
            ExpForm::App(f, argument) => {
                let f = self.exp(f.get())?;
                let argument = self.exp(argument.get())?;
                self.context.application(f, argument)
            }
            ExpForm::Let(ds, es) => {
                let outer = self.context.values.depth();
                self.decs(ds.as_slice())?;
                let class = self.sequence(es.as_slice())?;
                self.context.values.cut(outer);
                Ok(class)
            }
            ExpForm::Fn(rules) => {
                let from = self.context.types.var(false)?;
                let to = self.context.types.var(false)?;
                self.rules(rules.as_slice(), from, to)?;
                self.context.types.function(from, to)
            }
            ExpForm::Case(part, rules) => {
                let from = self.exp(part.get())?;
                let to = self.context.types.var(false)?;
                self.rules(rules.as_slice(), from, to)?;
                Ok(to)
            }
            ExpForm::Handle(part, rules) => {
                let class = self.exp(part.get())?;
                self.rules(rules.as_slice(), self.context.plain.exn, class)?;
                Ok(class)
            }
            ExpForm::Raise(part) => {
                self.exp_of(part.get(), self.context.plain.exn)?;
                self.context.types.var(false)
            }
            ExpForm::If(test, chosen, otherwise) => {
                self.exp_of(test.get(), self.context.plain.bool)?;
                let class = self.exp(chosen.get())?;
                self.exp_of(otherwise.get(), class)?;
                Ok(class)
            }
            ExpForm::Both(left, right) => {
                self.exp_of(left.get(), self.context.plain.bool)?;
                self.exp_of(right.get(), self.context.plain.bool)?;
                Ok(self.context.plain.bool)
            }
            ExpForm::Either(left, right) => {
                self.exp_of(left.get(), self.context.plain.bool)?;
                self.exp_of(right.get(), self.context.plain.bool)?;
                Ok(self.context.plain.bool)
            }
            ExpForm::Quote(pieces) => self.quotation(pieces.as_slice()),
            ExpForm::Typed(part, t) => {
                let class = self.exp(part.get())?;
                self.context.constrain(class, t)
            }
        }
    }

    // An expression that has to be of a class.
    #[cycle(programs)]
    fn exp_of(&mut self, e: &Exp, class: u32) -> Result<(), Stop>
        ensures { OnOk result (Numbered (an_exp e.now) (length self.old.nodes.items) (length self.new.nodes.items)) }
    {
        let found = self.exp(e)?;
        self.context.types.unify(class, found)
    }

    #[cycle(programs)]
    fn exps(&mut self, es: &[Exp]) -> Result<Vec<u32>, Stop>
        ensures { OnOk result (AllNumbered (map an_exp es.now) (length self.old.nodes.items) (length self.new.nodes.items)) }
    {
        let mut classes = Vec::new(self.context.alloc);
        for e in es {
            let class = self.exp(e)?;
            classes.push(class)?;
        }
        Ok(classes)
    }

    // Expressions one after the other: the class of the last.
    #[cycle(programs)]
    fn sequence(&mut self, es: &[Exp]) -> Result<u32, Stop>
        ensures { OnOk result (AllNumbered (map an_exp es.now) (length self.old.nodes.items) (length self.new.nodes.items)) }
    {
        let mut last = None;
        for e in es {
            last = Some(self.exp(e)?);
        }
        last.ok_or(Stop::Ill)
    }

    // A quotation: a list of pieces.
    #[cycle(programs)]
    fn quotation(&mut self, pieces: &[Piece]) -> Result<u32, Stop>
        ensures { OnOk result (AllNumbered (map a_piece pieces.now) (length self.old.nodes.items) (length self.new.nodes.items)) }
    {
        let class = self.context.types.var(false)?;
        for piece in pieces {
            self.piece(piece, class)?;
        }
        self.context.quoted(class)
    }

    // A piece, whose expression has to be of a class.
    #[cycle(programs)]
    fn piece(&mut self, piece: &Piece, class: u32) -> Result<(), Stop>
        ensures { OnOk result (Numbered (a_piece piece.now) (length self.old.nodes.items) (length self.new.nodes.items)) }
    {
        match piece {
            Piece::Plain(_) => Ok(()),
            Piece::Anti(part) => self.exp_of(part, class),
        }
    }

    /// Rules from one class to another.
    #[cycle(programs)]
    pub(crate) fn rules(&mut self, rules: &[Rule], from: u32, to: u32) -> Result<(), Stop>
        ensures { OnOk result (AllNumbered (map a_rule rules.now) (length self.old.nodes.items) (length self.new.nodes.items)) }
    {
        if rules.is_empty() {
            return Err(Stop::Ill);
        }
        for rule in rules {
            self.rule(rule, from, to)?;
        }
        Ok(())
    }

    #[cycle(programs)]
    fn rule(&mut self, rule: &Rule, from: u32, to: u32) -> Result<(), Stop>
        ensures { OnOk result (Numbered (a_rule rule.now) (length self.old.nodes.items) (length self.new.nodes.items)) }
    {
        let mut named = Vec::new(self.context.alloc);
        let class = self.pat(&rule.pat, &mut named)?;
        let outer = self.context.enter_rule(from, class, named.as_slice())?;
        self.exp_of(&rule.body, to)?;
        self.context.values.cut(outer);
        Ok(())
    }
}
