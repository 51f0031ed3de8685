// Expressions and matches.
ghost use Rattle.std.specs.Prelude.{OnOk};
ghost use Rattle.typing_rules.specs.Scope.{UnboundInExp, UnboundInRule, antiquoted};
ghost use Rattle.hm_scope.specs.Least.{Sees, Some_of, InPiece};

use crate::search::Search;
use sml_syntax::{Exp, ExpForm, NoMemory, Piece, Rule};

impl Search {
    #[cycle(programs)]
    pub(crate) fn exp(&mut self, e: &Exp) -> Result<(), NoMemory>
        ensures { OnOk result (Sees (UnboundInExp self.old.names e.now) self.old self.new) }
    {
        match &e.form {
            ExpForm::Int(_) | ExpForm::Char(_) | ExpForm::Str(_) | ExpForm::Unit => Ok(()),
            ExpForm::Name(name) => {
                if self.status(name.as_bytes()).is_none() {
                    self.find(e.span.from);
                }
                Ok(())
            }
            ExpForm::Tuple(es) | ExpForm::List(es) | ExpForm::Seq(es) => self.exps(es.as_slice()),
            ExpForm::App(first, second)
            | ExpForm::Both(first, second)
            | ExpForm::Either(first, second) => {
                self.exp(first.get())?;
                self.exp(second.get())
            }
            ExpForm::Let(ds, es) => {
                let outer = self.depth();
                self.decs(ds.as_slice())?;
                self.exps(es.as_slice())?;
                self.cut(outer);
                Ok(())
            }
            ExpForm::Fn(rules) => self.rules(rules.as_slice()),
            ExpForm::Case(part, rules) | ExpForm::Handle(part, rules) => {
                self.exp(part.get())?;
                self.rules(rules.as_slice())
            }
            ExpForm::Raise(part) => self.exp(part.get()),
            ExpForm::If(test, chosen, otherwise) => {
                self.exp(test.get())?;
                self.exp(chosen.get())?;
                self.exp(otherwise.get())
            }
            ExpForm::Quote(pieces) => self.pieces(pieces.as_slice()),
            ExpForm::Typed(part, t) => {
                self.exp(part.get())?;
                self.ty(&[], t);
                Ok(())
            }
        }
    }

    #[cycle(programs)]
    fn exps(&mut self, es: &[Exp]) -> Result<(), NoMemory>
        ensures { OnOk result (Sees (Some_of (UnboundInExp self.old.names) es.now) self.old self.new) }
    {
        for e in es {
            self.exp(e)?;
        }
        Ok(())
    }

    #[cycle(programs)]
    fn pieces(&mut self, pieces: &[Piece]) -> Result<(), NoMemory>
        ensures { OnOk result (Sees (Some_of (UnboundInExp self.old.names) (antiquoted pieces.now)) self.old self.new) }
    {
        for piece in pieces {
            self.piece(piece)?;
        }
        Ok(())
    }

    #[cycle(programs)]
    fn piece(&mut self, piece: &Piece) -> Result<(), NoMemory>
        ensures { OnOk result (Sees (InPiece self.old.names piece.now) self.old self.new) }
    {
        match piece {
            Piece::Plain(_) => Ok(()),
            Piece::Anti(part) => self.exp(part),
        }
    }

    #[cycle(programs)]
    pub(crate) fn rules(&mut self, rules: &[Rule]) -> Result<(), NoMemory>
        ensures { OnOk result (Sees (Some_of (UnboundInRule self.old.names) rules.now) self.old self.new) }
    {
        for rule in rules {
            self.rule(rule)?;
        }
        Ok(())
    }

    #[cycle(programs)]
    fn rule(&mut self, rule: &Rule) -> Result<(), NoMemory>
        ensures { OnOk result (Sees (UnboundInRule self.old.names rule.now) self.old self.new) }
    {
        self.pat(&rule.pat);
        let mut names = Vec::new(self.alloc);
        self.bound(&rule.pat, &mut names)?;
        let outer = self.depth();
        self.add_values(names.as_slice(), false)?;
        self.exp(&rule.body)?;
        self.cut(outer);
        Ok(())
    }
}
