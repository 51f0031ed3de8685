// Values: what acts have made so far, the newest first.
ghost use Rattle.std.specs.Prelude.{◌≡◌, ◌∷◌, [], OnOk, MatchOption, List, Option, ℕ};
ghost use Rattle.parse_values.specs.Values.{on_exp_val, on_pat_val, on_ty_val, on_dec_val, on_def_val, on_exp, on_exps, on_rules, on_pieces, on_pat, on_pats, on_ty, on_tys, on_dec, on_decs, on_binds, on_recs, on_vars, on_abbrevs, on_cons, on_datas, on_head, on_con, on_clause_pat};
ghost use Rattle.parse_values.specs.declared.value.Val.{Val};
ghost use Rattle.parse_values.specs.declared.value.ExpVal.{ExpVal};
ghost use Rattle.parse_values.specs.declared.value.PatVal.{PatVal};
ghost use Rattle.parse_values.specs.declared.value.TyVal.{TyVal};
ghost use Rattle.parse_values.specs.declared.value.DecVal.{DecVal};
ghost use Rattle.parse_values.specs.declared.value.DefVal.{DefVal};

use sml_syntax::{Dec, Exp, Listed, NoMemory, Pat, PatForm, Piece, Rule, Span, Text, Ty};
use std::alloc::Global;
use std::marker::Model;

/// An expression, or what is gathered for one.
#[derive(Drop)]
pub enum ExpVal {
    One(Exp),
    Many(Listed<Exp>),
    Rules(Listed<Rule>),
    Pieces(Listed<Piece>),
}

/// A pattern, or patterns that are gathered.
#[derive(Drop)]
pub enum PatVal {
    One(Pat),
    Many(Listed<Pat>),
    /// The patterns of a clause that has several.
    Tupled(Listed<Pat>),
}

/// A type, or types that are gathered.
#[derive(Drop)]
pub enum TyVal {
    One(Ty),
    Many(Listed<Ty>),
}

/// A declaration, or what is gathered for one.
#[derive(Drop)]
pub enum DecVal {
    One(Dec),
    Many(Listed<Dec>),
    Binds(Listed<(Pat, Exp)>),
    Recs(Listed<(Text, Listed<Rule>)>),
}

/// What is gathered for declarations of types and exceptions.
#[derive(Drop)]
pub enum DefVal {
    Vars(Listed<Text>),
    Abbrevs(Listed<(Listed<Text>, Text, Ty)>),
    Cons(Listed<(Text, Option<Ty>)>),
    Datas(Listed<(Listed<Text>, Text, Listed<(Text, Option<Ty>)>)>),
    /// A type's variables and name.
    Head(Listed<Text>, Text),
    /// A constructor, and the type of its argument, if any.
    Con(Text, Option<Ty>),
}

/// A part of a tree, or parts that are still being gathered.
#[derive(Drop)]
pub enum Val {
    Exp(ExpVal),
    Pat(PatVal),
    Ty(TyVal),
    Dec(DecVal),
    Def(DefVal),
}

/// The values so far. Contracts see them as a list, the newest first.
#[derive(Drop)]
pub struct Values {
    items: Vec<Val>,
}

impl Model for Values {
    ghost use Rattle.std.specs.Prelude.{List, reverse};
    ghost use Rattle.std.specs.Coded.{coded_list};
    ghost use Rattle.parse_values.specs.declared.value.Val.{Val};
    ghost use Rattle.parse_values.specs.contracts.value.Val as row;

    ghost Value = { List Val };

    ghost coded = { coded_list row.the_row.coded };

    ghost view = { λ v. reverse v.items.items };
}

impl Values {
    pub fn new(alloc: Global) -> Values
        ensures { result ≡ [] }
    {
        Values {
            items: Vec::new(alloc),
        }
    }

    pub fn push(&mut self, value: Val) -> Result<(), NoMemory>
        ensures { OnOk result (self.new ≡ value ∷ self.old) }
    {
        self.items.push(value)?;
        Ok(())
    }

    /// Values of the wrong kind on top: nothing can be built any more.
    pub fn clear(&mut self)
        ensures { self.new ≡ [] }
    {
        self.items.clear();
    }

    fn take_exp_val(&mut self) -> Option<ExpVal>
        ensures { MatchOption result ((self.new ≡ []) × ((f : ExpVal → List Val → List Val) → on_exp_val f self.old ≡ [])) (λ x. self.old ≡ Val.Exp x ∷ self.new) }
    {
        match self.items.pop() {
            Some(Val::Exp(value)) => Some(value),
            _ => {
                self.items.clear();
                None
            }
        }
    }

    fn take_pat_val(&mut self) -> Option<PatVal>
        ensures { MatchOption result ((self.new ≡ []) × ((f : PatVal → List Val → List Val) → on_pat_val f self.old ≡ [])) (λ x. self.old ≡ Val.Pat x ∷ self.new) }
    {
        match self.items.pop() {
            Some(Val::Pat(value)) => Some(value),
            _ => {
                self.items.clear();
                None
            }
        }
    }

    fn take_ty_val(&mut self) -> Option<TyVal>
        ensures { MatchOption result ((self.new ≡ []) × ((f : TyVal → List Val → List Val) → on_ty_val f self.old ≡ [])) (λ x. self.old ≡ Val.Ty x ∷ self.new) }
    {
        match self.items.pop() {
            Some(Val::Ty(value)) => Some(value),
            _ => {
                self.items.clear();
                None
            }
        }
    }

    fn take_dec_val(&mut self) -> Option<DecVal>
        ensures { MatchOption result ((self.new ≡ []) × ((f : DecVal → List Val → List Val) → on_dec_val f self.old ≡ [])) (λ x. self.old ≡ Val.Dec x ∷ self.new) }
    {
        match self.items.pop() {
            Some(Val::Dec(value)) => Some(value),
            _ => {
                self.items.clear();
                None
            }
        }
    }

    fn take_def_val(&mut self) -> Option<DefVal>
        ensures { MatchOption result ((self.new ≡ []) × ((f : DefVal → List Val → List Val) → on_def_val f self.old ≡ [])) (λ x. self.old ≡ Val.Def x ∷ self.new) }
    {
        match self.items.pop() {
            Some(Val::Def(value)) => Some(value),
            _ => {
                self.items.clear();
                None
            }
        }
    }

    #[tactic(auto, unfolding(crate::specs::Values::on_exp))]
    pub fn take_exp(&mut self) -> Option<Exp>
        ensures { MatchOption result ((self.new ≡ []) × ((f : Exp → List Val → List Val) → on_exp f self.old ≡ [])) (λ x. (self.old ≡ Val.Exp (ExpVal.One x) ∷ self.new) × ((f : Exp → List Val → List Val) → on_exp f self.old ≡ f x self.new)) }
    {
        match self.take_exp_val() {
            Some(ExpVal::One(value)) => Some(value),
            Some(_) => {
                self.clear();
                None
            }
            None => None,
        }
    }

    #[tactic(auto, unfolding(crate::specs::Values::on_exps))]
    pub fn take_exps(&mut self) -> Option<Listed<Exp>>
        ensures { MatchOption result ((self.new ≡ []) × ((f : List Exp → List Val → List Val) → on_exps f self.old ≡ [])) (λ x. (self.old ≡ Val.Exp (ExpVal.Many x) ∷ self.new) × ((f : List Exp → List Val → List Val) → on_exps f self.old ≡ f x self.new)) }
    {
        match self.take_exp_val() {
            Some(ExpVal::Many(value)) => Some(value),
            Some(_) => {
                self.clear();
                None
            }
            None => None,
        }
    }

    #[tactic(auto, unfolding(crate::specs::Values::on_rules))]
    pub fn take_rules(&mut self) -> Option<Listed<Rule>>
        ensures { MatchOption result ((self.new ≡ []) × ((f : List Rule → List Val → List Val) → on_rules f self.old ≡ [])) (λ x. (self.old ≡ Val.Exp (ExpVal.Rules x) ∷ self.new) × ((f : List Rule → List Val → List Val) → on_rules f self.old ≡ f x self.new)) }
    {
        match self.take_exp_val() {
            Some(ExpVal::Rules(value)) => Some(value),
            Some(_) => {
                self.clear();
                None
            }
            None => None,
        }
    }

    #[tactic(auto, unfolding(crate::specs::Values::on_pieces))]
    pub fn take_pieces(&mut self) -> Option<Listed<Piece>>
        ensures { MatchOption result ((self.new ≡ []) × ((f : List Piece → List Val → List Val) → on_pieces f self.old ≡ [])) (λ x. (self.old ≡ Val.Exp (ExpVal.Pieces x) ∷ self.new) × ((f : List Piece → List Val → List Val) → on_pieces f self.old ≡ f x self.new)) }
    {
        match self.take_exp_val() {
            Some(ExpVal::Pieces(value)) => Some(value),
            Some(_) => {
                self.clear();
                None
            }
            None => None,
        }
    }

    #[tactic(auto, unfolding(crate::specs::Values::on_pat))]
    pub fn take_pat(&mut self) -> Option<Pat>
        ensures { MatchOption result ((self.new ≡ []) × ((f : Pat → List Val → List Val) → on_pat f self.old ≡ [])) (λ x. (self.old ≡ Val.Pat (PatVal.One x) ∷ self.new) × ((f : Pat → List Val → List Val) → on_pat f self.old ≡ f x self.new)) }
    {
        match self.take_pat_val() {
            Some(PatVal::One(value)) => Some(value),
            Some(_) => {
                self.clear();
                None
            }
            None => None,
        }
    }

    #[tactic(auto, unfolding(crate::specs::Values::on_pats))]
    pub fn take_pats(&mut self) -> Option<Listed<Pat>>
        ensures { MatchOption result ((self.new ≡ []) × ((f : List Pat → List Val → List Val) → on_pats f self.old ≡ [])) (λ x. (self.old ≡ Val.Pat (PatVal.Many x) ∷ self.new) × ((f : List Pat → List Val → List Val) → on_pats f self.old ≡ f x self.new)) }
    {
        match self.take_pat_val() {
            Some(PatVal::Many(value)) => Some(value),
            Some(_) => {
                self.clear();
                None
            }
            None => None,
        }
    }

    #[tactic(auto, unfolding(crate::specs::Values::on_ty))]
    pub fn take_ty(&mut self) -> Option<Ty>
        ensures { MatchOption result ((self.new ≡ []) × ((f : Ty → List Val → List Val) → on_ty f self.old ≡ [])) (λ x. (self.old ≡ Val.Ty (TyVal.One x) ∷ self.new) × ((f : Ty → List Val → List Val) → on_ty f self.old ≡ f x self.new)) }
    {
        match self.take_ty_val() {
            Some(TyVal::One(value)) => Some(value),
            Some(_) => {
                self.clear();
                None
            }
            None => None,
        }
    }

    #[tactic(auto, unfolding(crate::specs::Values::on_tys))]
    pub fn take_tys(&mut self) -> Option<Listed<Ty>>
        ensures { MatchOption result ((self.new ≡ []) × ((f : List Ty → List Val → List Val) → on_tys f self.old ≡ [])) (λ x. (self.old ≡ Val.Ty (TyVal.Many x) ∷ self.new) × ((f : List Ty → List Val → List Val) → on_tys f self.old ≡ f x self.new)) }
    {
        match self.take_ty_val() {
            Some(TyVal::Many(value)) => Some(value),
            Some(_) => {
                self.clear();
                None
            }
            None => None,
        }
    }

    #[tactic(auto, unfolding(crate::specs::Values::on_dec))]
    pub fn take_dec(&mut self) -> Option<Dec>
        ensures { MatchOption result ((self.new ≡ []) × ((f : Dec → List Val → List Val) → on_dec f self.old ≡ [])) (λ x. (self.old ≡ Val.Dec (DecVal.One x) ∷ self.new) × ((f : Dec → List Val → List Val) → on_dec f self.old ≡ f x self.new)) }
    {
        match self.take_dec_val() {
            Some(DecVal::One(value)) => Some(value),
            Some(_) => {
                self.clear();
                None
            }
            None => None,
        }
    }

    #[tactic(auto, unfolding(crate::specs::Values::on_decs))]
    pub fn take_decs(&mut self) -> Option<Listed<Dec>>
        ensures { MatchOption result ((self.new ≡ []) × ((f : List Dec → List Val → List Val) → on_decs f self.old ≡ [])) (λ x. (self.old ≡ Val.Dec (DecVal.Many x) ∷ self.new) × ((f : List Dec → List Val → List Val) → on_decs f self.old ≡ f x self.new)) }
    {
        match self.take_dec_val() {
            Some(DecVal::Many(value)) => Some(value),
            Some(_) => {
                self.clear();
                None
            }
            None => None,
        }
    }

    #[tactic(auto, unfolding(crate::specs::Values::on_binds))]
    pub fn take_binds(&mut self) -> Option<Listed<(Pat, Exp)>>
        ensures { MatchOption result ((self.new ≡ []) × ((f : List (Pat × Exp) → List Val → List Val) → on_binds f self.old ≡ [])) (λ x. (self.old ≡ Val.Dec (DecVal.Binds x) ∷ self.new) × ((f : List (Pat × Exp) → List Val → List Val) → on_binds f self.old ≡ f x self.new)) }
    {
        match self.take_dec_val() {
            Some(DecVal::Binds(value)) => Some(value),
            Some(_) => {
                self.clear();
                None
            }
            None => None,
        }
    }

    #[tactic(auto, unfolding(crate::specs::Values::on_recs))]
    pub fn take_recs(&mut self) -> Option<Listed<(Text, Listed<Rule>)>>
        ensures { MatchOption result ((self.new ≡ []) × ((f : List (List ℕ × List Rule) → List Val → List Val) → on_recs f self.old ≡ [])) (λ x. (self.old ≡ Val.Dec (DecVal.Recs x) ∷ self.new) × ((f : List (List ℕ × List Rule) → List Val → List Val) → on_recs f self.old ≡ f x self.new)) }
    {
        match self.take_dec_val() {
            Some(DecVal::Recs(value)) => Some(value),
            Some(_) => {
                self.clear();
                None
            }
            None => None,
        }
    }

    #[tactic(auto, unfolding(crate::specs::Values::on_vars))]
    pub fn take_vars(&mut self) -> Option<Listed<Text>>
        ensures { MatchOption result ((self.new ≡ []) × ((f : List (List ℕ) → List Val → List Val) → on_vars f self.old ≡ [])) (λ x. (self.old ≡ Val.Def (DefVal.Vars x) ∷ self.new) × ((f : List (List ℕ) → List Val → List Val) → on_vars f self.old ≡ f x self.new)) }
    {
        match self.take_def_val() {
            Some(DefVal::Vars(value)) => Some(value),
            Some(_) => {
                self.clear();
                None
            }
            None => None,
        }
    }

    #[tactic(auto, unfolding(crate::specs::Values::on_abbrevs))]
    pub fn take_abbrevs(&mut self) -> Option<Listed<(Listed<Text>, Text, Ty)>>
        ensures { MatchOption result ((self.new ≡ []) × ((f : List (List (List ℕ) × List ℕ × Ty) → List Val → List Val) → on_abbrevs f self.old ≡ [])) (λ x. (self.old ≡ Val.Def (DefVal.Abbrevs x) ∷ self.new) × ((f : List (List (List ℕ) × List ℕ × Ty) → List Val → List Val) → on_abbrevs f self.old ≡ f x self.new)) }
    {
        match self.take_def_val() {
            Some(DefVal::Abbrevs(value)) => Some(value),
            Some(_) => {
                self.clear();
                None
            }
            None => None,
        }
    }

    #[tactic(auto, unfolding(crate::specs::Values::on_cons))]
    pub fn take_cons(&mut self) -> Option<Listed<(Text, Option<Ty>)>>
        ensures { MatchOption result ((self.new ≡ []) × ((f : List (List ℕ × Option Ty) → List Val → List Val) → on_cons f self.old ≡ [])) (λ x. (self.old ≡ Val.Def (DefVal.Cons x) ∷ self.new) × ((f : List (List ℕ × Option Ty) → List Val → List Val) → on_cons f self.old ≡ f x self.new)) }
    {
        match self.take_def_val() {
            Some(DefVal::Cons(value)) => Some(value),
            Some(_) => {
                self.clear();
                None
            }
            None => None,
        }
    }

    #[tactic(auto, unfolding(crate::specs::Values::on_datas))]
    pub fn take_datas(&mut self) -> Option<Listed<(Listed<Text>, Text, Listed<(Text, Option<Ty>)>)>>
        ensures { MatchOption result ((self.new ≡ []) × ((f : List (List (List ℕ) × List ℕ × List (List ℕ × Option Ty)) → List Val → List Val) → on_datas f self.old ≡ [])) (λ x. (self.old ≡ Val.Def (DefVal.Datas x) ∷ self.new) × ((f : List (List (List ℕ) × List ℕ × List (List ℕ × Option Ty)) → List Val → List Val) → on_datas f self.old ≡ f x self.new)) }
    {
        match self.take_def_val() {
            Some(DefVal::Datas(value)) => Some(value),
            Some(_) => {
                self.clear();
                None
            }
            None => None,
        }
    }

    #[tactic(auto, unfolding(crate::specs::Values::on_head))]
    pub fn take_head(&mut self) -> Option<(Listed<Text>, Text)>
        ensures { MatchOption result ((self.new ≡ []) × ((f : List (List ℕ) → List ℕ → List Val → List Val) → on_head f self.old ≡ [])) (λ x. (self.old ≡ Val.Def (DefVal.Head x.0 x.1) ∷ self.new) × ((f : List (List ℕ) → List ℕ → List Val → List Val) → on_head f self.old ≡ f x.0 x.1 self.new)) }
    {
        match self.take_def_val() {
            Some(DefVal::Head(names, name)) => Some((names, name)),
            Some(_) => {
                self.clear();
                None
            }
            None => None,
        }
    }

    #[tactic(auto, unfolding(crate::specs::Values::on_con))]
    pub fn take_con(&mut self) -> Option<(Text, Option<Ty>)>
        ensures { MatchOption result ((self.new ≡ []) × ((f : List ℕ → Option Ty → List Val → List Val) → on_con f self.old ≡ [])) (λ x. (self.old ≡ Val.Def (DefVal.Con x.0 x.1) ∷ self.new) × ((f : List ℕ → Option Ty → List Val → List Val) → on_con f self.old ≡ f x.0 x.1 self.new)) }
    {
        match self.take_def_val() {
            Some(DefVal::Con(name, argument)) => Some((name, argument)),
            Some(_) => {
                self.clear();
                None
            }
            None => None,
        }
    }

    /// The pattern of a clause: its only one, or a tuple of several.
    #[tactic(auto, unfolding(crate::specs::Values::on_clause_pat))]
    pub fn take_clause_pat(&mut self, span: Span) -> Option<Pat>
        ensures { MatchOption result ((self.new ≡ []) × ((f : Pat → List Val → List Val) → on_clause_pat span f self.old ≡ [])) (λ x. (f : Pat → List Val → List Val) → on_clause_pat span f self.old ≡ f x self.new) }
    {
        match self.take_pat_val() {
            Some(PatVal::Tupled(pats)) => Some(Pat {
                span,
                form: PatForm::Tuple(pats),
            }),
            Some(PatVal::Many(pats)) => {
                let mut pats = pats.into_vec();
                let pat = pats.pop();
                if pats.is_empty() && pat.is_some() {
                    return pat;
                }
                self.clear();
                None
            }
            Some(PatVal::One(_)) => {
                self.clear();
                None
            }
            None => None,
        }
    }
}
