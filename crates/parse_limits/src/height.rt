// Heights of what acts make, with no tree.
ghost use Rattle.std.specs.Prelude.{◌≡◌, [], ◌∷◌, take, drop, OnOk, IfOk, MatchOption};
ghost use Rattle.parse_limits.specs.Heights.{grows, node, gather, exp_growth, pat_growth, ty_growth, dec_growth, growth_of, grown, grown_by, most, top_of, too_high, first_high};

use sml_grammar::{Act, DecAct, ExpAct, Made, PatAct, TyAct};
use sml_syntax::NoMemory;
use std::alloc::Global;
use std::marker::Model;

/// How an act changes heights: it takes so many values, and what it makes is higher by `adds` than the highest of
/// them, which counts as at least `least`.
#[derive(Clone, Copy, Debug, PartialEq, Eq)]
pub struct Growth {
    pub takes: u64,
    pub adds: u64,
    pub least: u64,
}

fn grows(takes: u64, adds: u64, least: u64) -> Growth
    ensures { result ≡ grows takes adds least }
{
    Growth { takes, adds, least }
}

/// A node of so many parts.
fn node(parts: u64) -> Growth
    ensures { result ≡ node parts }
{
    grows(parts, 1, 0)
}

/// Values that are gathered.
fn gather(parts: u64) -> Growth
    ensures { result ≡ gather parts }
{
    grows(parts, 0, 0)
}

#[tactic(auto, unfolding(crate::specs::Heights::exp_growth))]
fn exp_growth(act: &ExpAct) -> Growth
    ensures { result ≡ exp_growth act.now }
{
    match act {
        ExpAct::Int(_, _)
        | ExpAct::Char(_, _)
        | ExpAct::Str(_, _)
        | ExpAct::Name(_, _)
        | ExpAct::Unit(_) => node(0),
        ExpAct::NoExps | ExpAct::NoRules | ExpAct::NoPieces => gather(0),
        ExpAct::First | ExpAct::Plain(_) | ExpAct::EmptyPlain => gather(1),
        ExpAct::Push | ExpAct::AddAnti => gather(2),
        ExpAct::Tuple(_)
        | ExpAct::List(_)
        | ExpAct::Seq(_)
        | ExpAct::Raise(_)
        | ExpAct::Fn(_)
        | ExpAct::Quote(_) => node(1),
        ExpAct::App(_)
        | ExpAct::Typed(_)
        | ExpAct::Both(_)
        | ExpAct::Either(_)
        | ExpAct::Handle(_)
        | ExpAct::Case(_)
        | ExpAct::Let(_) => node(2),
        ExpAct::Infix(_) => grows(3, 2, 0),
        ExpAct::If(_) => node(3),
        ExpAct::AddRule => gather(3),
    }
}

#[tactic(auto, unfolding(crate::specs::Heights::pat_growth))]
fn pat_growth(act: &PatAct) -> Growth
    ensures { result ≡ pat_growth act.now }
{
    match act {
        PatAct::Any(_)
        | PatAct::Int(_, _)
        | PatAct::Char(_, _)
        | PatAct::Str(_, _)
        | PatAct::Unit(_)
        | PatAct::Name(_, _) => node(0),
        PatAct::NoPats => gather(0),
        PatAct::First => gather(1),
        PatAct::Push => gather(2),
        PatAct::Tuple(_) | PatAct::List(_) | PatAct::Tupled => node(1),
        PatAct::Con(_) | PatAct::Typed(_) | PatAct::Pair(_) => node(2),
        PatAct::Cons(_) => grows(2, 2, 0),
    }
}

#[tactic(auto, unfolding(crate::specs::Heights::ty_growth))]
fn ty_growth(act: &TyAct) -> Growth
    ensures { result ≡ ty_growth act.now }
{
    match act {
        TyAct::Var(_, _) => node(0),
        TyAct::NoTys => gather(0),
        TyAct::First => gather(1),
        TyAct::Push => gather(2),
        TyAct::Con(_, _) | TyAct::Tuple(_) => node(1),
        TyAct::Arrow(_) => node(2),
    }
}

#[tactic(auto, unfolding(crate::specs::Heights::dec_growth))]
fn dec_growth(act: &DecAct) -> Growth
    ensures { result ≡ dec_growth act.now }
{
    match act {
        DecAct::NoBinds
        | DecAct::NoRecs
        | DecAct::NoVars
        | DecAct::NoAbbrevs
        | DecAct::NoCons
        | DecAct::Con(_)
        | DecAct::NoDatas
        | DecAct::NoDecs => gather(0),
        DecAct::AddBind | DecAct::AddClause(_) | DecAct::AddAbbrev | DecAct::AddData => gather(3),
        DecAct::Val(_)
        | DecAct::ValRec(_)
        | DecAct::Abbrev(_)
        | DecAct::DataDef(_)
        | DecAct::ExnDef(_) => node(1),
        DecAct::Constrain(_) | DecAct::Local(_) => node(2),
        DecAct::Curry(_, count) => grows(1, *count, 2),
        DecAct::AddRec(_) | DecAct::ConOf | DecAct::AddCon | DecAct::AddDec | DecAct::Item(_) =>
            gather(2),
        DecAct::AddVar(_) | DecAct::Head(_) => gather(1),
        DecAct::It(_) => grows(1, 1, 1),
    }
}

#[tactic(auto, unfolding(crate::specs::Heights::growth_of))]
fn growth_of(act: &Act) -> Option<Growth>
    ensures { result ≡ growth_of act.now }
{
    match act {
        Act::Exp(act) => Some(exp_growth(act)),
        Act::Pat(act) => Some(pat_growth(act)),
        Act::Ty(act) => Some(ty_growth(act)),
        Act::Dec(act) => Some(dec_growth(act)),
        Act::Lack(_, _) => None,
    }
}

/// Heights of values, the newest first.
#[derive(Drop)]
struct Heights {
    numbers: Vec<u64>,
}

impl Model for Heights {
    ghost use Rattle.std.specs.Prelude.{List, ℕ, reverse};

    ghost Value = { List ℕ };

    ghost view = { λ h. reverse h.numbers.items };
}

impl Heights {
    fn new(alloc: Global) -> Heights
        ensures { result ≡ [] }
    {
        Heights {
            numbers: Vec::new(alloc),
        }
    }

    fn push(&mut self, height: u64) -> Result<(), NoMemory>
        ensures { OnOk result (self.new ≡ height ∷ self.old) }
    {
        self.numbers.push(height)?;
        Ok(())
    }

    fn pop(&mut self) -> Option<u64>
        ensures { MatchOption result ((self.old ≡ []) × (self.new ≡ [])) (λ top. self.old ≡ top ∷ self.new) }
    {
        self.numbers.pop()
    }

    /// Takes so many heights, and gives the greatest of them.
    fn take_most(&mut self, count: u64) -> u64
        ensures value { result ≡ most (take count self.old) }
        ensures rest { self.new ≡ drop count self.old }
    {
        let mut most = 0;
        let mut left = count;
        while 0 < left {
            if let Some(height) = self.pop() {
                most = most.max(height);
            }
            left -= 1;
        }
        most
    }

    #[tactic(auto, unfolding(crate::specs::Heights::grown))]
    fn grow(&mut self, growth: Growth) -> Result<(), NoMemory>
        ensures { OnOk result (self.new ≡ grown growth self.old) }
    {
        let most = self.take_most(growth.takes);
        self.push(growth.adds.saturating_add(growth.least.max(most)).min(201))
    }

    #[tactic(auto, using(crate::proofs::Folds::top_last))]
    fn top(&self) -> Option<u64>
        ensures { result ≡ top_of self.now }
    {
        self.numbers.last().copied()
    }
}

/// The place of an item that is too high.
#[tactic(auto, unfolding(crate::specs::Heights::too_high))]
fn too_high(act: &Act, heights: &Heights) -> Option<u64>
    ensures { result ≡ too_high act.now heights.now }
{
    match act {
        Act::Dec(DecAct::Item(from)) => match heights.top() {
            Some(height) if 200 < height => Some(*from),
            _ => None,
        },
        _ => None,
    }
}

/// The place of the first item that is higher than 200.
pub fn first_high(alloc: Global, acts: &[Made]) -> Result<Option<u64>, NoMemory>
    ensures { IfOk result (λ place. place ≡ first_high acts.now []) }
{
    let mut heights = Heights::new(alloc);
    for made in acts {
        if let Some(place) = too_high(&made.act, &heights) {
            return Ok(Some(place));
        }
        if let Some(growth) = growth_of(&made.act) {
            heights.grow(growth)?;
        }
    }
    Ok(None)
}
