// What the machine sees of a token.
ghost use Rattle.std.specs.Prelude.{◌≡◌};
ghost use Rattle.sml_grammar.specs.Marks.{same_mark};
ghost use Rattle.sml_grammar.specs.Sorts.{sort_of, name_sort, mark_sort, plain_sort, is_mark, level_of, begins_exp, begins_atom, begins_tail, begins_pat, begins_ty, begins_dec, begins_body, is_infix, is_infix_name, is_any_name, is_op_name, is_type_name, is_name, is_ty_var, is_star, is_cons, is_plain, is_anti, is_anti_from, is_anti_to, is_quote_to, atom_mark, tail_mark, pattern_mark, declaration_mark, body_mark, open_mark, equal_mark};

use crate::mark::{Mark, mark_of};
use crate::name::infix_level;
use sml_syntax::{Token, TokenForm};

/// What the machine sees of a token.
#[derive(Clone, Copy, Debug, PartialEq, Eq)]
pub enum TokenSort {
    Int(i64),
    Char(u8),
    Str,
    /// A name that isn't infix.
    Name,
    /// An infix name of a level, other than these two.
    Infix(u8),
    /// `*`
    Star,
    /// `::`
    Cons,
    Long,
    TyVar,
    Mark(Mark),
    QuoteFrom,
    /// A nonempty piece of a quotation's text.
    Plain,
    Anti,
    AntiFrom,
    AntiTo,
    QuoteTo,
    /// A token of no production.
    Other,
}

#[tactic(auto, unfolding(crate::specs::Sorts::sort_of))]
pub fn sort_of(token: &Token) -> TokenSort
    ensures { result ≡ sort_of token.now.form }
{
    match &token.form {
        TokenForm::Int(number) => TokenSort::Int(*number),
        TokenForm::Char(byte) => TokenSort::Char(*byte),
        TokenForm::Str(_) => TokenSort::Str,
        TokenForm::Name(name) => name_sort(name.as_bytes()),
        TokenForm::Long(_) => TokenSort::Long,
        TokenForm::TyVar(_) => TokenSort::TyVar,
        TokenForm::Mark(text) => mark_sort(text.as_bytes()),
        TokenForm::QuoteFrom => TokenSort::QuoteFrom,
        TokenForm::Plain(text) => plain_sort(text.as_bytes()),
        TokenForm::Anti(_) => TokenSort::Anti,
        TokenForm::AntiFrom => TokenSort::AntiFrom,
        TokenForm::AntiTo => TokenSort::AntiTo,
        TokenForm::QuoteTo => TokenSort::QuoteTo,
    }
}

#[tactic(auto, unfolding(crate::specs::Sorts::name_sort))]
fn name_sort(name: &[u8]) -> TokenSort
    ensures { result ≡ name_sort name.now }
{
    if name == b"*".as_slice() {
        return TokenSort::Star;
    }
    if name == b"::".as_slice() {
        return TokenSort::Cons;
    }
    match infix_level(name) {
        Some(level) => TokenSort::Infix(level),
        None => TokenSort::Name,
    }
}

#[tactic(auto, unfolding(crate::specs::Sorts::mark_sort))]
fn mark_sort(text: &[u8]) -> TokenSort
    ensures { result ≡ mark_sort text.now }
{
    match mark_of(text) {
        Some(mark) => TokenSort::Mark(mark),
        None => TokenSort::Other,
    }
}

#[tactic(auto, unfolding(crate::specs::Sorts::plain_sort))]
fn plain_sort(text: &[u8]) -> TokenSort
    ensures { result ≡ plain_sort text.now }
{
    if text.is_empty() {
        TokenSort::Other
    } else {
        TokenSort::Plain
    }
}

impl TokenSort {
    #[tactic(auto, unfolding(crate::specs::Sorts::is_mark))]
    pub fn is(self, mark: Mark) -> bool
        ensures { result ≡ is_mark mark self }
    {
        match self {
            TokenSort::Mark(found) => found.is(mark),
            _ => false,
        }
    }

    /// The level of an infix name.
    #[tactic(auto, unfolding(crate::specs::Sorts::level_of))]
    pub fn level(self) -> u8
        ensures { result ≡ level_of self }
    {
        match self {
            TokenSort::Infix(level) => level,
            TokenSort::Star => 7,
            TokenSort::Cons => 5,
            TokenSort::Mark(_) => 4,
            _ => 0,
        }
    }

    #[tactic(auto, unfolding(crate::specs::Sorts::begins_exp))]
    pub fn begins_exp(self) -> bool
        ensures { result ≡ begins_exp self }
    {
        if self.begins_atom() {
            true
        } else {
            self.begins_tail()
        }
    }

    #[tactic(auto, unfolding(crate::specs::Sorts::begins_atom))]
    pub fn begins_atom(self) -> bool
        ensures { result ≡ begins_atom self }
    {
        match self {
            TokenSort::Int(_)
            | TokenSort::Char(_)
            | TokenSort::Str
            | TokenSort::Name
            | TokenSort::Long
            | TokenSort::QuoteFrom => true,
            TokenSort::Mark(mark) => atom_mark(mark),
            _ => false,
        }
    }

    #[tactic(auto, unfolding(crate::specs::Sorts::begins_tail))]
    pub fn begins_tail(self) -> bool
        ensures { result ≡ begins_tail self }
    {
        match self {
            TokenSort::Mark(mark) => tail_mark(mark),
            _ => false,
        }
    }

    #[tactic(auto, unfolding(crate::specs::Sorts::begins_pat))]
    pub fn begins_pat(self) -> bool
        ensures { result ≡ begins_pat self }
    {
        match self {
            TokenSort::Int(_)
            | TokenSort::Char(_)
            | TokenSort::Str
            | TokenSort::Name
            | TokenSort::Long => true,
            TokenSort::Mark(mark) => pattern_mark(mark),
            _ => false,
        }
    }

    #[tactic(auto, unfolding(crate::specs::Sorts::begins_ty))]
    pub fn begins_ty(self) -> bool
        ensures { result ≡ begins_ty self }
    {
        match self {
            TokenSort::TyVar | TokenSort::Name | TokenSort::Long => true,
            TokenSort::Mark(mark) => open_mark(mark),
            _ => false,
        }
    }

    #[tactic(auto, unfolding(crate::specs::Sorts::begins_dec))]
    pub fn begins_dec(self) -> bool
        ensures { result ≡ begins_dec self }
    {
        match self {
            TokenSort::Mark(mark) => declaration_mark(mark),
            _ => false,
        }
    }

    #[tactic(auto, unfolding(crate::specs::Sorts::begins_body))]
    pub fn begins_body(self) -> bool
        ensures { result ≡ begins_body self }
    {
        match self {
            TokenSort::Mark(mark) => body_mark(mark),
            _ => false,
        }
    }

    #[tactic(auto, unfolding(crate::specs::Sorts::is_infix))]
    pub fn is_infix(self) -> bool
        ensures { result ≡ is_infix self }
    {
        match self {
            TokenSort::Infix(_) | TokenSort::Star | TokenSort::Cons => true,
            TokenSort::Mark(mark) => equal_mark(mark),
            _ => false,
        }
    }

    #[tactic(auto, unfolding(crate::specs::Sorts::is_infix_name))]
    pub fn is_infix_name(self) -> bool
        ensures { result ≡ is_infix_name self }
    {
        match self {
            TokenSort::Infix(_) | TokenSort::Star | TokenSort::Cons => true,
            _ => false,
        }
    }

    #[tactic(auto, unfolding(crate::specs::Sorts::is_any_name))]
    pub fn is_any_name(self) -> bool
        ensures { result ≡ is_any_name self }
    {
        match self {
            TokenSort::Name | TokenSort::Infix(_) | TokenSort::Star | TokenSort::Cons => true,
            _ => false,
        }
    }

    #[tactic(auto, unfolding(crate::specs::Sorts::is_op_name))]
    pub fn is_op_name(self) -> bool
        ensures { result ≡ is_op_name self }
    {
        match self {
            TokenSort::Name | TokenSort::Infix(_) | TokenSort::Star | TokenSort::Cons => true,
            TokenSort::Mark(mark) => equal_mark(mark),
            _ => false,
        }
    }

    #[tactic(auto, unfolding(crate::specs::Sorts::is_type_name))]
    pub fn is_type_name(self) -> bool
        ensures { result ≡ is_type_name self }
    {
        match self {
            TokenSort::Name | TokenSort::Long => true,
            _ => false,
        }
    }

    #[tactic(auto, unfolding(crate::specs::Sorts::is_name))]
    pub fn is_name(self) -> bool
        ensures { result ≡ is_name self }
    {
        match self {
            TokenSort::Name => true,
            _ => false,
        }
    }

    #[tactic(auto, unfolding(crate::specs::Sorts::is_ty_var))]
    pub fn is_ty_var(self) -> bool
        ensures { result ≡ is_ty_var self }
    {
        match self {
            TokenSort::TyVar => true,
            _ => false,
        }
    }

    #[tactic(auto, unfolding(crate::specs::Sorts::is_star))]
    pub fn is_star(self) -> bool
        ensures { result ≡ is_star self }
    {
        match self {
            TokenSort::Star => true,
            _ => false,
        }
    }

    #[tactic(auto, unfolding(crate::specs::Sorts::is_cons))]
    pub fn is_cons(self) -> bool
        ensures { result ≡ is_cons self }
    {
        match self {
            TokenSort::Cons => true,
            _ => false,
        }
    }

    #[tactic(auto, unfolding(crate::specs::Sorts::is_plain))]
    pub fn is_plain(self) -> bool
        ensures { result ≡ is_plain self }
    {
        match self {
            TokenSort::Plain => true,
            _ => false,
        }
    }

    #[tactic(auto, unfolding(crate::specs::Sorts::is_anti))]
    pub fn is_anti(self) -> bool
        ensures { result ≡ is_anti self }
    {
        match self {
            TokenSort::Anti => true,
            _ => false,
        }
    }

    #[tactic(auto, unfolding(crate::specs::Sorts::is_anti_from))]
    pub fn is_anti_from(self) -> bool
        ensures { result ≡ is_anti_from self }
    {
        match self {
            TokenSort::AntiFrom => true,
            _ => false,
        }
    }

    #[tactic(auto, unfolding(crate::specs::Sorts::is_anti_to))]
    pub fn is_anti_to(self) -> bool
        ensures { result ≡ is_anti_to self }
    {
        match self {
            TokenSort::AntiTo => true,
            _ => false,
        }
    }

    #[tactic(auto, unfolding(crate::specs::Sorts::is_quote_to))]
    pub fn is_quote_to(self) -> bool
        ensures { result ≡ is_quote_to self }
    {
        match self {
            TokenSort::QuoteTo => true,
            _ => false,
        }
    }
}

#[tactic(auto, unfolding(crate::specs::Sorts::atom_mark))]
fn atom_mark(mark: Mark) -> bool
    ensures { result ≡ atom_mark mark }
{
    if mark.is(Mark::Op) {
        true
    } else if mark.is(Mark::Open) {
        true
    } else if mark.is(Mark::OpenBracket) {
        true
    } else if mark.is(Mark::Let) {
        true
    } else {
        false
    }
}

#[tactic(auto, unfolding(crate::specs::Sorts::tail_mark))]
fn tail_mark(mark: Mark) -> bool
    ensures { result ≡ tail_mark mark }
{
    if mark.is(Mark::Raise) {
        true
    } else if mark.is(Mark::If) {
        true
    } else if mark.is(Mark::Case) {
        true
    } else if mark.is(Mark::Fn) {
        true
    } else {
        false
    }
}

#[tactic(auto, unfolding(crate::specs::Sorts::pattern_mark))]
fn pattern_mark(mark: Mark) -> bool
    ensures { result ≡ pattern_mark mark }
{
    if mark.is(Mark::Wildcard) {
        true
    } else if mark.is(Mark::Op) {
        true
    } else if mark.is(Mark::Open) {
        true
    } else if mark.is(Mark::OpenBracket) {
        true
    } else {
        false
    }
}

#[tactic(auto, unfolding(crate::specs::Sorts::declaration_mark))]
fn declaration_mark(mark: Mark) -> bool
    ensures { result ≡ declaration_mark mark }
{
    if mark.is(Mark::Val) {
        true
    } else if mark.is(Mark::Fun) {
        true
    } else if mark.is(Mark::TypeWord) {
        true
    } else if mark.is(Mark::Datatype) {
        true
    } else if mark.is(Mark::Exception) {
        true
    } else if mark.is(Mark::Local) {
        true
    } else {
        false
    }
}

#[tactic(auto, unfolding(crate::specs::Sorts::body_mark))]
fn body_mark(mark: Mark) -> bool
    ensures { result ≡ body_mark mark }
{
    if mark.is(Mark::Colon) {
        true
    } else if mark.is(Mark::Equal) {
        true
    } else {
        false
    }
}

#[tactic(auto, unfolding(crate::specs::Sorts::open_mark))]
fn open_mark(mark: Mark) -> bool
    ensures { result ≡ open_mark mark }
{
    if mark.is(Mark::Open) { true } else { false }
}

#[tactic(auto, unfolding(crate::specs::Sorts::equal_mark))]
fn equal_mark(mark: Mark) -> bool
    ensures { result ≡ equal_mark mark }
{
    if mark.is(Mark::Equal) { true } else { false }
}
