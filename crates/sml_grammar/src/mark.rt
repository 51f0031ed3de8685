// Reserved words, reserved symbols and punctuation.
ghost use Rattle.std.specs.Prelude.{◌≡◌};
ghost use Rattle.sml_grammar.specs.Marks.{mark_number, same_mark, mark_of, early_word, late_word, symbol_mark};

/// A reserved word, a reserved symbol or a piece of punctuation.
#[derive(Clone, Copy, Debug, PartialEq, Eq)]
pub enum Mark {
    /// `and`
    And,
    /// `andalso`
    AndAlso,
    /// `case`
    Case,
    /// `datatype`
    Datatype,
    /// `else`
    Else,
    /// `end`
    End,
    /// `exception`
    Exception,
    /// `fn`
    Fn,
    /// `fun`
    Fun,
    /// `handle`
    Handle,
    /// `if`
    If,
    /// `in`
    In,
    /// `let`
    Let,
    /// `local`
    Local,
    /// `of`
    Of,
    /// `op`
    Op,
    /// `orelse`
    OrElse,
    /// `raise`
    Raise,
    /// `rec`
    Rec,
    /// `then`
    Then,
    /// `type`
    TypeWord,
    /// `val`
    Val,
    /// `:`
    Colon,
    /// `|`
    Bar,
    /// `=`
    Equal,
    /// `=>`
    DoubleArrow,
    /// `->`
    Arrow,
    /// `(`
    Open,
    /// `)`
    Close,
    /// `[`
    OpenBracket,
    /// `]`
    CloseBracket,
    /// `,`
    Comma,
    /// `;`
    Semicolon,
    /// `_`
    Wildcard,
}

impl Mark {
    #[tactic(auto, unfolding(crate::specs::Marks::mark_number))]
    fn number(self) -> u8
        ensures { result ≡ mark_number self }
    {
        match self {
            Mark::And => 0,
            Mark::AndAlso => 1,
            Mark::Case => 2,
            Mark::Datatype => 3,
            Mark::Else => 4,
            Mark::End => 5,
            Mark::Exception => 6,
            Mark::Fn => 7,
            Mark::Fun => 8,
            Mark::Handle => 9,
            Mark::If => 10,
            Mark::In => 11,
            Mark::Let => 12,
            Mark::Local => 13,
            Mark::Of => 14,
            Mark::Op => 15,
            Mark::OrElse => 16,
            Mark::Raise => 17,
            Mark::Rec => 18,
            Mark::Then => 19,
            Mark::TypeWord => 20,
            Mark::Val => 21,
            Mark::Colon => 22,
            Mark::Bar => 23,
            Mark::Equal => 24,
            Mark::DoubleArrow => 25,
            Mark::Arrow => 26,
            Mark::Open => 27,
            Mark::Close => 28,
            Mark::OpenBracket => 29,
            Mark::CloseBracket => 30,
            Mark::Comma => 31,
            Mark::Semicolon => 32,
            Mark::Wildcard => 33,
        }
    }

    #[tactic(auto, unfolding(crate::specs::Marks::same_mark))]
    pub fn is(self, other: Mark) -> bool
        ensures { result ≡ same_mark self other }
    {
        self.number() == other.number()
    }
}

/// The mark that is spelled so, if there is one.
#[tactic(auto, unfolding(crate::specs::Marks::mark_of))]
pub fn mark_of(text: &[u8]) -> Option<Mark>
    ensures { result ≡ mark_of text.now }
{
    if let Some(mark) = early_word(text) {
        return Some(mark);
    }
    if let Some(mark) = late_word(text) {
        return Some(mark);
    }
    symbol_mark(text)
}

#[tactic(auto, unfolding(crate::specs::Marks::early_word))]
fn early_word(text: &[u8]) -> Option<Mark>
    ensures { result ≡ early_word text.now }
{
    if text == b"and".as_slice() {
        Some(Mark::And)
    } else if text == b"andalso".as_slice() {
        Some(Mark::AndAlso)
    } else if text == b"case".as_slice() {
        Some(Mark::Case)
    } else if text == b"datatype".as_slice() {
        Some(Mark::Datatype)
    } else if text == b"else".as_slice() {
        Some(Mark::Else)
    } else if text == b"end".as_slice() {
        Some(Mark::End)
    } else if text == b"exception".as_slice() {
        Some(Mark::Exception)
    } else if text == b"fn".as_slice() {
        Some(Mark::Fn)
    } else if text == b"fun".as_slice() {
        Some(Mark::Fun)
    } else if text == b"handle".as_slice() {
        Some(Mark::Handle)
    } else if text == b"if".as_slice() {
        Some(Mark::If)
    } else {
        None
    }
}

#[tactic(auto, unfolding(crate::specs::Marks::late_word))]
fn late_word(text: &[u8]) -> Option<Mark>
    ensures { result ≡ late_word text.now }
{
    if text == b"in".as_slice() {
        Some(Mark::In)
    } else if text == b"let".as_slice() {
        Some(Mark::Let)
    } else if text == b"local".as_slice() {
        Some(Mark::Local)
    } else if text == b"of".as_slice() {
        Some(Mark::Of)
    } else if text == b"op".as_slice() {
        Some(Mark::Op)
    } else if text == b"orelse".as_slice() {
        Some(Mark::OrElse)
    } else if text == b"raise".as_slice() {
        Some(Mark::Raise)
    } else if text == b"rec".as_slice() {
        Some(Mark::Rec)
    } else if text == b"then".as_slice() {
        Some(Mark::Then)
    } else if text == b"type".as_slice() {
        Some(Mark::TypeWord)
    } else if text == b"val".as_slice() {
        Some(Mark::Val)
    } else {
        None
    }
}

#[tactic(auto, unfolding(crate::specs::Marks::symbol_mark))]
fn symbol_mark(text: &[u8]) -> Option<Mark>
    ensures { result ≡ symbol_mark text.now }
{
    if text == b":".as_slice() {
        Some(Mark::Colon)
    } else if text == b"|".as_slice() {
        Some(Mark::Bar)
    } else if text == b"=".as_slice() {
        Some(Mark::Equal)
    } else if text == b"=>".as_slice() {
        Some(Mark::DoubleArrow)
    } else if text == b"->".as_slice() {
        Some(Mark::Arrow)
    } else if text == b"(".as_slice() {
        Some(Mark::Open)
    } else if text == b")".as_slice() {
        Some(Mark::Close)
    } else if text == b"[".as_slice() {
        Some(Mark::OpenBracket)
    } else if text == b"]".as_slice() {
        Some(Mark::CloseBracket)
    } else if text == b",".as_slice() {
        Some(Mark::Comma)
    } else if text == b";".as_slice() {
        Some(Mark::Semicolon)
    } else if text == b"_".as_slice() {
        Some(Mark::Wildcard)
    } else {
        None
    }
}
