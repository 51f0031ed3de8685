// The instructions, each with its operands.

/// One instruction. The comments show what it takes off the stack and what it puts there, the top
/// at the right; r is a region's serial, p and q are pointers. An operand that is an address is
/// the number of an instruction in the code.
#[derive(Clone, Copy, Debug)]
pub enum Instr {
    /// `const k`: to k, a signed number.
    Const(i64),
    /// `text i`: r to p, the code's text of that number made in r.
    Text(u64),
    /// `local i`: to the word at the frame's base + i.
    Local(u64),
    /// `put_local i`: v to nothing; v becomes the word at the frame's base + i.
    PutLocal(u64),
    /// `env i`: to field i of the closure.
    Env(u64),
    /// `self`: to the closure's pointer.
    SelfPointer,
    /// `pop n`: n words to nothing.
    Pop(u64),
    /// `slide n`: n words and v to v.
    Slide(u64),
    /// `pick n`: to the word n below the top.
    Pick(u64),
    /// `add`: a b to a + b, or `Overflow`.
    Add,
    /// `sub`: a b to a - b, or `Overflow`.
    Sub,
    /// `mul`: a b to a * b, or `Overflow`.
    Mul,
    /// `div`: a b to a / b rounded down, or `Overflow`, or `Div`.
    Div,
    /// `mod`: a b to what is left of a by b, with b's sign, or `Div`.
    Mod,
    /// `neg`: a to -a, or `Overflow`.
    Neg,
    /// `lt`: a b to 1 where a < b, else to 0.
    Less,
    /// `le`: a b to 1 where a <= b, else to 0.
    LessEqual,
    /// `gt`: a b to 1 where a > b, else to 0.
    Greater,
    /// `ge`: a b to 1 where a >= b, else to 0.
    GreaterEqual,
    /// `same`: a b to 1 where they are one word, else to 0.
    Same,
    /// `jump a`: goes to a.
    Jump(u32),
    /// `jump_if a`: v to nothing; goes to a where v isn't 0.
    JumpIf(u32),
    /// `jump_not k a`: v to nothing; goes to a where v isn't k. The address stands first here, so
    /// that an instruction takes 16 bytes.
    JumpNot(u32, i64),
    /// `call n`: saves the frame; the closure lies below the n arguments.
    Call(u64),
    /// `return`: drops all down to below the closure, pushes the result, restores the frame.
    Return,
    /// `halt`: ends the run.
    Halt,
    /// `region_new`: to the serial of a new region.
    RegionNew,
    /// `region_end`: r v to v; closes the newest region, which is r.
    RegionEnd,
    /// `alloc n`: n words and r to p, where they lie in r.
    Alloc(u64),
    /// `field i`: p to the word i behind it.
    Field(u64),
    /// `set_field i`: p v to nothing; v becomes the word i behind p.
    SetField(u64),
    /// `boxed`: w to 1 where w is a pointer, else to 0.
    Boxed,
    /// `handler a`: sets a handler at a.
    Handler(u32),
    /// `handler_end`: drops the newest handler.
    HandlerEnd,
    /// `raise`: p; closes regions and stack down to the newest handler's, pushes p, goes to it.
    Raise,
    /// `text_size`: p to the number of its bytes.
    TextSize,
    /// `text_sub`: p i to its byte i, or `Subscript`.
    TextSub,
    /// `text_cut`: p i n r to q, the n bytes of p from i on, made in r, or `Subscript`.
    TextCut,
    /// `text_cat`: p q r to the text of p and then q, made in r.
    TextCat,
    /// `text_concat`: p r to the texts of the list p, one after the other, made in r.
    TextConcat,
    /// `text_compare`: p q to 0, 1 or 2, where p's text is less, equal or greater.
    TextCompare,
    /// `text_from_int`: n r to the decimal text of n, made in r, with `~` for minus.
    TextFromInt,
    /// `int_from_text`: p r to the option of the number that p's text begins with, or `Overflow`.
    IntFromText,
    /// `text_from_char`: c r to the text of one byte c, made in r.
    TextFromChar,
    /// `char_from_int`: n to the character n, or `Chr`.
    CharFromInt,
    /// `write`: p to nothing; its text goes to the end of the body.
    Write,
    /// `set_type`: p to nothing; its text becomes the content type, or `Fail`.
    SetType,
    /// `set_status`: n to nothing; it becomes the status, or `Fail`.
    SetStatus,
    /// `form_first`: p r to the option of the form's first text under the name p, made in r.
    FormFirst,
    /// `form_all`: p r to the list of all the form's texts under the name p, made in r.
    FormAll,
    /// `cache_make`: the name p, the kind q and r to a cache, made in r, or `Fail`.
    CacheMake,
    /// `cache_look d e`: a cache, a key and r to the option of the value, made in r. d and e are
    /// the numbers of the key's and the value's descriptions in the code.
    CacheLook(u32, u32),
    /// `cache_put d e`: a cache, a key and a value to 1 where the key had no row, else to 0.
    CachePut(u32, u32),
    /// `cache_flush d e`: a cache to nothing.
    CacheFlush(u32, u32),
    /// `db_dml`: a database's name and a statement's pieces to nothing, or `Fail`.
    DbDml,
    /// `db_rows`: a database's name, a statement's pieces and r to the list of rows, made in r, or
    /// `Fail`.
    DbRows,
}
