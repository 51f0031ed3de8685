// Tokens in a row.
ghost use Rattle.std.specs.Prelude.{◌≡◌, ◌++◌, ◌∷◌, [], IfOk, OnOk, codes};
ghost use Rattle.sml_syntax.specs.declared.token.TokenForm.TheVariants as f;
ghost use Rattle.print_laws.specs.Printing.{head_forms, plain_forms, name_forms, infix_word, type_name};

use crate::names::{has_dot, infix_level};
use sml_syntax::{NoMemory, Text, TokenForm};
use std::alloc::Global;
use std::marker::Model;

/// The tokens so far. Contracts see them as their list.
#[derive(Drop)]
pub(crate) struct Forms {
    tokens: Vec<TokenForm>,
}

impl Model for Forms {
    ghost use Rattle.std.specs.Prelude.{List};
    ghost use Rattle.sml_syntax.specs.declared.token.TokenForm.{TokenForm};

    ghost Value = { List TokenForm };

    ghost view = { λ f. f.tokens.items };
}

impl Forms {
    pub(crate) fn new(alloc: Global) -> Forms
        ensures { result ≡ [] }
    {
        Forms {
            tokens: Vec::new(alloc),
        }
    }

    pub(crate) fn as_slice(&self) -> &[TokenForm]
        ensures { result.now ≡ self.now }
    {
        self.tokens.as_slice()
    }

    pub(crate) fn push(&mut self, form: TokenForm) -> Result<(), NoMemory>
        ensures { OnOk result (self.new ≡ self.old ++ form ∷ []) }
    {
        Ok(self.tokens.push(form)?)
    }

    fn copy(&self, text: &[u8]) -> Result<Text, NoMemory>
        ensures { IfOk result (λ copy. copy ≡ text.now) }
    {
        Text::from_bytes(*self.tokens.allocator(), text)
    }

    /// A reserved word, a reserved symbol or punctuation.
    pub(crate) fn mark(&mut self, text: &[u8]) -> Result<(), NoMemory>
        ensures { OnOk result (self.new ≡ self.old ++ f.Mark text.now ∷ []) }
    {
        let text = self.copy(text)?;
        self.push(TokenForm::Mark(text))
    }

    /// `( )`
    pub(crate) fn unit(&mut self) -> Result<(), NoMemory>
        ensures { OnOk result (self.new ≡ self.old ++ f.Mark (codes "(") ∷ f.Mark (codes ")") ∷ []) }
    {
        self.mark(b"(")?;
        self.mark(b")")?;
        Ok(())
    }

    pub(crate) fn text(&mut self, text: &Text) -> Result<(), NoMemory>
        ensures { OnOk result (self.new ≡ self.old ++ f.Str text.now ∷ []) }
    {
        let text = self.copy(text.as_bytes())?;
        self.push(TokenForm::Str(text))
    }

    /// The text of a quotation, which has no token where it is empty.
    pub(crate) fn plain(&mut self, text: &Text) -> Result<(), NoMemory>
        ensures { OnOk result (self.new ≡ self.old ++ plain_forms text.now) }
    {
        match text.as_bytes() {
            [] => Ok(()),
            bytes => {
                let text = self.copy(bytes)?;
                self.push(TokenForm::Plain(text))
            }
        }
    }

    pub(crate) fn anti(&mut self, name: &Text) -> Result<(), NoMemory>
        ensures { OnOk result (self.new ≡ self.old ++ f.Anti name.now ∷ []) }
    {
        let name = self.copy(name.as_bytes())?;
        self.push(TokenForm::Anti(name))
    }

    pub(crate) fn variable(&mut self, name: &Text) -> Result<(), NoMemory>
        ensures { OnOk result (self.new ≡ self.old ++ f.TyVar name.now ∷ []) }
    {
        let name = self.copy(name.as_bytes())?;
        self.push(TokenForm::TyVar(name))
    }

    /// A name of one part.
    pub(crate) fn short(&mut self, name: &[u8]) -> Result<(), NoMemory>
        ensures { OnOk result (self.new ≡ self.old ++ f.Name name.now ∷ []) }
    {
        let name = self.copy(name)?;
        self.push(TokenForm::Name(name))
    }

    fn long(&mut self, name: &Text) -> Result<(), NoMemory>
        ensures { OnOk result (self.new ≡ self.old ++ f.Long name.now ∷ []) }
    {
        let name = self.copy(name.as_bytes())?;
        self.push(TokenForm::Long(name))
    }

    /// A name where types stand.
    #[tactic(auto, unfolding(print_laws::specs::Printing::type_name))]
    pub(crate) fn type_name(&mut self, name: &Text) -> Result<(), NoMemory>
        ensures { OnOk result (self.new ≡ self.old ++ type_name name.now ∷ []) }
    {
        if has_dot(name) {
            return self.long(name);
        }
        match infix_level(name.as_bytes()) {
            None => self.short(name.as_bytes()),
            Some(_) => self.long(name),
        }
    }

    /// A name, an infix one behind `op`.
    #[tactic(auto, unfolding(print_laws::specs::Printing::head_forms))]
    pub(crate) fn head(&mut self, name: &Text) -> Result<(), NoMemory>
        ensures { OnOk result (self.new ≡ self.old ++ head_forms name.now) }
    {
        if has_dot(name) {
            return self.long(name);
        }
        match infix_level(name.as_bytes()) {
            None => self.short(name.as_bytes()),
            Some(_) => {
                self.mark(b"op")?;
                self.short(name.as_bytes())
            }
        }
    }

    /// A name as an expression.
    #[tactic(auto, unfolding(print_laws::specs::Printing::name_forms))]
    pub(crate) fn name(&mut self, name: &Text) -> Result<(), NoMemory>
        ensures { OnOk result (self.new ≡ self.old ++ name_forms name.now) }
    {
        if name.as_bytes() == b"=".as_slice() {
            self.mark(b"op")?;
            return self.mark(b"=");
        }
        self.head(name)
    }

    /// An infix name between its operands.
    #[tactic(auto, unfolding(print_laws::specs::Printing::infix_word))]
    pub(crate) fn word(&mut self, name: &Text) -> Result<(), NoMemory>
        ensures { OnOk result (self.new ≡ self.old ++ infix_word name.now ∷ []) }
    {
        if name.as_bytes() == b"=".as_slice() {
            return self.mark(b"=");
        }
        self.short(name.as_bytes())
    }
}
