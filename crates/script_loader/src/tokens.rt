// The tokens of a project's files.
ghost use Rattle.std.specs.Prelude.{All, IfOk, IfErr};
ghost use Rattle.script_loader.specs.Lists.{Each, Stops};
ghost use Rattle.script_loader.specs.Refusals.{IsTold};
ghost use Rattle.script_loader.specs.Placing.{Fits};
ghost use Rattle.script_loader.specs.Tokens.{IsLexed, IsMisspelt};

use crate::placed::{Placed, moved};
use crate::refusal::{LoadRefusal, lexical_refusal};
use sml_lex::lex;
use sml_syntax::{Listed, Text, Token};
use std::alloc::Global;

/// A file's name, where its text starts, and the tokens of its text at their places in the whole.
#[derive(Drop)]
pub(crate) struct Lexed {
    pub name: Text,
    pub start: u64,
    pub tokens: Listed<Token>,
}

#[tactic(auto, using(crate::proofs::Faults::misspelt))]
pub(crate) fn lex_text(alloc: Global, source: &Placed) -> Result<Lexed, LoadRefusal>
    requires fits { Fits source.now }
    ensures lexed { IfOk result (IsLexed source.now) }
    ensures refused { IfErr result (IsTold (IsMisspelt source.now)) }
{
    match lex(alloc, source.text.as_bytes()) {
        Ok(tokens) => {
            let name = source.name.try_copy(alloc)?;
            let start = source.start;
            let tokens = Listed::of(moved(alloc, start, tokens)?);
            Ok(Lexed {
                name,
                start,
                tokens,
            })
        }
        Err(refusal) => Err(lexical_refusal(alloc, &source.name, refusal)),
    }
}

/// The tokens of each file.
pub(crate) fn lex_texts(alloc: Global, sources: &[Placed]) -> Result<Vec<Lexed>, LoadRefusal>
    requires fits { All Fits sources.now }
    ensures lexed { IfOk result (λ files. Each IsLexed sources.now files.items) }
    ensures refused { IfErr result (IsTold (Stops IsLexed IsMisspelt sources.now)) }
{
    let mut files = Vec::new(alloc);
    for source in sources {
        files.push(lex_text(alloc, source)?)?;
    }
    Ok(files)
}
