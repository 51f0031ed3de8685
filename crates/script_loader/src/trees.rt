// The trees of a project's files.
ghost use Rattle.std.specs.Prelude.{[], ◌∷◌, All, IfOk, IfErr};
ghost use Rattle.script_loader.specs.Lists.{Each, Stops};
ghost use Rattle.script_loader.specs.Refusals.{IsTold};
ghost use Rattle.script_loader.specs.Placing.{Fits};
ghost use Rattle.script_loader.specs.Trees.{IsTreeOf, AreTrees, IsParsed, IsTreeless};
ghost use Rattle.script_loader.specs.Cause.{IsFirstMistake};

use crate::placed::Placed;
use crate::refusal::{LoadRefusal, grammatical_refusal};
use crate::tokens::{Lexed, lex_text, lex_texts};
use sml_parse::parse;
use sml_syntax::Program;
use std::alloc::Global;

#[tactic(auto, using(crate::proofs::Faults::is_parsed, crate::proofs::Faults::treeless))]
fn parse_lexed(alloc: Global, lexed: &Lexed) -> Result<Program, LoadRefusal>
    ensures tree { IfOk result (IsParsed lexed.now) }
    ensures refused { IfErr result (IsTold (IsTreeless lexed.now)) }
{
    match parse(alloc, lexed.tokens.as_slice()) {
        Ok(tree) => Ok(tree),
        Err(refusal) => Err(grammatical_refusal(alloc, &lexed.name, lexed.start, refusal)),
    }
}

// The tree of each file.
fn parse_files(alloc: Global, files: &[Lexed]) -> Result<Vec<Program>, LoadRefusal>
    ensures trees { IfOk result (λ trees. Each IsParsed files.now trees.items) }
    ensures refused { IfErr result (IsTold (Stops IsParsed IsTreeless files.now)) }
{
    let mut trees = Vec::new(alloc);
    for lexed in files {
        trees.push(parse_lexed(alloc, lexed)?)?;
    }
    Ok(trees)
}

/// The tree of each file. All files have tokens before any has a tree.
#[tactic(auto, using(crate::proofs::Order::first_misspelt, crate::proofs::Order::first_treeless, crate::proofs::Order::are_trees))]
pub(crate) fn source_trees(alloc: Global, sources: &[Placed]) -> Result<Vec<Program>, LoadRefusal>
    requires fits { All Fits sources.now }
    ensures trees { IfOk result (λ trees. AreTrees sources.now trees.items) }
    ensures refused { IfErr result (IsTold (IsFirstMistake sources.now)) }
{
    let files = lex_texts(alloc, sources)?;
    parse_files(alloc, &files)
}

/// The tree of a file by itself.
#[tactic(auto, using(crate::proofs::Order::lone_misspelt, crate::proofs::Order::lone_treeless, crate::proofs::Order::tree_of))]
pub(crate) fn source_tree(alloc: Global, source: &Placed) -> Result<Program, LoadRefusal>
    requires fits { Fits source.now }
    ensures tree { IfOk result (IsTreeOf source.now) }
    ensures refused { IfErr result (IsTold (IsFirstMistake (source.now ∷ []))) }
{
    let lexed = lex_text(alloc, source)?;
    parse_lexed(alloc, &lexed)
}
