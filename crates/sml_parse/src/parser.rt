// The parser.
ghost use Rattle.std.specs.Prelude.{◌≡◌};
ghost use Rattle.std.specs.Prelude.{Result};
ghost use Rattle.sml_syntax.specs.declared.tree.Program.{Program as ProgramSeen};
ghost use Rattle.sml_parse.specs.Parsed.{parsed, Answers};
ghost use Rattle.sml_parse.specs.Parses.{Parses, IsAnswer, Gives, OneAnswer};
ghost use Rattle.sml_parse.specs.declared.parser.ParseRefusal.{ParseRefusal as RefusalSeen};

use parse_build::build;
use parse_limits::{first_high, first_lack};
use sml_grammar::{ReadRefusal, read};
use sml_syntax::{Lack, NoMemory, Program, Token};
use std::alloc::Global;

/// Why there is no tree.
#[derive(Clone, Copy, Debug, PartialEq, Eq)]
pub enum ParseRefusal {
    /// The place behind the longest part that begins a program.
    Unexpected(u64),
    /// The first place of a form that the language lacks.
    Unsupported(u64, Lack),
    /// The first item that is higher than 200.
    TooDeep(u64),
    NoMemory,
}

impl From<ReadRefusal> for ParseRefusal {
    ghost use Rattle.sml_parse.specs.Parsed.{refused};

    ghost from_gives = { λ refusal e. e ≡ refused refusal };

    fn from(refusal: ReadRefusal) -> ParseRefusal {
        match refusal {
            ReadRefusal::Unexpected(place) => ParseRefusal::Unexpected(place),
            ReadRefusal::NoMemory => ParseRefusal::NoMemory,
        }
    }
}

impl From<NoMemory> for ParseRefusal {
    ghost use Rattle.sml_parse.specs.declared.parser.ParseRefusal.TheVariants as refusal;

    ghost from_gives = { λ _ e. e ≡ refusal.NoMemory };

    fn from(_: NoMemory) -> ParseRefusal {
        ParseRefusal::NoMemory
    }
}

// The tree of tokens, as the machine tells it.
#[tactic(auto, using(crate::proofs::Parsed::unexpected, crate::proofs::Parsed::unsupported, crate::proofs::Parsed::too_deep, crate::proofs::Parsed::built))]
fn read_tree(alloc: Global, tokens: &[Token]) -> Result<Program, ParseRefusal>
    ensures { Answers result (parsed tokens.now) }
{
    let acts = read(alloc, tokens)?;
    if let Some((place, lack)) = first_lack(alloc, acts.as_slice())? {
        return Err(ParseRefusal::Unsupported(place, lack));
    }
    if let Some(place) = first_high(alloc, acts.as_slice())? {
        return Err(ParseRefusal::TooDeep(place));
    }
    let items = build(alloc, acts)?;
    Ok(Program { items })
}

/// The tree of tokens by the grammar of programs. There is at most one; each that is there is found, unless an item is
/// higher than 200 or memory is wanting.
#[tactic(auto, using(crate::proofs::Grammar::meets, crate::proofs::Grammar::gives))]
pub fn parse(alloc: Global, tokens: &[Token]) -> Result<Program, ParseRefusal>
    ensures answer { IsAnswer tokens.now result }
    ensures found { (answer : Result ProgramSeen RefusalSeen) → Parses tokens.now answer → Gives result answer }

    // The same as a function of the tokens: what the machine of `sml_grammar` makes of them.
    ensures machine { Answers result (parsed tokens.now) }
{
    read_tree(alloc, tokens)
}

/// Tokens have one answer: one tree, or one cause of a refusal.
#[tactic(auto, using(crate::proofs::Meaning::one_answer))]
pub fn tokens_have_one_answer()
    ensures { OneAnswer }
{}
