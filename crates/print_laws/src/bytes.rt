//! The text that is printed has the tokens that it was printed of.

ghost use Rattle.print_laws.specs.Bytes.{PrintedTokens, ScriptTokens};

/// Where the forms of the tokens that are printed of each declaration fit, as those of a script do, the text that is printed has
/// tokens of these forms, a blank behind each but in the text of quotations.
pub fn printed_bytes_have_their_tokens()
    ensures { PrintedTokens }
{}

/// Each token of a script has a form that is read as it wherever its spelling stands; no name begins with a digit.
pub fn tokens_of_scripts_are_kept()
    ensures { ScriptTokens }
{}
