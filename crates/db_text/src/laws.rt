// What a text is, as the evaluation of scripts asks.
ghost use Rattle.std.specs.Prelude.{◌≡◌, ◌↔◌, ℕ, List};
ghost use Rattle.web_data.specs.declared.database.DbCmd.{DbCmd as Command};
ghost use Rattle.web_data.specs.Statements.{Statement, NoStatement};
ghost use Rattle.web_data.specs.StatementReading as told;

/// What the evaluation takes a text for, a byte at a time, is what the text is as a statement.
pub fn statements_are_told()
    ensures command { (bytes : List ℕ) (command : Command) → (told.statement_of bytes ≡ told.Command command) ↔ Statement bytes command }
    ensures refusal { (bytes : List ℕ) (place : ℕ) → (told.statement_of bytes ≡ told.Outside place) ↔ NoStatement bytes place }
{}
