// The bytes of tokens.
ghost use Rattle.std.specs.Prelude.{◌≡◌, ◌++◌, ◌∷◌, [], OnOk, flat_map};
ghost use Rattle.print_laws.specs.Spelled.{int_spelling, number_escape, text_byte, char_byte, spelling, gap, spelled_token, spelled};

use sml_syntax::{NoMemory, TokenForm};

/// Writes the text of tokens at the end.
pub(crate) fn push_tokens(out: &mut Vec<u8>, forms: &[TokenForm]) -> Result<(), NoMemory>
    ensures { OnOk result (out.new.items ≡ out.old.items ++ spelled forms.now) }
{
    for form in forms {
        push_spelling(out, form)?;
        push_gap(out, form)?;
    }
    Ok(())
}

#[tactic(auto, unfolding(print_laws::specs::Spelled::gap))]
fn push_gap(out: &mut Vec<u8>, form: &TokenForm) -> Result<(), NoMemory>
    ensures { OnOk result (out.new.items ≡ out.old.items ++ gap form.now) }
{
    match form {
        TokenForm::QuoteFrom | TokenForm::Plain(_) | TokenForm::Anti(_) | TokenForm::AntiTo => {
            Ok(())
        }
        TokenForm::Int(_)
        | TokenForm::Char(_)
        | TokenForm::Str(_)
        | TokenForm::Name(_)
        | TokenForm::Long(_)
        | TokenForm::TyVar(_)
        | TokenForm::Mark(_)
        | TokenForm::AntiFrom
        | TokenForm::QuoteTo => Ok(out.push(b' ')?),
    }
}

#[tactic(auto, unfolding(print_laws::specs::Spelled::spelling))]
fn push_spelling(out: &mut Vec<u8>, form: &TokenForm) -> Result<(), NoMemory>
    ensures { OnOk result (out.new.items ≡ out.old.items ++ spelling form.now) }
{
    match form {
        TokenForm::Int(number) => push_int(out, *number),
        TokenForm::Char(byte) => push_char(out, *byte),
        TokenForm::Str(text) => push_text(out, text.as_bytes()),
        TokenForm::Name(text)
        | TokenForm::Long(text)
        | TokenForm::TyVar(text)
        | TokenForm::Mark(text)
        | TokenForm::Plain(text) => Ok(out.extend_from_slice(text.as_bytes())?),
        TokenForm::QuoteFrom | TokenForm::QuoteTo => Ok(out.push(b'`')?),
        TokenForm::Anti(name) => {
            out.push(b'^')?;
            Ok(out.extend_from_slice(name.as_bytes())?)
        }
        TokenForm::AntiFrom => Ok(out.extend_from_slice(b"^(")?),
        TokenForm::AntiTo => Ok(out.push(b')')?),
    }
}

/// An integer with `~` for minus.
fn push_int(out: &mut Vec<u8>, number: i64) -> Result<(), NoMemory>
    ensures { OnOk result (out.new.items ≡ out.old.items ++ int_spelling number) }
{
    if number < 0 {
        out.push(b'~')?;
    }
    let digits = number.unsigned_abs().to_string(*out.allocator())?;
    Ok(out.extend_from_slice(digits.as_bytes())?)
}

fn push_char(out: &mut Vec<u8>, byte: u8) -> Result<(), NoMemory>
    ensures { OnOk result (out.new.items ≡ out.old.items ++ (35 ∷ 34 ∷ char_byte byte ++ 34 ∷ [])) }
{
    out.extend_from_slice(b"#\"")?;
    push_char_byte(out, byte)?;
    Ok(out.push(b'"')?)
}

fn push_text(out: &mut Vec<u8>, text: &[u8]) -> Result<(), NoMemory>
    ensures { OnOk result (out.new.items ≡ out.old.items ++ (34 ∷ flat_map text_byte text.now ++ 34 ∷ [])) }
{
    out.push(b'"')?;
    push_text_bytes(out, text)?;
    Ok(out.push(b'"')?)
}

fn push_text_bytes(out: &mut Vec<u8>, text: &[u8]) -> Result<(), NoMemory>
    ensures { OnOk result (out.new.items ≡ out.old.items ++ flat_map text_byte text.now) }
{
    for byte in text {
        push_text_byte(out, *byte)?;
    }
    Ok(())
}

#[tactic(auto, unfolding(print_laws::specs::Spelled::char_byte))]
fn push_char_byte(out: &mut Vec<u8>, byte: u8) -> Result<(), NoMemory>
    ensures { OnOk result (out.new.items ≡ out.old.items ++ char_byte byte) }
{
    if byte < 128 {
        push_text_byte(out, byte)
    } else {
        push_number_escape(out, byte)
    }
}

/// A byte of a text, by an escape where it can't stand for itself.
#[tactic(auto, unfolding(print_laws::specs::Spelled::text_byte))]
fn push_text_byte(out: &mut Vec<u8>, byte: u8) -> Result<(), NoMemory>
    ensures { OnOk result (out.new.items ≡ out.old.items ++ text_byte byte) }
{
    if byte == b'\n' {
        Ok(out.extend_from_slice(b"\\n")?)
    } else if byte == b'\t' {
        Ok(out.extend_from_slice(b"\\t")?)
    } else if byte == b'\\' || byte == b'"' {
        out.push(b'\\')?;
        Ok(out.push(byte)?)
    } else if byte < 32 {
        push_number_escape(out, byte)
    } else {
        Ok(out.push(byte)?)
    }
}

fn push_number_escape(out: &mut Vec<u8>, byte: u8) -> Result<(), NoMemory>
    ensures { OnOk result (out.new.items ≡ out.old.items ++ number_escape byte) }
{
    out.push(b'\\')?;
    out.push(48 + byte / 100)?;
    out.push(48 + byte / 10 % 10)?;
    Ok(out.push(48 + byte % 10)?)
}
