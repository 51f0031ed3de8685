// The lines that tell why a project isn't loaded.
ghost use Rattle.std.specs.Prelude.{◌≡◌, IfOk};
ghost use Rattle.std.specs.Option.{option_map};
ghost use Rattle.smlserver_top.specs.RefusedLine.{refused_line, full_name};
ghost use Rattle.smlserver_top.specs.Refusal.{lack_name, without_lack, named_of, line_of};

use script_loader::LoadRefusal;
use sml_syntax::{Lack, NoMemory, Text};
use std::alloc::Global;

/// What a refusal names.
#[derive(Clone, Copy)]
struct Named<'a> {
    file: &'a Text,
    place: u64,
    name: &'static [u8],
    lack: Option<Lack>,
}

fn lack_name(lack: Lack) -> &'static [u8]
    ensures { result.now ≡ lack_name lack }
{
    match lack {
        Lack::Module => b"Module",
        Lack::Records => b"Records",
        Lack::Layered => b"Layered",
        Lack::Abstype => b"Abstype",
        Lack::Fixity => b"Fixity",
        Lack::While => b"While",
        Lack::Reals => b"Reals",
        Lack::Words => b"Words",
        Lack::Hexadecimal => b"Hexadecimal",
        Lack::Escape => b"Escape",
        Lack::LocalType => b"LocalType",
        Lack::Replication => b"Replication",
        Lack::ConstraintVar => b"ConstraintVar",
        Lack::NestedType => b"NestedType",
        Lack::InfixClause => b"InfixClause",
    }
}

fn without_lack<'a>(file: &'a Text, place: u64, name: &'static [u8]) -> Option<Named<'a>>
    ensures { option_map (λ n. (n.file.now, n.place, n.name.now, n.lack)) result ≡ without_lack file.now place name.now }
{
    Some(Named {
        file,
        place,
        name,
        lack: None,
    })
}

fn named_of(refusal: &LoadRefusal) -> Option<Named<'_>>
    ensures { option_map (λ n. (n.file.now, n.place, n.name.now, n.lack)) result ≡ named_of refusal.now }
{
    match refusal {
        LoadRefusal::ProjectLine { file, place } => without_lack(file, *place, b"ProjectLine"),
        LoadRefusal::TwoPaths { file, place } => without_lack(file, *place, b"TwoPaths"),
        LoadRefusal::DatabaseNames { file, place } => without_lack(file, *place, b"DatabaseNames"),
        LoadRefusal::TooLarge { file, place } => without_lack(file, *place, b"TooLarge"),
        LoadRefusal::FileFault { file, place } => without_lack(file, *place, b"FileFault"),
        LoadRefusal::BadByte { file, place } => without_lack(file, *place, b"BadByte"),
        LoadRefusal::OpenComment { file, place } => without_lack(file, *place, b"OpenComment"),
        LoadRefusal::OpenString { file, place } => without_lack(file, *place, b"OpenString"),
        LoadRefusal::OpenQuote { file, place } => without_lack(file, *place, b"OpenQuote"),
        LoadRefusal::WideNumber { file, place } => without_lack(file, *place, b"WideNumber"),
        LoadRefusal::Unsupported { file, place, lack } => Some(Named {
            file,
            place: *place,
            name: b"Unsupported",
            lack: Some(*lack),
        }),
        LoadRefusal::Unexpected { file, place } => without_lack(file, *place, b"Unexpected"),
        LoadRefusal::TooDeep { file, place } => without_lack(file, *place, b"TooDeep"),
        LoadRefusal::Unbound { file, place } => without_lack(file, *place, b"Unbound"),
        LoadRefusal::Ill { file, place } => without_lack(file, *place, b"Ill"),
        LoadRefusal::InstanceLimit { file, place } => without_lack(file, *place, b"InstanceLimit"),
        LoadRefusal::CodeFull { file, place } => without_lack(file, *place, b"CodeFull"),
        LoadRefusal::NoMemory => None,
    }
}

/// The line of a refusal: a file, a place, a name, and the lack behind it.
pub fn refused_line(
    alloc: Global,
    file: &Text,
    place: u64,
    name: &[u8],
    lack: Option<Lack>,
) -> Result<Text, NoMemory>
    ensures { IfOk result (λ line. line ≡ refused_line file.now place (full_name name.now (option_map lack_name lack))) }
{
    let mut line = Vec::from_slice(alloc, b"refused ")?;
    line.extend_from_slice(file.as_bytes())?;
    line.push(b' ')?;
    line.extend_from_slice(place.to_string(alloc)?.as_bytes())?;
    line.push(b' ')?;
    line.extend_from_slice(name)?;
    if let Some(lack) = lack {
        line.push(b' ')?;
        line.extend_from_slice(lack_name(lack))?;
    }
    line.push(b'\n')?;
    Ok(Text::from_vec(line))
}

/// The line of a refusal, unless it is want of memory.
pub fn line_of(alloc: Global, refusal: &LoadRefusal) -> Result<Text, NoMemory>
    ensures { IfOk result (λ line. line_of refusal.now ≡ Some line) }
{
    match named_of(refusal) {
        Some(named) => refused_line(alloc, named.file, named.place, named.name, named.lack),
        None => Err(NoMemory),
    }
}
