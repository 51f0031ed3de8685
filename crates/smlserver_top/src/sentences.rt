// What each name of a refusal means, in a sentence for people.
ghost use Rattle.std.specs.Prelude.{◌≡◌};
ghost use Rattle.std.specs.Option.{option_copied};
ghost use Rattle.smlserver_top.specs.Explained.{is_line_name, is_whole_name, shows_of};

/// What a refusal is about, and so what is shown of it.
#[derive(Clone, Copy, Debug, PartialEq, Eq)]
pub(crate) enum Shows {
    /// A line of the project file.
    Line,
    /// A place in a file.
    Place,
    /// A file as a whole.
    Whole,
}

fn is_line_name(name: &[u8]) -> bool
    ensures { result ≡ is_line_name name.now }
{
    name == b"ProjectLine".as_slice() || name == b"TwoPaths".as_slice()
}

fn is_whole_name(name: &[u8]) -> bool
    ensures { result ≡ is_whole_name name.now }
{
    name == b"FileFault".as_slice()
        || name == b"TooLarge".as_slice()
        || name == b"NotBuilt".as_slice()
        || name == b"DatabaseNames".as_slice()
        || name == b"InstanceLimit".as_slice()
        || name == b"CodeFull".as_slice()
}

/// What a refusal of this name, with that of a lack or without, is about.
pub(crate) fn shows_of(name: &[u8], lack: Option<&[u8]>) -> Shows
    ensures { result ≡ shows_of name.now (option_copied lack.entry) }
{
    if lack.is_some() {
        return Shows::Place;
    }
    if is_line_name(name) {
        return Shows::Line;
    }
    if is_whole_name(name) {
        Shows::Whole
    } else {
        Shows::Place
    }
}

/// The names of refusals, each with its sentence.
const NAMES: [(&str, &str); 19] = [
    (
        "ProjectLine",
        "this line says nothing that may stand here; behind the first line `smlserver 1` come `lib FILE`, `script PATH FILE`, `database NAME`, `budget N` and `pages N`, with single spaces and none too often",
    ),
    (
        "TwoPaths",
        "an earlier line has a script under this path already; give this script another path, or take one of the two lines out",
    ),
    (
        "DatabaseNames",
        "the databases that were handed in aren't those of the project; hand in one for each of its `database` lines, under its name, and no other (so far no word hands one in: take these lines out)",
    ),
    (
        "TooLarge",
        "the project file and the files that it names have more than 1,048,576 bytes together; shorten the project or split it (a file counts once for each line that names it)",
    ),
    (
        "FileFault",
        "there is no such file, or it can't be read; mend its name or its rights (the files that a project names lie in the folder of the project file)",
    ),
    (
        "NotBuilt",
        "this project has no mistake, but so far only a script of the form `val _ = Web.write (part ^ .. ^ part)`, in a project without libraries, is run; its parts are texts and `Int.toString (m * n)`",
    ),
    (
        "BadByte",
        "no token begins with this byte, or a character literal isn't one character; take it out, or write a byte from 128 up as \\ddd in a text",
    ),
    (
        "OpenComment",
        "this comment isn't closed; close it with `*)` (comments nest)",
    ),
    (
        "OpenString",
        "this text isn't closed on its line; close it with `\"`, and write a line break as \\n",
    ),
    (
        "OpenQuote",
        "this quotation isn't closed; close it with a backquote, and each `^(` in it with `)`",
    ),
    (
        "WideNumber",
        "this integer is outside of 64 bits; write one from ~9223372036854775808 to 9223372036854775807",
    ),
    (
        "Unexpected",
        "what stands before this place begins a program, and what stands here doesn't go on with it; look for an `end`, a `)`, an `of` or an `op` that is missing before it",
    ),
    (
        "TooDeep",
        "more than 200 expressions, patterns, types and declarations stand in each other here; bind parts by `val`, or make a long sum a function over a list",
    ),
    (
        "Unbound",
        "nothing binds this name; mend its spelling or declare it above (a script sees the prelude and all libraries, and no other script)",
    ),
    (
        "Ill",
        "this declaration has no type, though all its names are bound; look for a function whose argument has another type than the function takes",
    ),
    (
        "InstanceLimit",
        "this script uses polymorphic functions at more than 65,536 types, or at one of more than 4,096 nodes; use fewer types",
    ),
    (
        "CodeFull",
        "the code of this script might have more than 67,108,864 instructions; split the script, or use polymorphic functions at fewer types",
    ),
    ("NoMemory", "memory was wanting"),
    ("Unsupported", "the language has no such form here"),
];

/// The names of lacks, each with its sentence.
const LACKS: [(&str, &str); 15] = [
    (
        "Module",
        "there are no structures, signatures and functors, and no `open`; give names a common beginning, and put what several scripts need into a library",
    ),
    (
        "Records",
        "there are no records, record patterns and selectors; write a tuple or a datatype",
    ),
    (
        "Layered",
        "there are no layered patterns; write a name, and a `case` on it",
    ),
    ("Abstype", "there are no abstract types; write `datatype`"),
    (
        "Fixity",
        "there is no `infix`, `infixr` and `nonfix`; apply the function to a tuple, as in `plus (a, b)`",
    ),
    (
        "While",
        "there are no loops; write a function that calls itself",
    ),
    (
        "Reals",
        "there are no real numbers; write integers, in a smaller unit",
    ),
    ("Words", "there are no words; write integers"),
    (
        "Hexadecimal",
        "there are no hexadecimal numbers; write a decimal one",
    ),
    (
        "Escape",
        "texts have no other escapes than \\n, \\t, \\\\, \\\" and \\ddd; write the byte as \\ddd",
    ),
    (
        "LocalType",
        "types and exceptions aren't declared inside `let` and `local`; declare them at the top",
    ),
    (
        "Replication",
        "a datatype or an exception can't be declared as another one; write `type t = u`, or use the other's name itself",
    ),
    (
        "ConstraintVar",
        "type variables stand in `type` and `datatype` alone; leave this type out",
    ),
    (
        "NestedType",
        "inside a datatype declaration its types are applied to its own variables alone; apply them to these as they stand",
    ),
    (
        "InfixClause",
        "a function isn't declared between its arguments; write `fun op before (x, y) = ..`",
    ),
];

// The sentence behind a name.
fn sentence_behind(sentences: &[(&'static str, &'static str)], name: &[u8]) -> &'static str {
    for (known, sentence) in sentences {
        if known.as_bytes() == name {
            return sentence;
        }
    }
    "this is refused"
}

/// The sentence for a refusal of this name, with that of a lack or without.
pub(crate) fn sentence_of(name: &[u8], lack: Option<&[u8]>) -> &'static str {
    match lack {
        Some(lack) => sentence_behind(&LACKS, lack),
        None => sentence_behind(&NAMES, name),
    }
}
