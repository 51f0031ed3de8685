// The lines of a text.
ghost use Rattle.std.specs.Prelude.{◌≡◌, ◌<◌, ◌∷◌, length};
ghost use Rattle.std.specs.List.{position_or_len};
ghost use Rattle.project_lines.specs.ProjectFile.{is_line_feed, is_skipped, lines_of, without_return};

fn is_line_feed(b: u8) -> bool
    ensures { result ≡ is_line_feed b }
{
    b == b'\n'
}

// The number of bytes before the first LF, or of all.
fn line_length(text: &[u8]) -> usize
    ensures { result ≡ position_or_len is_line_feed text.now }
{
    let mut n = 0;
    while n < text.len() {
        if is_line_feed(text[n]) {
            break;
        }
        n += 1;
    }
    n
}

fn without_return(line: &[u8]) -> &[u8]
    ensures { result.now ≡ without_return line.now }
{
    if line.is_empty() {
        return line;
    }
    let last = line.len() - 1;
    if line[last] == b'\r' {
        &line[..last]
    } else {
        line
    }
}

/// The first line of a text, and what follows it.
#[tactic(auto, using(crate::proofs::Cuts::last_told))]
pub(crate) fn first_line(text: &[u8]) -> (&[u8], &[u8])
    requires { 0 < length text.now }
    ensures lines { lines_of text.now ≡ result.0.now ∷ lines_of result.1.now }
    ensures shorter { length result.1.now < length text.now }
{
    let length = line_length(text);
    if length == text.len() {
        return (text, &text[length..]);
    }
    (without_return(&text[..length]), &text[length + 1..])
}

/// Whether a line is empty or a comment.
pub(crate) fn is_skipped(line: &[u8]) -> bool
    ensures { result ≡ is_skipped line.now }
{
    match line {
        [] => true,
        [b, ..] => *b == b'#',
    }
}
