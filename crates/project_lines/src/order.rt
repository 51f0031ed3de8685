// Which lines of a project file may follow which.
ghost use Rattle.std.specs.Prelude.{◌≡◌};
ghost use Rattle.std.specs.List.{list_any};
ghost use Rattle.project_lines.specs.ProjectFile.{sort_of, is_sort, most_of, count_of_sort, has_path, has_database, repeats_path, repeats_database, begins_well, may_follow};

use crate::line::{Line, Sort};
use sml_syntax::Text;

fn sort_of(line: &Line) -> Sort
    ensures { result ≡ sort_of line.now }
{
    match line {
        Line::Header => Sort::Header,
        Line::Library(_) => Sort::Library,
        Line::Script(_, _) => Sort::Script,
        Line::Database(_) => Sort::Database,
        Line::Budget(_) => Sort::Budget,
        Line::Pages(_) => Sort::Pages,
    }
}

// How many lines of a sort a project may have.
fn most_of(sort: Sort) -> usize
    ensures { result ≡ most_of sort }
{
    match sort {
        Sort::Header | Sort::Budget | Sort::Pages => 1,
        Sort::Library => 64,
        Sort::Script => 256,
        Sort::Database => 16,
    }
}

fn is_sort(sort: Sort, line: &Line) -> bool
    ensures { result ≡ is_sort sort line.now }
{
    match (sort, line) {
        (Sort::Header, Line::Header) => true,
        (Sort::Library, Line::Library(_)) => true,
        (Sort::Script, Line::Script(_, _)) => true,
        (Sort::Database, Line::Database(_)) => true,
        (Sort::Budget, Line::Budget(_)) => true,
        (Sort::Pages, Line::Pages(_)) => true,
        _ => false,
    }
}

fn count_of_sort(sort: Sort, lines: &[Line]) -> usize
    ensures { result ≡ count_of_sort sort lines.now }
{
    let mut count = 0;
    let mut rest = lines;
    while let [line, more @ ..] = rest {
        if is_sort(sort, line) {
            count += 1;
        }
        rest = more;
    }
    count
}

fn has_path(path: &Text, line: &Line) -> bool
    ensures { result ≡ has_path path.now line.now }
{
    match line {
        Line::Script(other, _) => *other == *path,
        _ => false,
    }
}

fn has_database(name: &Text, line: &Line) -> bool
    ensures { result ≡ has_database name.now line.now }
{
    match line {
        Line::Database(other) => *other == *name,
        _ => false,
    }
}

fn path_stands(path: &Text, lines: &[Line]) -> bool
    ensures { result ≡ list_any (has_path path.now) lines.now }
{
    lines.iter().any(|line| has_path(path, line))
}

fn database_stands(name: &Text, lines: &[Line]) -> bool
    ensures { result ≡ list_any (has_database name.now) lines.now }
{
    lines.iter().any(|line| has_database(name, line))
}

/// Whether an earlier line has the path of this one.
pub(crate) fn repeats_path(before: &[Line], line: &Line) -> bool
    ensures { result ≡ repeats_path before.now line.now }
{
    match line {
        Line::Script(path, _) => path_stands(path, before),
        _ => false,
    }
}

fn repeats_database(before: &[Line], line: &Line) -> bool
    ensures { result ≡ repeats_database before.now line.now }
{
    match line {
        Line::Database(name) => database_stands(name, before),
        _ => false,
    }
}

fn begins_well(before: &[Line], line: &Line) -> bool
    ensures { result ≡ begins_well before.now line.now }
{
    match before {
        [] => is_sort(Sort::Header, line),
        [_, ..] => true,
    }
}

/// Whether a line may follow those before it, paths aside.
pub(crate) fn may_follow(before: &[Line], line: &Line) -> bool
    ensures { result ≡ may_follow before.now line.now }
{
    if !begins_well(before, line) {
        return false;
    }
    let sort = sort_of(line);
    if count_of_sort(sort, before) >= most_of(sort) {
        return false;
    }
    !repeats_database(before, line)
}
