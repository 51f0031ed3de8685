// The words of the commands.
ghost use Rattle.std.specs.Prelude.{◌≡◌, List, ℕ, map, IsNone, IfSome};
ghost use Rattle.smlserver_top.specs.Spelling.{begins_with};
ghost use Rattle.smlserver_top.specs.Words.{IsPageCommand, IsCheckCommand};

use crate::spelling::after;

fn begins_with(front: &[u8], text: &[u8]) -> bool
    ensures { result ≡ begins_with front.now text.now }
{
    after(front, text).is_some()
}

/// The project's file and the path, where the words ask for a page.
pub(crate) fn page_words<'a>(words: &[&'a str]) -> Option<(&'a [u8], &'a [u8])>
    ensures found { IfSome result (λ found. IsPageCommand (map (λ w. w.now) words.now) found.0.now found.1.now) }
    ensures none { IsNone result → (project : List ℕ) → (path : List ℕ) → IsPageCommand (map (λ w. w.now) words.now) project path → ⊥ }
{
    match words {
        [command, project, path, query] => {
            let project = project.as_bytes();
            let path = path.as_bytes();
            if *command == "page"
                && !begins_with(b"--", project)
                && begins_with(b"/", path)
                && query.is_empty()
            {
                Some((project, path))
            } else {
                None
            }
        }
        _ => None,
    }
}

/// The project's file, where the words ask for a check.
pub(crate) fn check_words<'a>(words: &[&'a str]) -> Option<&'a [u8]>
    ensures found { IfSome result (λ found. IsCheckCommand (map (λ w. w.now) words.now) found.now) }
    ensures none { IsNone result → (project : List ℕ) → IsCheckCommand (map (λ w. w.now) words.now) project → ⊥ }
{
    match words {
        [command, project] => {
            let project = project.as_bytes();
            if *command == "check" && !begins_with(b"--", project) {
                Some(project)
            } else {
                None
            }
        }
        _ => None,
    }
}
