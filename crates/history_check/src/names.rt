// Whether names differ.
ghost use Rattle.std.specs.Prelude.{◌≡◌, ◌<◌, ℕ, true, false, length, slice_get};
ghost use Rattle.history_check.specs.Given.{AllDiffer};

use crate::same::same_text;
use sml_syntax::Text;

/// Whether no two of these names are equal.
#[tactic(auto, using(crate::proofs::Differing::none_more, crate::proofs::Differing::all_differ, crate::proofs::Differing::differ_not))]
pub fn names_differ(names: &[Text]) -> bool
    ensures yes { result ≡ true → AllDiffer names.now }
    ensures no { AllDiffer names.now → result ≡ true }
{
    for at in 0..names.len() {
        if stands_before(names, at) {
            return false;
        }
    }
    true
}

fn stands_before(names: &[Text], at: usize) -> bool
    requires { at < length names.now }
    ensures yes { result ≡ true → (j : ℕ) × (j < at) × (slice_get names.now j ≡ slice_get names.now at) }
    ensures no { result ≡ false → (j : ℕ) → j < at → slice_get names.now j ≡ slice_get names.now at → ⊥ }
{
    for j in 0..at {
        if same_text(&names[j], &names[at]) {
            return true;
        }
    }
    false
}
