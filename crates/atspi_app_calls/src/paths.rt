//! Which node a path is of.

ghost use Rattle.std.specs.Prelude.{◌≡◌, ◌≢◌, ◌<◌, ◌^◌, ◌++◌, ℕ, List, MatchOption, bytes_eq, codes};
ghost use Rattle.atspi_tree_model.specs.Path.{base_path, path_of};

use atspi_script_lines::read_number;

/// How many bytes the path of each node begins with.
const BASE_LENGTH: usize = 27;

/// What a path has behind what the paths of all nodes begin with.
#[tactic(auto, using(crate::proofs::PathLemmas::short_path, crate::proofs::PathLemmas::base_found, crate::proofs::PathLemmas::other_base))]
fn behind_base(path: &[u8]) -> Option<&[u8]>
    ensures { MatchOption result ((word : List ℕ) → path.now ≡ base_path ++ word → ⊥)
        (λ word. path.now ≡ base_path ++ word.now) }
{
    if path.len() < BASE_LENGTH {
        return None;
    }
    let (front, word) = path.split_at(BASE_LENGTH);
    if front == b"/org/a11y/atspi/accessible/".as_slice() {
        return Some(word);
    }
    None
}

/// Whether a word is that of the root.
fn is_root(word: &[u8]) -> bool
    ensures { result ≡ bytes_eq word.now (codes "root") }
{
    word == b"root".as_slice()
}

/// The node whose path this is: the root by its name, any other by its number.
pub fn node_at(path: &str) -> Option<u32>
    ensures { MatchOption result ((n : ℕ) → n < 2 ^ 32 → path_of n ≢ path.now) (λ n. path_of n ≡ path.now) }
{
    let Some(word) = behind_base(path.as_bytes()) else {
        return None;
    };
    if is_root(word) {
        return Some(0);
    }
    let Some(number) = read_number(word) else {
        return None;
    };
    if number == 0 {
        return None;
    }
    Some(number)
}
