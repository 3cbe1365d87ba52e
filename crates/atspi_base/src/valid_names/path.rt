//! The path of an object.

ghost use Rattle.std.specs.Prelude.{◌≡◌, ◌↔◌, IfOk, IsErrOf, IsTrue, Some, refl, nat_eq};
ghost use Rattle.std.specs.Ordering.{nat_cmp};
ghost use Rattle.std.specs.Cmp.{partial_equiv_from_equiv};
ghost use Rattle.std.specs.Cmp.Lexicographic.{pointwise, slice_cmp, nat_list_eq_equiv, nat_list_cmp_total, texts_po};
ghost use Rattle.std.specs.Cmp.Lexicographic.{texts_ties};
ghost use Rattle.atspi_base.specs.valid_names.Names.{IsPath, is_path, ReadsName};

use super::elements::{Form, are_elements};
use super::fault::{NameFault, ascii_text};
use crate::NoMemory;
use std::alloc::Global;
use std::cmp::Ordering;
use std::marker::Model;

/// The path of an object: `/`, or elements of letters, digits and `_`, each behind one `/`. It is ordered by bytes.
#[derive(Drop)]
pub struct Path {
    text: String,
}

impl Model for Path {
    ghost use Rattle.std.specs.Prelude.{ℕ, List, string_bytes};
    ghost use Rattle.atspi_base.specs.valid_names.Names.{IsPath};

    ghost Value = { List ℕ };

    ghost view = { λ name. string_bytes name.text };

    ghost invariant = { λ name. IsPath (string_bytes name.text) };
}

/// Whether the bytes are a path.
#[tactic(auto, unfolding(crate::specs::valid_names::Names::is_path))]
fn is_rule(bytes: &[u8]) -> bool
    ensures { result ≡ is_path bytes.now }
{
    match bytes {
        [] => false,
        [first, rest @ ..] => {
            *first == b'/' && (rest.is_empty() || are_elements(Form::Path, rest))
        }
    }
}

/// Whether the bytes are a path (D-Bus Specification, "Valid Object Paths"). It needs no memory.
pub fn is_path(bytes: &[u8]) -> bool
    ensures rule { IsTrue result ↔ IsPath bytes.now }
    ensures tested { result ≡ is_path bytes.now }
{
    is_rule(bytes)
}

impl Path {
    /// The path that the bytes are. Refused as `Form` exactly where they are outside the rule.
    pub fn read(alloc: Global, bytes: &[u8]) -> Result<Path, NameFault>
        ensures ok { IfOk result (λ name. (name ≡ bytes.now) × IsPath bytes.now) }
        ensures form { IsErrOf result NameFault.Form ↔ ¬ IsPath bytes.now }
        ensures tested { ReadsName is_path result bytes.now }
    {
        if !is_rule(bytes) {
            return Err(NameFault::Form);
        }
        Ok(Path {
            text: ascii_text(alloc, bytes)?,
        })
    }

    /// The name as a text.
    pub fn as_str(&self) -> &str
        ensures bytes { result.now ≡ self.now }
        ensures rule { IsPath self.now }
    {
        &self.text
    }

    /// An equal name.
    pub fn copy(&self, alloc: Global) -> Result<Path, NoMemory>
        ensures { IfOk result (λ name. name ≡ self.now) }
    {
        Ok(Path {
            text: String::from_str(alloc, &self.text)?,
        })
    }

    /// Whether the two are the same name.
    pub fn is(&self, other: &Path) -> bool
        ensures { IsTrue result ↔ (self.now ≡ other.now) }
    {
        self.text == other.text
    }
}

impl PartialEq for Path {
    ghost eq = { pointwise nat_eq };

    ghost laws = { partial_equiv_from_equiv nat_list_eq_equiv };

    fn eq(&self, other: &Path) -> bool {
        self.text == other.text
    }
}

impl Eq for Path {
    ghost laws = { nat_list_eq_equiv };
}

impl PartialOrd for Path {
    ghost partial_cmp = { λ a b. Some (slice_cmp nat_cmp a b) };

    ghost laws = { texts_po };

    fn partial_cmp(&self, other: &Path) -> Option<Ordering> {
        Some(self.cmp(other))
    }
}

impl Ord for Path {
    ghost cmp = { slice_cmp nat_cmp };

    ghost total = { nat_list_cmp_total };

    ghost matches_partial_cmp = { λ a b. refl };

    ghost matches_eq = { texts_ties };

    fn cmp(&self, other: &Path) -> Ordering {
        self.text.cmp(&other.text)
    }
}
