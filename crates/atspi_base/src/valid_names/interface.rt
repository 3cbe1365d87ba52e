//! The name of an interface or of an error.

ghost use Rattle.std.specs.Prelude.{◌≡◌, ◌↔◌, IfOk, IsErrOf, IsTrue, Some, refl, nat_eq};
ghost use Rattle.std.specs.Ordering.{nat_cmp};
ghost use Rattle.std.specs.Cmp.{partial_equiv_from_equiv};
ghost use Rattle.std.specs.Cmp.Lexicographic.{pointwise, slice_cmp, nat_list_eq_equiv, nat_list_cmp_total, texts_po};
ghost use Rattle.std.specs.Cmp.Lexicographic.{texts_ties};
ghost use Rattle.atspi_base.specs.valid_names.Names.{IsInterface, is_interface, ReadsName};

use super::elements::{Form, are_two_or_more};
use super::fault::{NameFault, ascii_text};
use crate::NoMemory;
use std::alloc::Global;
use std::cmp::Ordering;
use std::marker::Model;

/// The name of an interface or of an error: two or more elements joined by `.`, of letters, digits and `_`, none of
/// which begins with a digit; at most 255 bytes. It is ordered by bytes.
#[derive(Drop)]
pub struct Interface {
    text: String,
}

impl Model for Interface {
    ghost use Rattle.std.specs.Prelude.{ℕ, List, string_bytes};
    ghost use Rattle.atspi_base.specs.valid_names.Names.{IsInterface};

    ghost Value = { List ℕ };

    ghost view = { λ name. string_bytes name.text };

    ghost invariant = { λ name. IsInterface (string_bytes name.text) };
}

/// Whether the bytes are the name of an interface.
#[tactic(auto, unfolding(crate::specs::valid_names::Names::is_interface))]
fn is_rule(bytes: &[u8]) -> bool
    ensures { result ≡ is_interface bytes.now }
{
    are_two_or_more(Form::Interface, bytes) && bytes.len() <= 255
}

/// Whether the bytes are the name of an interface or of an error (D-Bus Specification, "Valid Names"). It needs no
/// memory.
pub fn is_interface(bytes: &[u8]) -> bool
    ensures rule { IsTrue result ↔ IsInterface bytes.now }
    ensures tested { result ≡ is_interface bytes.now }
{
    is_rule(bytes)
}

impl Interface {
    /// The name that the bytes are. Refused as `Form` exactly where they are outside the rule.
    pub fn read(alloc: Global, bytes: &[u8]) -> Result<Interface, NameFault>
        ensures ok { IfOk result (λ name. (name ≡ bytes.now) × IsInterface bytes.now) }
        ensures form { IsErrOf result NameFault.Form ↔ ¬ IsInterface bytes.now }
        ensures tested { ReadsName is_interface result bytes.now }
    {
        if !is_rule(bytes) {
            return Err(NameFault::Form);
        }
        Ok(Interface {
            text: ascii_text(alloc, bytes)?,
        })
    }

    /// The name as a text.
    pub fn as_str(&self) -> &str
        ensures bytes { result.now ≡ self.now }
        ensures rule { IsInterface self.now }
    {
        &self.text
    }

    /// An equal name.
    pub fn copy(&self, alloc: Global) -> Result<Interface, NoMemory>
        ensures { IfOk result (λ name. name ≡ self.now) }
    {
        Ok(Interface {
            text: String::from_str(alloc, &self.text)?,
        })
    }

    /// Whether the two are the same name.
    pub fn is(&self, other: &Interface) -> bool
        ensures { IsTrue result ↔ (self.now ≡ other.now) }
    {
        self.text == other.text
    }
}

impl PartialEq for Interface {
    ghost eq = { pointwise nat_eq };

    ghost laws = { partial_equiv_from_equiv nat_list_eq_equiv };

    fn eq(&self, other: &Interface) -> bool {
        self.text == other.text
    }
}

impl Eq for Interface {
    ghost laws = { nat_list_eq_equiv };
}

impl PartialOrd for Interface {
    ghost partial_cmp = { λ a b. Some (slice_cmp nat_cmp a b) };

    ghost laws = { texts_po };

    fn partial_cmp(&self, other: &Interface) -> Option<Ordering> {
        Some(self.cmp(other))
    }
}

impl Ord for Interface {
    ghost cmp = { slice_cmp nat_cmp };

    ghost total = { nat_list_cmp_total };

    ghost matches_partial_cmp = { λ a b. refl };

    ghost matches_eq = { texts_ties };

    fn cmp(&self, other: &Interface) -> Ordering {
        self.text.cmp(&other.text)
    }
}
