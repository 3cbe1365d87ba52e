//! The name of a method or a signal.

ghost use Rattle.std.specs.Prelude.{◌≡◌, ◌↔◌, IfOk, IsErrOf, IsTrue, Some, refl, nat_eq};
ghost use Rattle.std.specs.Ordering.{nat_cmp};
ghost use Rattle.std.specs.Cmp.{partial_equiv_from_equiv};
ghost use Rattle.std.specs.Cmp.Lexicographic.{pointwise, slice_cmp, nat_list_eq_equiv, nat_list_cmp_total, texts_po};
ghost use Rattle.std.specs.Cmp.Lexicographic.{texts_ties};
ghost use Rattle.atspi_base.specs.valid_names.Names.{IsMember, is_member, ReadsName};

use super::elements::{Form, is_element};
use super::fault::{NameFault, ascii_text};
use crate::NoMemory;
use std::alloc::Global;
use std::cmp::Ordering;
use std::marker::Model;

/// The name of a method or a signal: 1 to 255 letters, digits and `_`, no digit first. It is ordered by bytes.
#[derive(Drop)]
pub struct Member {
    text: String,
}

impl Model for Member {
    ghost use Rattle.std.specs.Prelude.{ℕ, List, string_bytes};
    ghost use Rattle.atspi_base.specs.valid_names.Names.{IsMember};

    ghost Value = { List ℕ };

    ghost view = { λ name. string_bytes name.text };

    ghost invariant = { λ name. IsMember (string_bytes name.text) };
}

/// Whether the bytes are the name of a member.
#[tactic(auto, unfolding(crate::specs::valid_names::Names::is_member))]
fn is_rule(bytes: &[u8]) -> bool
    ensures { result ≡ is_member bytes.now }
{
    is_element(Form::Interface, bytes) && bytes.len() <= 255
}

/// Whether the bytes are the name of a method or a signal (D-Bus Specification, "Valid Names"). It needs no memory.
pub fn is_member(bytes: &[u8]) -> bool
    ensures rule { IsTrue result ↔ IsMember bytes.now }
    ensures tested { result ≡ is_member bytes.now }
{
    is_rule(bytes)
}

impl Member {
    /// The name that the bytes are. Refused as `Form` exactly where they are outside the rule.
    pub fn read(alloc: Global, bytes: &[u8]) -> Result<Member, NameFault>
        ensures ok { IfOk result (λ name. (name ≡ bytes.now) × IsMember bytes.now) }
        ensures form { IsErrOf result NameFault.Form ↔ ¬ IsMember bytes.now }
        ensures tested { ReadsName is_member result bytes.now }
    {
        if !is_rule(bytes) {
            return Err(NameFault::Form);
        }
        Ok(Member {
            text: ascii_text(alloc, bytes)?,
        })
    }

    /// The name as a text.
    pub fn as_str(&self) -> &str
        ensures bytes { result.now ≡ self.now }
        ensures rule { IsMember self.now }
    {
        &self.text
    }

    /// An equal name.
    pub fn copy(&self, alloc: Global) -> Result<Member, NoMemory>
        ensures { IfOk result (λ name. name ≡ self.now) }
    {
        Ok(Member {
            text: String::from_str(alloc, &self.text)?,
        })
    }

    /// Whether the two are the same name.
    pub fn is(&self, other: &Member) -> bool
        ensures { IsTrue result ↔ (self.now ≡ other.now) }
    {
        self.text == other.text
    }
}

impl PartialEq for Member {
    ghost eq = { pointwise nat_eq };

    ghost laws = { partial_equiv_from_equiv nat_list_eq_equiv };

    fn eq(&self, other: &Member) -> bool {
        self.text == other.text
    }
}

impl Eq for Member {
    ghost laws = { nat_list_eq_equiv };
}

impl PartialOrd for Member {
    ghost partial_cmp = { λ a b. Some (slice_cmp nat_cmp a b) };

    ghost laws = { texts_po };

    fn partial_cmp(&self, other: &Member) -> Option<Ordering> {
        Some(self.cmp(other))
    }
}

impl Ord for Member {
    ghost cmp = { slice_cmp nat_cmp };

    ghost total = { nat_list_cmp_total };

    ghost matches_partial_cmp = { λ a b. refl };

    ghost matches_eq = { texts_ties };

    fn cmp(&self, other: &Member) -> Ordering {
        self.text.cmp(&other.text)
    }
}
