//! Printing a match rule.

ghost use Rattle.std.specs.Prelude.{◌≡◌, ◌<◌, ◌≤◌, ◌++◌, List, take, length, decimal, flat_map, OnErr, OnOk};
ghost use Rattle.std.specs.List.{AllByRecursion};
ghost use Rattle.atspi_match.specs.Grammar.{IsRuleText};
ghost use Rattle.atspi_match.specs.declared.condition.Condition.{Condition};
ghost use Rattle.atspi_match.specs.Conditions.{IsCondition, IsRule, key_text};
ghost use Rattle.atspi_match.specs.Printed.{printed, printed_condition, quoted_byte};

use crate::runs::count_quotable;
use crate::{Condition, Rule};
use atspi_base::{Bytes, NoMemory};

/// Appends a number below 100 in decimal digits.
fn write_index(index: u8, out: &mut Bytes) -> Result<(), NoMemory>
    requires { index < 64 }
    ensures ok { OnOk result (out.new ≡ out.old ++ decimal index) }
    ensures front { take (length out.old) out.new ≡ out.old }
{
    if index >= 10 {
        out.push(b'0' + index / 10)?;
    }
    out.push(b'0' + index % 10)
}

/// Appends the key of a condition.
fn write_key(condition: &Condition, out: &mut Bytes) -> Result<(), NoMemory>
    requires { IsCondition condition.now }
    ensures ok { OnOk result (out.new ≡ out.old ++ key_text condition.now) }
    ensures front { take (length out.old) out.new ≡ out.old }
{
    match condition {
        Condition::Kind(_) => out.extend(b"type"),
        Condition::Sender(_) => out.extend(b"sender"),
        Condition::Interface(_) => out.extend(b"interface"),
        Condition::Member(_) => out.extend(b"member"),
        Condition::Path(_) => out.extend(b"path"),
        Condition::PathNamespace(_) => out.extend(b"path_namespace"),
        Condition::Destination(_) => out.extend(b"destination"),
        Condition::Arg { index, .. } => {
            out.extend(b"arg")?;
            write_index(*index, out)
        }
        Condition::ArgPath { index, .. } => {
            out.extend(b"arg")?;
            write_index(*index, out)?;
            out.extend(b"path")
        }
        Condition::Arg0Namespace(_) => out.extend(b"arg0namespace"),
        Condition::Eavesdrop(_) => out.extend(b"eavesdrop"),
    }
}

/// Appends what stands between the apostrophes of a value.
fn write_inside(value: &[u8], out: &mut Bytes) -> Result<(), NoMemory>
    ensures ok { OnOk result (out.new ≡ out.old ++ flat_map quoted_byte value.now) }
    ensures front { take (length out.old) out.new ≡ out.old }
{
    let mut at = 0;
    'runs: while at < value.len() {
        let rest = &value[at..];
        let count = count_quotable(rest);
        out.extend(&rest[..count])?;
        at += count;
        if at < value.len() {
            out.extend(b"'\\''")?;
            at += 1;
        }
    }
    Ok(())
}

/// Appends a key, `=` and the value in apostrophes.
fn write_condition(condition: &Condition, out: &mut Bytes) -> Result<(), NoMemory>
    requires { IsCondition condition.now }
    ensures ok { OnOk result (out.new ≡ out.old ++ printed_condition condition.now) }
    ensures front { take (length out.old) out.new ≡ out.old }
{
    write_key(condition, out)?;
    out.extend(b"='")?;
    write_inside(condition.value(), out)?;
    out.push(b'\'')
}

/// Appends the conditions, joined by commas.
fn write_conditions(conditions: &[Condition], out: &mut Bytes) -> Result<(), NoMemory>
    requires { AllByRecursion IsCondition conditions.now }
    ensures ok { OnOk result (out.new ≡ out.old ++ printed conditions.now) }
    ensures front { take (length out.old) out.new ≡ out.old }
{
    for (i, condition) in conditions.iter().enumerate() {
        if i > 0 {
            out.push(b',')?;
        }
        write_condition(condition, out)?;
    }
    Ok(())
}

impl Rule {
    /// Appends the text of the rule: the keys in their order, each value in apostrophes, an apostrophe as `'\''` (D-Bus
    /// Specification, "Match Rules"). After want of memory the bytes are as before.
    pub fn print(&self, out: &mut Bytes) -> Result<(), NoMemory>
        ensures ok { OnOk result (out.new ≡ out.old ++ printed self.now) }
        ensures err { OnErr result (out.new ≡ out.old) }
        // The printed rule is a text of the rule, where it is short enough.
        ensures again { length (printed self.now) ≤ 1024 → IsRuleText (printed self.now) self.now }
    {
        let len = out.len();
        let written = write_conditions(self.conditions(), out);
        if written.is_err() {
            out.truncate(len);
        }
        written
    }
}

/// A printed rule of at most 1,024 bytes is a text of that rule.
pub fn is_read_again()
    ensures { (rule : List Condition) → IsRule rule → length (printed rule) ≤ 1024 → IsRuleText (printed rule) rule }
{}
