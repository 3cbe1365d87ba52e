//! Match rules: lists of conditions, each key at most once.

ghost use Rattle.std.specs.Prelude.{◌≡◌, ◌↔◌, IsTrue, IfOk};
ghost use Rattle.atspi_match.specs.Conditions.{same_rule};

use crate::Condition;
use atspi_base::NoMemory;
use std::alloc::Global;
use std::marker::Model;

/// A match rule: the conditions that a message has to meet (D-Bus Specification, "Match Rules"), in the order of their
/// keys.
#[derive(Drop)]
pub struct Rule {
    conditions: Vec<Condition>,
}

impl Model for Rule {
    ghost use Rattle.std.specs.Prelude.{List};
    ghost use Rattle.atspi_match.specs.declared.condition.Condition.{Condition};
    ghost use Rattle.atspi_match.specs.Conditions.{IsRule};

    ghost Value = { List Condition };

    ghost view = { λ rule. rule.conditions.items };

    ghost invariant = { λ rule. IsRule rule.conditions.items };
}

impl Rule {
    ghost use Rattle.atspi_match.specs.Conditions.{IsRule};

    /// The rule of the conditions.
    pub fn of(conditions: Vec<Condition>) -> Rule
        requires { IsRule conditions.items }
        ensures { result ≡ conditions.items }
    {
        Rule { conditions }
    }

    /// An equal rule.
    pub fn copy(&self, alloc: Global) -> Result<Rule, NoMemory>
        ensures { IfOk result (λ rule. rule ≡ self.now) }
    {
        Ok(Rule {
            conditions: copy_conditions(alloc, &self.conditions)?,
        })
    }

    /// The conditions, in the order of their keys.
    pub fn conditions(&self) -> &[Condition]
        ensures conditions { result.now ≡ self.now }
        ensures rule { IsRule self.now }
    {
        &self.conditions
    }

    /// Whether the two are the same rule.
    pub fn is(&self, other: &Rule) -> bool
        ensures same { IsTrue result ↔ (self.now ≡ other.now) }
        ensures tested { result ≡ same_rule self.now other.now }
    {
        self.conditions == other.conditions
    }
}

/// Equal conditions.
fn copy_conditions(alloc: Global, conditions: &[Condition]) -> Result<Vec<Condition>, NoMemory>
    ensures { IfOk result (λ copy. copy.items ≡ conditions.now) }
{
    let mut copy = Vec::with_capacity(alloc, conditions.len())?;
    for condition in conditions {
        copy.push(condition.copy(alloc)?)?;
    }
    Ok(copy)
}
