//! The match rules that ends ask for, by their texts.

ghost use Rattle.std.specs.Prelude.{◌≡◌, ◌∷◌, [], None, Some, codes};
ghost use Rattle.atspi_match.specs.declared.condition.Condition.TheVariants.{Kind, Sender, Interface, Member};
ghost use Rattle.atspi_match.specs.declared.condition.MessageType.TheVariants.{Signal};
ghost use Rattle.atspi_protocol.specs.declared.following.question.Question.TheVariants.{AddMatch, Hello};
ghost use Rattle.atspi_protocol.specs.following.Calls.{asking};
ghost use Rattle.atspi_trace.specs.Rules.{cache_rule, owner_rule, rule_in, rule_written};

/// Each of the four texts spells its rule.
pub fn asked()
    ensures registry { rule_in
        (asking 1
        (AddMatch (codes "type='signal',sender='org.a11y.atspi.Registry',interface='org.a11y.atspi.Registry'")))
        ≡ Some
        (Kind Signal ∷ Sender (codes "org.a11y.atspi.Registry") ∷ Interface (codes "org.a11y.atspi.Registry")
        ∷ []) }
    ensures owners { rule_in
        (asking 1 (AddMatch (codes "type='signal',interface='org.freedesktop.DBus',member='NameOwnerChanged'")))
        ≡ Some (Kind Signal ∷ Interface (codes "org.freedesktop.DBus") ∷ Member (codes "NameOwnerChanged") ∷ []) }
    ensures caches { rule_in (asking 1 (AddMatch (codes "type='signal',interface='org.a11y.atspi.Cache'")))
        ≡ Some (Kind Signal ∷ Interface (codes "org.a11y.atspi.Cache") ∷ []) }
    ensures events { rule_in (asking 1 (AddMatch (codes "type='signal',interface='org.a11y.atspi.Event.Object'")))
        ≡ Some (Kind Signal ∷ Interface (codes "org.a11y.atspi.Event.Object") ∷ []) }
{}

/// No other text does, nor a call without one.
pub fn others()
    ensures longer { rule_in (asking 1 (AddMatch (codes "type='signal',interface='org.a11y.atspi.Cache',"))) ≡ None }
    ensures empty { rule_in (asking 1 (AddMatch [])) ≡ None }
    ensures no_text { rule_in (asking 1 Hello) ≡ None }
    ensures first { rule_written (codes "type='signal',interface='org.a11y.atspi.Cache'") (owner_rule ∷ cache_rule ∷ [])
        ≡ Some cache_rule }
    ensures none { rule_written (codes "type='signal',interface='org.a11y.atspi.Cache'") [] ≡ None }
{}
