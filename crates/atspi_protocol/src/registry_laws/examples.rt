//! Worked examples of the definitions that the laws cite.

ghost use Rattle.std.specs.Prelude.{◌≡◌, [], ◌∷◌, true, false, codes};
ghost use Rattle.atspi_protocol.specs.ends.Messages.{return_to};
ghost use Rattle.atspi_protocol.specs.registering.Told.{children_changed, deregistered};
ghost use Rattle.atspi_protocol.specs.registry_laws.Asked.{is_children_news, minor_in, AllAskedFor};

/// News of children say whether a child was added or removed; they are asked for by a pair whose pattern covers that.
pub fn news_of_children()
    ensures news { is_children_news (children_changed (codes "add") 0 (codes ":1.4", codes "/d")) ≡ true }
    ensures minor { minor_in (children_changed (codes "add") 0 (codes ":1.4", codes "/d")).body ≡ codes "add" }
    ensures of_a_listener { is_children_news (deregistered (codes ":1.2", codes "object:children-changed")) ≡ false }
    ensures a_reply { is_children_news (return_to (codes ":1.2") 5 []) ≡ false }
    ensures no_minor { minor_in [] ≡ [] }
    ensures nothing { AllAskedFor [] [] }
    ensures asked { AllAskedFor ((codes ":1.2", codes "object:children-changed:add") ∷ [])
        (children_changed (codes "add") 0 (codes ":1.4", codes "/d") ∷ []) }
    ensures not_asked { ¬ AllAskedFor ((codes ":1.2", codes "object:children-changed:remove") ∷ [])
        (children_changed (codes "add") 0 (codes ":1.4", codes "/d") ∷ []) }
    ensures nobody { ¬ AllAskedFor [] (children_changed (codes "add") 0 (codes ":1.4", codes "/d") ∷ []) }
    ensures another { AllAskedFor [] (deregistered (codes ":1.2", codes "object:children-changed") ∷ []) }
{}
