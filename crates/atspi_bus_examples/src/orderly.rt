//! What holds of the owners of a bus's names at any time, case by case: each part fails where it should (D-Bus
//! Specification, "Message Bus Names").

ghost use Rattle.std.specs.Prelude.{◌≡◌, ◌∷◌, [], codes};
ghost use Rattle.std.specs.FinMap as finmap;
ghost use Rattle.atspi_names.specs.Owners.{nobody, after_hello, after_request, after_release, after_gone};
ghost use Rattle.atspi_bus_laws.specs.owners.Orderly.{IsOrderly};
ghost use Rattle.atspi_bus_examples.specs.Keepings.{one_list, one_caller};

/// Orderly: a bus without connections; one where a well-known name has an owner and who waits for it; the same bus
/// after its owner has left; and one where somebody owns a name past the last unique one.
pub fn kept()
    ensures nobody { IsOrderly nobody }
    ensures waiting { IsOrderly
        (after_request (after_request (after_hello (after_hello nobody 5) 6) 5 (codes "a.b") 0) 6 (codes "a.b") 0) }
    ensures released { IsOrderly (after_release (after_request (after_hello nobody 5) 5 (codes "a.b") 0) 5
        (codes "a.b")) }
    ensures gone { IsOrderly
        (after_gone (after_request (after_request (after_hello (after_hello nobody 5) 6) 5 (codes "a.b") 0) 6
        (codes "a.b") 0) 5) }
    ensures past_all { IsOrderly (one_list 0 (codes ":1.4294967296") ((5, 0) ∷ [])) }
{}

/// Not orderly: a connection twice in a list; a unique name that was not given; one that another stands for too, or
/// that its connection does not own; one whose owner does not have it; one that is owned before it is given; and as
/// many names given as a `u32` cannot count.
pub fn broken()
    ensures twice { IsOrderly (one_list 0 (codes "a.b") ((1, 0) ∷ (2, 0) ∷ (1, 4) ∷ [])) → ⊥ }
    ensures not_given { IsOrderly (one_caller 1 5 (codes "a.b") ((5, 0) ∷ [])) → ⊥ }
    ensures not_alone { IsOrderly (one_caller 1 5 (codes ":1.0") ((5, 0) ∷ (6, 0) ∷ [])) → ⊥ }
    ensures not_its_owner { IsOrderly (one_caller 1 5 (codes ":1.0") ((6, 0) ∷ [])) → ⊥ }
    ensures has_not { IsOrderly (one_list 1 (codes ":1.0") ((5, 0) ∷ [])) → ⊥ }
    ensures early { IsOrderly (one_list 0 (codes ":1.0") ((5, 0) ∷ [])) → ⊥ }
    ensures many { IsOrderly (record nobody { given = 4294967296 }) → ⊥ }
{}
