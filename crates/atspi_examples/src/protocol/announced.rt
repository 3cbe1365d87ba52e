//! Signals of a move, whose node, parent and index differ, and of what is not there.

ghost use Rattle.std.specs.Prelude.{◌≡◌, ◌∷◌, [], None, Some, pos, length, codes};
ghost use Rattle.atspi_tree_model.specs.declared.step.Step.TheVariants.{Move};
ghost use Rattle.atspi_types.specs.Kinds.{u32, text, variant};
ghost use Rattle.atspi_types.specs.Data.{text_data, number_data, structure_data, items_of};
ghost use Rattle.atspi_protocol.specs.announcing.Announced.{left, told_node};
ghost use Rattle.atspi_protocol.specs.announcing.Cases.{bodies, bus};
ghost use Rattle.atspi_protocol.specs.announcing.Signals.{child_changed, property_changed};
ghost use Rattle.atspi_protocol.specs.announcing.Cases as cases;
ghost use Rattle.atspi_protocol.specs.members.Arguments.{int};
ghost use Rattle.atspi_protocol.specs.objects.Cases.{to};
ghost use Rattle.atspi_protocol.specs.objects.Values.{texts_data, words_data};
ghost use Rattle.atspi_protocol.specs.announcing.Signals.{Signal, added};
ghost use Rattle.atspi_tree_model.specs.Announce.{own};
ghost use Rattle.atspi_examples.specs.protocol.Lists.{moving};

/// Node 3, the second child of 1, becomes the second child of 13: its item at the new place, that it left the old one,
/// its parent, that it came to the new one.
#[tactic(auto, unfolding(atspi_tree_model::specs::Path::path_of))]
pub fn moves()
    ensures { cases.signals moving
        ≡ added (record {
          object = own bus 3;
          application = own bus 0;
          parent = own bus 13;
          index = pos 1;
          children = pos 0;
          interfaces = codes "org.a11y.atspi.Accessible" ∷ [];
          name = [];
          role = 0;
          description = [];
          states = 0;
        })
        ∷ child_changed bus 1 (codes "remove") 1 3
        ∷ property_changed 3 (codes "accessible-parent") (to 13)
        ∷ child_changed bus 13 (codes "add") 1 3 ∷ [] }
{}

/// A node that moves among its siblings is told as it stands then.
#[tactic(auto, unfolding(atspi_tree_model::specs::Path::path_of))]
pub fn among_siblings()
    ensures { length (cases.signals (Move 3 1 0)) ≡ 4 }
{}

/// Of a node that is not there nothing is told, nor that one left which had no parent.
pub fn nothing()
    ensures node { told_node bus 1 0 0 None ≡ [] }
    ensures seat { left bus 3 None ≡ [] }
    ensures root { left bus 0 (Some (None, 0)) ≡ [] }
    ensures below { left bus 3 (Some (Some 1, 4)) ≡ child_changed bus 1 (codes "remove") 4 3 ∷ [] }
{}
