//! Points in a small room.

ghost use Rattle.std.specs.Prelude.{◌≡◌, ◌∷◌, [], map, pos, negsuc, true, false};
ghost use Rattle.atspi_hit.specs.Places.{covers};
ghost use Rattle.atspi_hit.specs.Pointing.{at_point, reach};
ghost use Rattle.atspi_hit_examples.specs.Room.{hidden, places, rect, room, room_with, shown};

/// The left and the upper edge are in a rectangle, the right and the lower edge are not.
pub fn rectangles()
    ensures corner { covers (rect (pos 10) (pos 20) 5 2) (pos 10) (pos 20) ≡ true }
    ensures last { covers (rect (pos 10) (pos 20) 5 2) (pos 14) (pos 21) ≡ true }
    ensures right { covers (rect (pos 10) (pos 20) 5 2) (pos 15) (pos 20) ≡ false }
    ensures below { covers (rect (pos 10) (pos 20) 5 2) (pos 10) (pos 22) ≡ false }
    ensures left { covers (rect (pos 10) (pos 20) 5 2) (pos 9) (pos 20) ≡ false }
    ensures above { covers (rect (pos 10) (pos 20) 5 2) (pos 10) (pos 19) ≡ false }
    ensures negative { covers (rect (negsuc 4) (negsuc 0) 5 1) (negsuc 0) (negsuc 0) ≡ true }
    ensures zero { covers (rect (negsuc 4) (negsuc 0) 5 1) (pos 0) (negsuc 0) ≡ false }
    ensures empty { covers (rect (pos 0) (pos 0) 0 0) (pos 0) (pos 0) ≡ false }
{}

/// Of nodes that cover the point the last in preorder is at it.
pub fn points()
    ensures over { at_point room places 0 (pos 25) (pos 25) ≡ Some 3 }
    ensures beside { at_point room places 0 (pos 15) (pos 15) ≡ Some 2 }
    ensures panel { at_point room places 0 (pos 59) (pos 59) ≡ Some 1 }
    ensures behind_panel { at_point room places 0 (pos 60) (pos 60) ≡ Some 0 }
    ensures right { at_point room places 0 (pos 100) (pos 0) ≡ None }
    ensures left { at_point room places 0 (negsuc 0) (pos 0) ≡ None }
{}

/// A node is reached only over nodes that cover the point. The search begins where it is asked to.
pub fn ways()
    ensures outside { at_point room places 0 (pos 82) (pos 82) ≡ Some 0 }
    ensures alone { at_point room places 4 (pos 82) (pos 82) ≡ Some 4 }
    ensures one_button { at_point room places 2 (pos 25) (pos 25) ≡ Some 2 }
    ensures not_there { at_point room places 3 (pos 15) (pos 15) ≡ None }
    ensures reached { map (λ row. row.node) (reach room places 0 (pos 25) (pos 25)) ≡ 0 ∷ 1 ∷ 2 ∷ 3 ∷ [] }
{}

/// A node that is not showing is at no point, and hides what is below it.
pub fn hiding()
    ensures button { at_point (room_with shown hidden) places 0 (pos 25) (pos 25) ≡ Some 2 }
    ensures panel { at_point (room_with hidden shown) places 0 (pos 25) (pos 25) ≡ Some 0 }
    ensures from_panel { at_point (room_with hidden shown) places 1 (pos 25) (pos 25) ≡ None }
    ensures from_button { at_point (room_with hidden shown) places 3 (pos 25) (pos 25) ≡ Some 3 }
{}
