//! Laws of what is wanted, each the contract of a function without a body, so that it is proved with the crate.

ghost use Rattle.std.specs.Prelude.{◌≡◌, ℕ, List, Some, not, filter, flat_map};
ghost use Rattle.std.specs.Borrow.{Bor};
ghost use Rattle.atspi_types.specs.Data.{Data};
ghost use Rattle.atspi_tree_model.specs.declared.news.News.{News};
ghost use Rattle.atspi_protocol.specs.declared.news.part.PartName.{PartName};
ghost use Rattle.atspi_protocol.specs.news.Replies.{part_in};
ghost use Rattle.atspi_protocol.specs.following.ReaderState.{Followed, is_named};
ghost use Rattle.atspi_protocol.specs.following.Wishes.{wishes};
ghost use Rattle.atspi_protocol.specs.following.Replied.{changed, refused_part, told_part};
ghost use Rattle.atspi_reader_known.specs.declared.plan.Plan.TheVariants.{Settle, Put, Forget};
ghost use Rattle.atspi_reader_known.specs.Wanted.{first, refusing};
ghost use Rattle.atspi_reader_known.specs.Planned.{one_planned};

/// What each plan comes to: the changes of the definitions.
pub fn plans_are_changes()
    ensures settled { (more : Bor (List (List ℕ × PartName))) (name : List ℕ) (apps : List Followed)
        → flat_map (one_planned (Settle more) name) apps ≡ changed (refusing more.now) name apps }
    ensures put { (other : Bor Followed) (name : List ℕ) (apps : List Followed)
        → flat_map (one_planned (Put other) name) apps ≡ changed (λ _. other.now) name apps }
    ensures forgotten { (name : List ℕ) (apps : List Followed)
        → flat_map (one_planned Forget name) apps ≡ filter (λ app. not (is_named name app)) apps }
{}

/// A part that a return told is wanted no more, as one that was refused is: what is wanted first is the same after
/// both.
pub fn told_is_settled()
    ensures { (part : PartName) (path : List ℕ) (body : List Data) (news : News) → part_in part path body ≡ Some news
        → (name : List ℕ) (apps : List Followed)
        → first (wishes (changed (told_part news) name apps))
        ≡ first (wishes (changed (refused_part path part) name apps)) }
{}
