//! Worked cases of the fold: what each entry makes of a view.

ghost use Rattle.std.specs.Prelude.{◌≡◌, ◌∷◌, ◌++◌, [], ℕ, List, Option, None, Some, codes};
ghost use Rattle.atspi_message.specs.Envelope.{Envelope};
ghost use Rattle.atspi_script_lines.specs.declared.line.Party.TheVariants as party;
ghost use Rattle.atspi_tree_model.specs.declared.news.Item.{Item};
ghost use Rattle.atspi_tree_model.specs.declared.news.News.{News};
ghost use Rattle.atspi_tree_model.specs.declared.view.Row.{Row};
ghost use Rattle.atspi_tree_model.specs.Forest.{Forest};
ghost use Rattle.atspi_tree_model.specs.News.{effect, load};
ghost use Rattle.atspi_tree_model.specs.Path.{path_of};
ghost use Rattle.atspi_protocol.specs.declared.following.question.Question.TheVariants.{GetItems, Hello};
ghost use Rattle.atspi_protocol.specs.news.Replies.{items_told};
ghost use Rattle.atspi_trace.specs.Entry.{exited, gone, got, quiet};
ghost use Rattle.atspi_trace_lent.specs.Lent.{view_after, view_folded, with_message, with_news, with_reply};

/// Before the first load there is nothing, whatever news come; behind the end of the application there is nothing
/// again.
pub fn nothing()
    ensures empty { view_folded (codes ":1.2") [] 0 1 ≡ None }
    ensures news { (news : News) → with_news (codes ":1.2") (Some news) None ≡ None }
    ensures ended { (view : Option (Forest Row)) → view_after (codes ":1.2") [] 0 1 view (gone 0 1) ≡ None }
    ensures told { view_folded (codes ":1.2") (quiet ∷ gone 0 1 ∷ []) 0 1 ≡ None }
{}

/// A return to a call for items loads them, and one that tells none leaves nothing; a return to another call leaves
/// what is there; news change what is there.
pub fn messages()
    ensures load { (e : Envelope) → (items : List Item) → (view : Option (Forest Row)) → items_told e ≡ Some items
        → with_reply (codes ":1.2") (Some (GetItems (codes ":1.2"))) e view
        ≡ Some (load (path_of 0) (codes ":1.2") items) }
    ensures no_items { (e : Envelope) → (view : Option (Forest Row)) → items_told e ≡ None
        → with_reply (codes ":1.2") (Some (GetItems (codes ":1.2"))) e view ≡ None }
    ensures other { (e : Envelope) → (view : Option (Forest Row))
        → with_reply (codes ":1.2") (Some Hello) e view ≡ view }
    ensures no_call { (e : Envelope) → (view : Option (Forest Row)) → with_reply (codes ":1.2") None e view ≡ view }
    ensures changed { (news : News) → (view : Forest Row)
        → with_news (codes ":1.2") (Some news) (Some view) ≡ Some (effect (path_of 0) (codes ":1.2") view news) }
    ensures unsent { (view : Option (Forest Row)) → with_message (codes ":1.2") None None view ≡ view }
{}

/// What others take, what is taken of others, and other entries leave it as it is.
pub fn others()
    ensures another_reader { (view : Option (Forest Row))
        → view_after (codes ":1.2") [] 0 1 view (got (party.Reader 1) (party.App 1) 7) ≡ view }
    ensures another_app { (view : Option (Forest Row))
        → view_after (codes ":1.2") [] 0 1 view (got (party.Reader 0) (party.App 2) 7) ≡ view }
    ensures of_the_bus { (view : Option (Forest Row))
        → view_after (codes ":1.2") [] 0 1 view (got (party.Reader 0) party.Bus 7) ≡ view }
    ensures by_the_bus { (view : Option (Forest Row))
        → view_after (codes ":1.2") [] 0 1 view (got party.Bus (party.App 1) 7) ≡ view }
    ensures another_end { (view : Option (Forest Row)) → view_after (codes ":1.2") [] 0 1 view (gone 0 2) ≡ view }
    ensures another_told { (view : Option (Forest Row)) → view_after (codes ":1.2") [] 0 1 view (gone 1 1) ≡ view }
    ensures exit { (view : Option (Forest Row))
        → view_after (codes ":1.2") [] 0 1 view (exited (party.App 1)) ≡ view }
{}
