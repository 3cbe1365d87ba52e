//! Ends and worlds as they begin, and what a user's call does to a reader.

ghost use Rattle.std.specs.Prelude.{◌≡◌, ◌∷◌, [], None, Some, codes};
ghost use Rattle.atspi_script_lines.specs.declared.deed.Deed.TheVariants.{SetCaret};
ghost use Rattle.atspi_script_lines.specs.declared.line.Party.TheVariants as party;
ghost use Rattle.atspi_protocol.specs.exporting.Exporter.{sends};
ghost use Rattle.atspi_protocol.specs.following.Calls.{user_call};
ghost use Rattle.atspi_match.specs.routing.Queues.{Bus};
ghost use Rattle.atspi_trace.specs.Causes.{app_did, called, first_hearer, taken, without_bytes};
ghost use Rattle.atspi_trace.specs.Ends.{plain};
ghost use Rattle.atspi_trace.specs.Entry.{quiet, sent};
ghost use Rattle.atspi_trace.specs.Rules.{owner_rule};
ghost use Rattle.atspi_trace.specs.World.{Letter, a_reader, an_application, first_bus, first_lists, first_queues};
ghost use Rattle.atspi_trace.specs.World.{first_registry, first_unique, first_world, here, newcomer, the_registry};
ghost use Rattle.atspi_trace_examples.specs.trace.Small.{IsLong, app, exporter, idle, reader, said, with_ends};

/// Who joined has no name yet, and nothing on its links.
pub fn newcomers()
    ensures reader { newcomer (party.Reader 3) (a_reader idle)
        ≡ record {
          who = party.Reader 3;
          standing = here;
          unique = None;
          role = a_reader idle;
          up = [];
          up_moved = 0;
          down = [];
          down_moved = 0;
        } }
    ensures hearer { first_hearer ≡ record { asked = []; next = 1; registry = None; named = []; holds = [] } }
    ensures registry { first_registry
        ≡ record {
          who = party.Registry;
          standing = here;
          unique = Some (codes ":1.0");
          role =
              the_registry
              (record {
                pairs = [];
                children = [];
                embeds = 0;
                hello = Some 1;
                own = Some (codes ":1.0");
                next = 4;
              });
          up = [];
          up_moved = 0;
          down = [];
          down_moved = 0;
        } }
{}

/// The first world has the registry alone. The bus gave it one name, made it the owner of another, and said seven
/// messages: of each of the two names that it has an owner now and that this is the registry, and three returns.
pub fn first_worlds()
    ensures quota { (first_world 1024).bus ≡ first_bus 1024 }
    ensures ends { (first_world 1024).ends ≡ first_registry ∷ [] }
    ensures swaps { (first_world 1024).swaps ≡ 0 }
    ensures bus_quota { (first_bus 1024).quota ≡ 1024 }
    ensures joined { (first_bus 1024).state.joined ≡ 0 ∷ [] }
    ensures rules { (first_bus 1024).state.rules ≡ (0, owner_rule) ∷ [] }
    ensures calls { (first_bus 1024).state.calls ≡ [] }
    ensures next { (first_bus 1024).state.next ≡ 8 }
    ensures given { (first_bus 1024).state.owners.given ≡ 1 }
    ensures names { first_unique ≡ (0, codes ":1.0") ∷ [] }
    ensures owned { first_lists ≡ (codes ":1.0", (0, 0) ∷ []) ∷ (codes "org.a11y.atspi.Registry", (0, 4) ∷ []) ∷ [] }
    ensures waiting { first_queues ≡ (0, []) ∷ [] }
    ensures due { (first_bus 1024).waiting.due ≡ [] }
    ensures own { (first_bus 1024).own ≡ [] }
    ensures closings { (first_bus 1024).closings ≡ [] }
{}

/// A user's call goes out at once with the reader's next serial, and is none of the reader's own.
pub fn user_calls()
    ensures { (b : Bus) → called (with_ends b (reader 0 idle ∷ [])) 0 (codes ":1.1") 7 (SetCaret 1) (a_reader idle)
        ≡ record {
          world =
              with_ends b
              (record (reader 0 (record idle { next = 6 }))
              { up = plain (user_call 5 (codes ":1.1") 7 (SetCaret 1)) ∷ [] } ∷ []);
          entries = sent (party.Reader 0) (user_call 5 (codes ":1.1") 7 (SetCaret 1)) ∷ [];
        } }
{}

/// An application's end stands as the application is now, without what it queued, which is on its up link with the tree
/// as it was.
pub fn app_does()
    ensures { (b : Bus)
        → app_did (with_ends b (app 0 ∷ [])) 0 (quiet ∷ []) exporter
        (record exporter { next = 9; out = sends said.message ∷ [] })
        ≡ record {
          world =
              with_ends b
              (record (app 0) {
                role = an_application (record exporter { next = 9 });
                up = record { message = said.message; tree = exporter.tree; announces = None } ∷ [];
              }
              ∷ []);
          entries = quiet ∷ sent (party.App 0) said.message ∷ [];
        } }
{}

/// An end takes a message whose bytes are gone from the bus, but for those that were moved before.
pub fn rest_taken()
    ensures { (b : Bus) (l : Letter) → IsLong 20 l.said
        → (taken (with_ends b (reader 0 idle ∷ [])) 0
        (record (reader 0 idle) { down = l ∷ []; up_moved = 3; down_moved = 12 }) (l ∷ [])).world.bus
        ≡ without_bytes 0 8 b }
{}
