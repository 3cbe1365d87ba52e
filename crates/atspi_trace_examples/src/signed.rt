//! Worked cases of the name under which an application signs.

ghost use Rattle.std.specs.Prelude.{[], ◌∷◌};
ghost use Rattle.atspi_tree_model.specs.declared.step.Step.TheVariants.{Remove};
ghost use Rattle.atspi_names.specs.Owners.{unique_name};
ghost use Rattle.atspi_trace.specs.Entry.{changed, quiet};
ghost use Rattle.atspi_trace_examples.specs.signed.Cases.{greeted, removed_as};
ghost use Rattle.atspi_trace_laws.specs.signed.Laws.{IsItsName, IsSignedTruly};

/// The first that greets the bus is `:1.1`, and nothing else; any name may be that of an application that has none yet.
pub fn its_own_name()
    ensures first { IsItsName greeted 0 (unique_name 1) }
    ensures another { IsItsName greeted 0 (unique_name 2) → ⊥ }
    ensures unnamed { IsItsName [] 0 (unique_name 2) }
{}

/// Behind a step stand the signals under the application's own name, and not those under another.
pub fn under_its_name()
    ensures its_own { IsSignedTruly greeted (changed 0 (Remove 0)) (removed_as 1) }
    ensures of_another { IsSignedTruly greeted (changed 0 (Remove 0)) (removed_as 2) → ⊥ }
    ensures unsigned { IsSignedTruly greeted (changed 0 (Remove 0)) [] → ⊥ }
    ensures other_entry { IsSignedTruly [] quiet [] }
{}
