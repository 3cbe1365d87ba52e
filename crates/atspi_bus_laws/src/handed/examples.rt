//! Worked cases: values that can be written wherever they stand, by each kind, and ends that have left.

ghost use Rattle.std.specs.Prelude.{[], ◌∷◌, true, codes};
ghost use Rattle.atspi_types.specs.Kinds.{byte, text, boolean};
ghost use Rattle.atspi_types.specs.Data.{number_data, boolean_data, text_data, path_data, signature_data, array_data};
ghost use Rattle.atspi_types.specs.Data.{structure_data, dictionary_data, variant_data, item, no_items, entry};
ghost use Rattle.atspi_types.specs.Data.{no_entries};
ghost use Rattle.atspi_types.specs.Kinds.{no_kinds};
ghost use Rattle.atspi_trace.specs.World.{here, stopped, away};
ghost use Rattle.atspi_message.specs.Sits.{Sits};
ghost use Rattle.atspi_bus_laws.specs.handed.Naming.{HasLeft};

/// A number in its width and one past it; a boolean; texts; a path and none; and each container, within one level and
/// with none left.
pub fn values()
    ensures number { Sits (number_data byte 255) 0 }
    ensures wide { Sits (number_data byte 256) 0 → ⊥ }
    ensures boolean { Sits (boolean_data true) 0 }
    ensures text { Sits (text_data []) 0 }
    ensures path { Sits (path_data []) 0 → ⊥ }
    ensures array { Sits (array_data text (item (text_data []) no_items)) 1 }
    ensures deep_array { Sits (array_data text no_items) 0 → ⊥ }
    ensures structure { Sits (structure_data (item (boolean_data true) no_items)) 1 }
    ensures deep_structure { Sits (structure_data (item (boolean_data true) no_items)) 0 → ⊥ }
    ensures dictionary { Sits (dictionary_data text boolean (entry (text_data []) (boolean_data true) no_entries)) 2 }
    ensures deep_dictionary { Sits (dictionary_data text boolean (entry (text_data []) (boolean_data true) no_entries))
        1 → ⊥ }
    ensures deep_variant { Sits (variant_data boolean (boolean_data true)) 0 → ⊥ }
{}

/// Only an end that is away has left.
pub fn standings()
    ensures away { HasLeft away }
    ensures here { HasLeft here → ⊥ }
    ensures stopped { HasLeft stopped → ⊥ }
{}
