//! What holds of the texts of traces. Each law is the contract of a function without a body, so that it is proved with
//! the crate; the crates above cite the same definitions.

ghost use Rattle.atspi_trace_texts.specs.Laws.{EventsShowRows, NodesAreTold, TextTellsTrace};

/// The text with the bytes of messages tells the trace: two traces of events that can be told have one such text only
/// where they are one trace.
pub fn text_tells_trace()
    ensures { TextTellsTrace }
{}

/// The path of a node is told by the node's number, that of the root as `root`.
pub fn nodes_are_told()
    ensures { NodesAreTold }
{}

/// The text of an event of showing is `show`, the two names, and then the text of the rows alone.
pub fn events_show_rows()
    ensures { EventsShowRows }
{}
