//! What is told of several steps can be told before the first is done: so all messages can be made before the tree
//! changes.

ghost use Rattle.atspi_app_signals.specs.Laws.{AppliedCanBeTold, CallsStayInPlace, EditsAreToldAtOnce, EditsCanBeTold};
ghost use Rattle.atspi_app_signals.specs.Laws.{SendsMessages, StatesAreToldAtOnce, StayingCanBeTold};
ghost use Rattle.atspi_app_signals.specs.Laws.{StayingIsToldAtOnce, TextsAreToldAtOnce};

/// What an application queues of a step is the step, and behind it the messages that `announced` makes.
pub fn messages_are_sent()
    ensures { SendsMessages }
{}

/// A step that applies to a tree can be told of it.
pub fn applied_can_be_told()
    ensures { AppliedCanBeTold }
{}

/// Steps of which none takes a node from its place are told of the tree before all of them as each is of the tree
/// before it, and can be: those that set states, and those that exchange texts.
pub fn staying_is_told_at_once()
    ensures same { StayingIsToldAtOnce }
    ensures can { StayingCanBeTold }
    ensures states { StatesAreToldAtOnce }
    ensures texts { TextsAreToldAtOnce }
{}

/// The same of the steps of each edit.
pub fn edits_are_told_at_once()
    ensures same { EditsAreToldAtOnce }
    ensures can { EditsCanBeTold }
{}

/// No call takes a node from its place: so the steps of a call are told of the tree before it.
pub fn calls_stay_in_place()
    ensures { CallsStayInPlace }
{}
