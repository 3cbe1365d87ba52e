//! Laws of applications, over the definitions that the contracts of the application, the world and the theory of traces
//! cite.

ghost use Rattle.atspi_protocol.specs.exporting.Laws.{AnswersApply, EachCallIsAnswered, NumbersRise, SignaturesAreKept};
ghost use Rattle.atspi_protocol.specs.exporting.Laws.{TreesStay, WordsAreTyped};

/// Every call that expects a reply gets exactly one return or error, to its sender and with its serial; nothing else is
/// one.
pub fn each_call_is_answered()
    ensures { EachCallIsAnswered }
{}

/// The numbers of an application's messages rise by one.
pub fn numbers_rise()
    ensures { NumbersRise }
{}

/// The steps of a call apply to the tree, and so a tree stays a tree whatever comes.
pub fn trees_stay()
    ensures steps { AnswersApply }
    ensures trees { TreesStay }
{}

/// Each member is answered with values of the signature that the table names.
pub fn signatures_are_kept()
    ensures { SignaturesAreKept }
{}

/// What an application says is well typed, whatever it is asked.
pub fn words_are_typed()
    ensures { WordsAreTyped }
{}
