//! Laws of readers. Each is the contract of a function that does nothing.

ghost use Rattle.std.specs.Prelude.{◌≡◌, ◌≢◌, ◌⊎◌, ℕ, true, false, List, [], None};
ghost use Rattle.atspi_message.specs.Envelope.{Envelope};
ghost use Rattle.atspi_script_lines.specs.declared.deed.Deed.{Deed};
ghost use Rattle.atspi_protocol.specs.declared.news.part.PartName.{PartName};
ghost use Rattle.atspi_protocol.specs.following.ReaderState.{ReaderState, begins};
ghost use Rattle.atspi_protocol.specs.following.Takes.{starts, reader_takes, reader_calls};
ghost use Rattle.atspi_reader_laws.specs.Laws.{RestsOnlyAtEnd, is_given_up, GivesUp, BeginsAnew, ComesAnew};
ghost use Rattle.atspi_reader_laws.specs.Laws.{is_known, Forgets};
ghost use Rattle.atspi_reader_laws.specs.Laws.{EndsStart, IsStartOver, IsOfStart, AsksInOrder};

/// A reader asks on: where no call of its own waits, no call of its start is to come, and there is nothing that it
/// wants to know. So it is once it has started and after each message, and a user's call leaves it so.
pub fn readers_ask_on()
    ensures start { (s : ReaderState) → RestsOnlyAtEnd (starts s) }
    ensures message { (s : ReaderState) (e : Envelope) → RestsOnlyAtEnd (reader_takes s e) }
    ensures call { (s : ReaderState) (name : List ℕ) (node : ℕ) (deed : Deed) → RestsOnlyAtEnd s
        → RestsOnlyAtEnd (reader_calls s name node deed) }
{}

/// A part of a row is given up only where the reply to the call for it tells no such part, and then it is, of an
/// application that is known. It is given up until the application ends, the call for all of it is answered, or an item
/// comes for its path, of which there is no row; and not after.
pub fn parts_are_given_up()
    ensures only { (s : ReaderState) (e : Envelope) (name path : List ℕ) (part : PartName)
        → is_given_up s name path part ≡ false → is_given_up (reader_takes s e) name path part ≡ true
        → GivesUp s e name path part }
    ensures each { (s : ReaderState) (e : Envelope) (name path : List ℕ) (part : PartName) → is_known s name ≡ true
        → GivesUp s e name path part → is_given_up (reader_takes s e) name path part ≡ true }
    ensures stay { (s : ReaderState) (e : Envelope) (name path : List ℕ) (part : PartName)
        → is_given_up s name path part ≡ true → is_given_up (reader_takes s e) name path part ≡ false
        → BeginsAnew s e name ⊎ ComesAnew s e name path }
    ensures anew { (s : ReaderState) (e : Envelope) (name path : List ℕ) (part : PartName) → BeginsAnew s e name
        → is_given_up (reader_takes s e) name path part ≡ false }
    ensures row { (s : ReaderState) (e : Envelope) (name path : List ℕ) (part : PartName) → ComesAnew s e name path
        → is_given_up (reader_takes s e) name path part ≡ false }
{}

/// An application that is known is forgotten only where the bus tells the end of its name, or the reply to the call for
/// all of it tells no items; and then it is not known, whatever else the message says.
pub fn applications_are_forgotten()
    ensures only { (s : ReaderState) (e : Envelope) (name : List ℕ) → is_known s name ≡ true
        → is_known (reader_takes s e) name ≡ false → Forgets s e name }
    ensures each { (s : ReaderState) (e : Envelope) (name : List ℕ)
        → Forgets s e name → is_known (reader_takes s e) name ≡ false }
{}

/// A start of which calls are to come is over after a message only where that is the reply to one of them and fails it;
/// and then it is over.
pub fn starts_end_early()
    ensures only { (s : ReaderState) (e : Envelope) → IsOfStart s → s.to_come ≢ [] → IsStartOver (reader_takes s e)
        → EndsStart s e }
    ensures each { (s : ReaderState) (e : Envelope) → EndsStart s e → IsStartOver (reader_takes s e) }
{}

/// Otherwise a start goes on in its order. What is to come is of the start, at the beginning and ever after.
pub fn starts_ask_in_order()
    ensures otherwise { (s : ReaderState) (e : Envelope) → EndsStart s e ⊎ AsksInOrder s (reader_takes s e) }
    ensures beginning { IsOfStart begins }
    ensures start { (s : ReaderState) → IsOfStart s → IsOfStart (starts s) }
    ensures message { (s : ReaderState) (e : Envelope) → IsOfStart s → IsOfStart (reader_takes s e) }
    ensures call { (s : ReaderState) (name : List ℕ) (node : ℕ) (deed : Deed) → IsOfStart s
        → IsOfStart (reader_calls s name node deed) }
{}
