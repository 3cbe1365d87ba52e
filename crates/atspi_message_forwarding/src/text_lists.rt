//! How many bytes a message has whose body is one list of texts, where nothing is written of it.

ghost use Rattle.std.specs.Prelude.{◌≡◌, ◌+◌, ℕ, List, [], ◌∷◌, map, length, IfSome, IsSome};
ghost use Rattle.atspi_base.specs.valid_names.Names.{IsPath, IsInterface, IsMember, IsBusName};
ghost use Rattle.atspi_types.specs.Kinds.{text};
ghost use Rattle.atspi_types.specs.Data.{Data, text_data, array_data, items_of};
ghost use Rattle.atspi_types.specs.DataView.{all_data};
ghost use Rattle.atspi_types.specs.declared.fault.Order.{Order};
ghost use Rattle.atspi_marshal.specs.Spelling.{spelling, spellings};
ghost use Rattle.atspi_message.specs.Bytes.{written};
ghost use Rattle.atspi_message.specs.Envelope.{envelope_of};
ghost use Rattle.atspi_message.specs.Length.{told, ListsTexts};
ghost use Rattle.atspi_message_in_place.specs.View.{bytes_of};

use crate::length::{at_eight, at_four, behind, name_end, number_end};
use atspi_base::Text;
use atspi_base::valid_names::{BusName, Interface, Member, Path};
use atspi_message::Message;
use atspi_types::{Ty, ValueRef, Values};

/// Where a text ends that stands behind a place.
fn text_end(at: u32, text: &Text) -> u32
    ensures { (o : Order) (place : ℕ) → at ≡ told place
        → result ≡ told (place + length (spelling o place (text_data text.now))) }
{
    behind(behind(at_four(at), 5), text.as_str().len())
}

/// Where values end that stand one behind the other from a place on and are texts; nowhere where one is none.
fn texts_end(at: u32, texts: &Values) -> Option<u32>
    ensures end { IfSome result (λ end. (o : Order) (place : ℕ) → at ≡ told place
        → end ≡ told (place + length (spellings o place (items_of (all_data texts.now))))) }
    ensures known { (names : List (List ℕ)) → all_data texts.now ≡ map text_data names → IsSome result }
{
    let mut end = at;
    for i in 0..texts.len() {
        match texts.at(i) {
            ValueRef::Text(text) => end = text_end(end, text),
            _ => return None,
        }
    }
    Some(end)
}

/// The elements of a body that is one array of texts.
fn only_texts(body: &Values) -> Option<&Values>
    ensures elements { IfSome result
        (λ texts. all_data body.now ≡ array_data text (items_of (all_data texts.now)) ∷ []) }
    ensures known { (ds : List Data) → all_data body.now ≡ array_data text (items_of ds) ∷ [] → IsSome result }
{
    if body.len() != 1 {
        return None;
    }
    match body.at(0) {
        ValueRef::Array(Ty::Text, texts) => Some(texts),
        _ => None,
    }
}

/// A path as a text.
fn path_text(path: &Option<Path>) -> Option<&str>
    ensures text { bytes_of result ≡ path.now }
    ensures named { IfSome path.now IsPath }
{
    match path {
        Some(path) => Some(path.as_str()),
        None => None,
    }
}

/// The name of an interface or an error as a text.
fn interface_text(name: &Option<Interface>) -> Option<&str>
    ensures text { bytes_of result ≡ name.now }
    ensures named { IfSome name.now IsInterface }
{
    match name {
        Some(name) => Some(name.as_str()),
        None => None,
    }
}

/// The name of a member as a text.
fn member_text(name: &Option<Member>) -> Option<&str>
    ensures text { bytes_of result ≡ name.now }
    ensures named { IfSome name.now IsMember }
{
    match name {
        Some(name) => Some(name.as_str()),
        None => None,
    }
}

/// A bus name as a text.
fn name_text(name: &Option<BusName>) -> Option<&str>
    ensures text { bytes_of result ≡ name.now }
    ensures named { IfSome name.now IsBusName }
{
    match name {
        Some(name) => Some(name.as_str()),
        None => None,
    }
}

/// How many bytes the written form of a message has whose body is one list of texts, also where it is too long for the
/// wire. None of another message.
pub fn list_length(message: &Message) -> Option<u32>
    ensures length { IfSome result (λ len. len ≡ told (length (written (envelope_of message.now)))) }
    ensures known { ListsTexts (envelope_of message.now) → IsSome result }
{
    let texts = only_texts(&message.body)?;
    let path = name_end(16, path_text(&message.path));
    let interface = name_end(path, interface_text(&message.interface));
    let member = name_end(interface, member_text(&message.member));
    let error = name_end(member, interface_text(&message.error));
    let reply = number_end(error, message.reply);
    let destination = name_end(reply, name_text(&message.destination));
    let sender = name_end(destination, name_text(&message.sender));
    let types = behind(at_eight(sender), 8);
    texts_end(behind(at_eight(types), 4), texts)
}
