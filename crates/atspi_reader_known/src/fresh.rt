//! The parts that an item of a new node names.

ghost use Rattle.std.specs.Prelude.{◌≡◌, [], true, bytes_eq};
ghost use Rattle.atspi_cache.specs.inner.Plain.{is_plain};
ghost use Rattle.atspi_tree_model.specs.News as news;
ghost use Rattle.atspi_reader_known.specs.Wanted.{first_part};

use atspi_base::Text;
use atspi_protocol::news::PartName;
use atspi_tree_model::Item;

/// Whether a text has just these characters of ASCII.
fn is_word(text: &Text, word: &str) -> bool
    requires plain { is_plain word.now ≡ true }
    ensures { result ≡ bytes_eq text.now word.now }
{
    text.as_str() == word
}

/// Whether a list of interfaces has this one.
pub(crate) fn offers(word: &str, interfaces: &[Text]) -> bool
    requires plain { is_plain word.now ≡ true }
    ensures { result ≡ news.offers word.now interfaces.now }
{
    for interface in interfaces {
        if is_word(interface, word) {
            return true;
        }
    }
    false
}

/// The first unknown part of the row that an item of a new node makes: of such a row none was refused.
pub(crate) fn fresh_part(item: &Item) -> Option<PartName>
    ensures { result ≡ first_part [] (news.fresh item.now) }
{
    let interfaces = item.interfaces.as_slice();
    if offers("org.a11y.atspi.Text", interfaces) {
        return Some(PartName::Text);
    }
    if offers("org.a11y.atspi.Table", interfaces) {
        return Some(PartName::Columns);
    }
    None
}
