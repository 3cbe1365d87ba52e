//! What stands open where a code of a signature comes: at most 32 arrays and 32 structs, each a mark.

ghost use Rattle.std.specs.Prelude.{◌≡◌, ℕ, ◌<◌, ◌≤◌, List, [], ◌∷◌, length, drop, Some, None, false};
ghost use Rattle.atspi_types.specs.SignatureReading.{depth_refusal};
ghost use Rattle.atspi_marshal_in_place.specs.codes.inner.Marks.{AreCounted, innermost, arrays_in, structs_in};
ghost use Rattle.atspi_marshal_in_place.specs.codes.inner.Marks.{end_marked, struct_close_marked, entry_close_marked};
ghost use Rattle.atspi_marshal_in_place.specs.codes.inner.Marks.{entry_open_marked, type_marked, refusal_marked, typed};
ghost use Rattle.atspi_marshal_in_place.specs.codes.inner.Marks.{closed, entry_opened, marks_after, Steps};
ghost use Rattle.atspi_marshal_in_place.specs.codes.inner.Marks as definitions;
ghost use Rattle.atspi_types.specs.SignatureFaults.{token_of};

use crate::codes::code::{Code, read_code};
use atspi_types::Fault;
use std::marker::Model;

/// A container that stands open.
#[derive(Clone, Copy)]
#[repr(u8)]
pub enum Mark {
    /// An array without its element.
    Array,
    /// A struct without a field, and with one or more.
    Struct,
    Fields,
    /// An entry without a type, with its key, and with both.
    Entry,
    Key,
    Both,
}

/// How many containers may stand open.
const LIMIT: usize = 64;

/// The containers that stand open, the innermost first.
#[derive(Drop)]
pub struct Open {
    marks: [Mark; 64],
    /// The marks stand from here to the end.
    top: usize,
    arrays: u32,
    structs: u32,
}

impl Model for Open {
    ghost use Rattle.std.specs.Prelude.{List, drop};
    ghost use Rattle.atspi_marshal_in_place.specs.declared.codes.marks.Mark.{Mark};
    ghost use Rattle.atspi_marshal_in_place.specs.codes.inner.Marks.{AreCounted};

    ghost Value = { List Mark };

    ghost view = { λ o. drop o.top o.marks };

    ghost invariant = { λ o. AreCounted o.marks o.top o.arrays o.structs };
}

impl Open {
    /// None.
    pub fn new() -> Open
        ensures { result ≡ [] }
    {
        Open {
            marks: [Mark::Array; 64],
            top: LIMIT,
            arrays: 0,
            structs: 0,
        }
    }

    /// The innermost.
    pub fn innermost(&self) -> Option<Mark>
        ensures { result ≡ innermost self.now }
    {
        if self.top < LIMIT {
            Some(self.marks[self.top])
        } else {
            None
        }
    }

    /// Why the code is refused, or nothing.
    fn refuses(&self, code: Code) -> Option<u8>
        ensures { result ≡ refusal_marked self.now code }
    {
        let innermost = self.innermost();
        match code {
            Code::Basic => refuses_type(innermost, true, None),
            Code::Variant => refuses_type(innermost, false, None),
            Code::Array => refuses_type(innermost, false, too_deep(self.arrays)),
            Code::StructOpen => refuses_type(innermost, false, too_deep(self.structs)),
            Code::StructClose => refuses_struct_close(innermost),
            Code::EntryOpen => refuses_entry_open(innermost),
            Code::EntryClose => refuses_entry_close(innermost),
            Code::Descriptor => Some(3),
            Code::NoCode => Some(2),
        }
    }

    /// One array more.
    fn open_array(&mut self)
        requires { arrays_in self.old < 32 }
        ensures { self.new ≡ Mark.Array ∷ self.old }
    {
        self.top -= 1;
        self.marks[self.top] = Mark::Array;
        self.arrays += 1;
    }

    /// One struct more.
    fn open_struct(&mut self)
        requires { structs_in self.old < 32 }
        ensures { self.new ≡ Mark.Struct ∷ self.old }
    {
        self.top -= 1;
        self.marks[self.top] = Mark::Struct;
        self.structs += 1;
    }

    /// The array that stands open last has entries.
    fn open_entry(&mut self)
        requires { innermost self.old ≡ Some Mark.Array }
        ensures { self.new ≡ entry_opened self.old }
    {
        self.marks[self.top] = Mark::Entry;
    }

    /// The innermost closes.
    fn pop(&mut self)
        requires { 0 < length self.old }
        ensures { self.new ≡ drop 1 self.old }
    {
        match self.marks[self.top] {
            Mark::Struct | Mark::Fields => self.structs -= 1,
            Mark::Array | Mark::Entry | Mark::Key | Mark::Both => self.arrays -= 1,
        }
        self.top += 1;
    }

    /// Whether the innermost is an array without its element.
    fn is_in_array(&self) -> bool
        ensures { result ≡ definitions.is_in_array self.now }
    {
        match self.innermost() {
            Some(Mark::Array) => true,
            _ => false,
        }
    }

    /// One type more in the innermost, which is no array.
    fn count_type(&mut self)
        requires { definitions.is_in_array self.old ≡ false }
        ensures { self.new ≡ typed self.old }
    {
        match self.innermost() {
            Some(Mark::Struct) => self.marks[self.top] = Mark::Fields,
            Some(Mark::Entry) => self.marks[self.top] = Mark::Key,
            Some(Mark::Key) => self.marks[self.top] = Mark::Both,
            _ => {}
        }
    }

    /// A whole type comes: it is the element of each array that it stands in directly.
    fn take_type(&mut self)
        ensures { self.new ≡ typed self.old }
    {
        while self.is_in_array() {
            self.pop();
        }
        self.count_type();
    }

    /// The innermost closes, and is a whole type.
    fn close(&mut self)
        requires { 0 < length self.old }
        ensures { self.new ≡ closed self.old }
    {
        self.pop();
        self.take_type();
    }

    /// What stands open behind a code that is not refused.
    fn take(&mut self, code: Code)
        requires { refusal_marked self.old code ≡ None }
        ensures { self.new ≡ marks_after self.old code }
    {
        match code {
            Code::Basic | Code::Variant => self.take_type(),
            Code::Array => self.open_array(),
            Code::StructOpen => self.open_struct(),
            Code::EntryOpen => self.open_entry(),
            Code::StructClose | Code::EntryClose => self.close(),
            Code::Descriptor | Code::NoCode => {}
        }
    }

    /// What stands open behind a byte at a place, or why it is refused.
    pub fn step(&mut self, place: u32, byte: u8) -> Result<(), Fault>
        ensures { Steps result self.old self.new place (definitions.code_of (token_of byte)) }
    {
        let code = read_code(byte);
        if let Some(reason) = self.refuses(code) {
            return Err(Fault { place, reason });
        }
        self.take(code);
        Ok(())
    }
}

/// Why one container more is refused, of as many of its sort.
fn too_deep(count: u32) -> Option<u8>
    ensures { result ≡ depth_refusal count }
{
    if count >= 32 { Some(9) } else { None }
}

/// Why the end is refused.
pub fn refuses_end(innermost: Option<Mark>) -> Option<u8>
    ensures { result ≡ end_marked innermost }
{
    match innermost {
        None => None,
        Some(Mark::Array) => Some(4),
        Some(Mark::Struct | Mark::Fields | Mark::Entry | Mark::Key | Mark::Both) => Some(6),
    }
}

/// Why a `)` is refused.
fn refuses_struct_close(innermost: Option<Mark>) -> Option<u8>
    ensures { result ≡ struct_close_marked innermost }
{
    match innermost {
        Some(Mark::Array) => Some(4),
        Some(Mark::Struct) => Some(5),
        Some(Mark::Fields) => None,
        None | Some(Mark::Entry | Mark::Key | Mark::Both) => Some(6),
    }
}

/// Why a `}` is refused.
fn refuses_entry_close(innermost: Option<Mark>) -> Option<u8>
    ensures { result ≡ entry_close_marked innermost }
{
    match innermost {
        Some(Mark::Array) => Some(4),
        None | Some(Mark::Struct | Mark::Fields) => Some(6),
        Some(Mark::Entry | Mark::Key) => Some(8),
        Some(Mark::Both) => None,
    }
}

/// Why a `{` is refused.
fn refuses_entry_open(innermost: Option<Mark>) -> Option<u8>
    ensures { result ≡ entry_open_marked innermost }
{
    match innermost {
        Some(Mark::Array) => None,
        None | Some(Mark::Struct | Mark::Fields | Mark::Entry | Mark::Key | Mark::Both) => Some(7),
    }
}

/// Why a type is refused, which is basic or not and may be refused for its depth.
fn refuses_type(innermost: Option<Mark>, basic: bool, deep: Option<u8>) -> Option<u8>
    ensures { result ≡ type_marked innermost basic deep }
{
    match innermost {
        Some(Mark::Entry) => { if basic { deep } else { Some(8) } }
        Some(Mark::Both) => Some(8),
        None | Some(Mark::Array | Mark::Struct | Mark::Fields | Mark::Key) => deep,
    }
}
