//! The state of reading a signature: the containers that stand open, of which the limits allow 64.

ghost use Rattle.std.specs.Prelude.{◌≡◌, ◌≤◌, ◌<◌, [], IfOk, map, length, drop, None};
ghost use Rattle.atspi_types.specs.KindView.{kind_of, kinds_in};
ghost use Rattle.atspi_types.specs.SignatureFaults.{BeginsSignature, MayCome, arrays_open, structs_open, at_top};
ghost use Rattle.atspi_types.specs.SignatureReading as reading;
ghost use Rattle.atspi_types.specs.SignatureReading.{Gives};
ghost use Rattle.atspi_types.specs.inner.OpenView.{token_view, context_of};

use crate::fault::{Fault, ReadFault};
use crate::token::{Token, read_token};
use crate::ty::{EntryType, Ty, Tys};
use atspi_base::NoMemory;
use std::alloc::Global;

/// What stands open where a byte of a signature comes: types, or a container in what stands open around it.
#[derive(Drop)]
pub enum Open {
    Top(Tys),
    Array(Box<Open>),
    Struct(Box<Open>, Tys),
    Entry(Box<Open>),
    Key(Box<Open>, Ty),
    Both(Box<Open>, Ty, Ty),
}

impl Open {
    /// How many arrays stand open.
    fn arrays(&self) -> u32
        requires { arrays_open (context_of self.now) ≤ 32 }
        ensures { result ≡ arrays_open (context_of self.now) }
    {
        match self {
            Open::Top(_) => 0,
            Open::Struct(outer, _) => outer.arrays(),
            Open::Array(outer)
            | Open::Entry(outer)
            | Open::Key(outer, _)
            | Open::Both(outer, _, _) => outer.arrays() + 1,
        }
    }

    /// How many structs stand open.
    fn structs(&self) -> u32
        requires { structs_open (context_of self.now) ≤ 32 }
        ensures { result ≡ structs_open (context_of self.now) }
    {
        match self {
            Open::Top(_) => 0,
            Open::Struct(outer, _) => outer.structs() + 1,
            Open::Array(outer)
            | Open::Entry(outer)
            | Open::Key(outer, _)
            | Open::Both(outer, _, _) => outer.structs(),
        }
    }

    /// Why the end is refused.
    pub fn refuses_end(&self) -> Option<u8>
        ensures { result ≡ reading.end_refusal (context_of self.now) }
    {
        match self {
            Open::Top(_) => None,
            Open::Array(_) => Some(4),
            Open::Struct(_, _) | Open::Entry(_) | Open::Key(_, _) | Open::Both(_, _, _) => Some(6),
        }
    }

    /// Why a `)` is refused.
    fn refuses_struct_close(&self) -> Option<u8>
        ensures { result ≡ reading.struct_close_refusal (context_of self.now) }
    {
        match self {
            Open::Array(_) => Some(4),
            Open::Struct(_, fields) => if fields.is_empty() { Some(5) } else { None },
            Open::Top(_) | Open::Entry(_) | Open::Key(_, _) | Open::Both(_, _, _) => Some(6),
        }
    }

    /// Why a `}` is refused.
    fn refuses_entry_close(&self) -> Option<u8>
        ensures { result ≡ reading.entry_close_refusal (context_of self.now) }
    {
        match self {
            Open::Array(_) => Some(4),
            Open::Top(_) | Open::Struct(_, _) => Some(6),
            Open::Entry(_) | Open::Key(_, _) => Some(8),
            Open::Both(_, _, _) => None,
        }
    }

    /// Why a `{` is refused.
    fn refuses_entry_open(&self) -> Option<u8>
        ensures { result ≡ reading.entry_open_refusal (context_of self.now) }
    {
        match self {
            Open::Array(_) => None,
            Open::Top(_)
            | Open::Struct(_, _)
            | Open::Entry(_)
            | Open::Key(_, _)
            | Open::Both(_, _, _) => Some(7),
        }
    }

    /// Why a type is refused, which is basic or not and may be refused for its depth.
    fn refuses_type(&self, basic: bool, deep: Option<u8>) -> Option<u8>
        ensures { result ≡ reading.type_refusal (context_of self.now) basic deep }
    {
        match self {
            Open::Entry(_) => if basic { deep } else { Some(8) },
            Open::Both(_, _, _) => Some(8),
            Open::Top(_) | Open::Array(_) | Open::Struct(_, _) | Open::Key(_, _) => deep,
        }
    }

    /// Why the token is refused, or nothing.
    #[tactic(auto, unfolding(crate::specs::SignatureReading::refusal))]
    pub fn refuses(&self, token: &Token) -> Option<u8>
        requires arrays { arrays_open (context_of self.now) ≤ 32 }
        requires structs { structs_open (context_of self.now) ≤ 32 }
        ensures { result ≡ reading.refusal (context_of self.now) (token_view token.now) }
    {
        match token {
            Token::Code(ty) => self.refuses_type(ty.is_basic(), None),
            Token::Array => self.refuses_type(false, too_deep(self.arrays())),
            Token::StructOpen => self.refuses_type(false, too_deep(self.structs())),
            Token::StructClose => self.refuses_struct_close(),
            Token::EntryOpen => self.refuses_entry_open(),
            Token::EntryClose => self.refuses_entry_close(),
            Token::Descriptor => Some(3),
            Token::NoCode => Some(2),
        }
    }

    /// What stands open behind a whole type.
    fn with_type(self, alloc: Global, ty: Ty) -> Result<Open, NoMemory>
        requires begins { BeginsSignature (context_of self) }
        requires may { MayCome (context_of self) (kind_of ty) }
        ensures { IfOk result (λ after. context_of after ≡ reading.with_type (context_of self) (kind_of ty)) }
    {
        match self {
            Open::Top(mut types) => {
                types.push(ty)?;
                Ok(Open::Top(types))
            }
            Open::Array(outer) => {
                Box::into_inner(outer).with_type(alloc, Ty::Array(Box::new(alloc, ty)?))
            }
            Open::Struct(outer, mut fields) => {
                fields.push(ty)?;
                Ok(Open::Struct(outer, fields))
            }
            Open::Entry(outer) => Ok(Open::Key(outer, ty)),
            Open::Key(outer, key) => Ok(Open::Both(outer, key, ty)),
            Open::Both(_, _, _) => unreachable!(),
        }
    }

    /// What stands open behind a token that is not refused.
    #[tactic(auto, unfolding(crate::specs::SignatureReading::with_token, crate::specs::SignatureReading::refusal))]
    fn with_token(self, alloc: Global, token: Token) -> Result<Open, NoMemory>
        requires begins { BeginsSignature (context_of self) }
        requires may { reading.refusal (context_of self) (token_view token) ≡ None }
        ensures { IfOk result (λ after. context_of after ≡ reading.with_token (context_of self) (token_view token)) }
    {
        match token {
            Token::Code(ty) => self.with_type(alloc, ty),
            Token::Array => Ok(Open::Array(Box::new(alloc, self)?)),
            Token::StructOpen => Ok(Open::Struct(Box::new(alloc, self)?, Tys::new(alloc))),
            Token::StructClose => self.close_struct(alloc),
            Token::EntryOpen => self.open_entry(),
            Token::EntryClose => self.close_entry(alloc),
            Token::Descriptor | Token::NoCode => Ok(self),
        }
    }

    /// What stands open behind a `)`.
    fn close_struct(self, alloc: Global) -> Result<Open, NoMemory>
        requires begins { BeginsSignature (context_of self) }
        ensures { IfOk result (λ after. context_of after ≡ reading.struct_closed (context_of self)) }
    {
        match self {
            Open::Struct(outer, fields) => {
                Box::into_inner(outer).with_type(alloc, Ty::Struct(Box::new(alloc, fields)?))
            }
            other @ (Open::Top(_)
            | Open::Array(_)
            | Open::Entry(_)
            | Open::Key(_, _)
            | Open::Both(_, _, _)) => Ok(other),
        }
    }

    /// What stands open behind a `{`.
    fn open_entry(self) -> Result<Open, NoMemory>
        ensures { IfOk result (λ after. context_of after ≡ reading.entry_opened (context_of self)) }
    {
        match self {
            Open::Array(outer) => Ok(Open::Entry(outer)),
            other @ (Open::Top(_)
            | Open::Struct(_, _)
            | Open::Entry(_)
            | Open::Key(_, _)
            | Open::Both(_, _, _)) => Ok(other),
        }
    }

    /// What stands open behind a `}`.
    fn close_entry(self, alloc: Global) -> Result<Open, NoMemory>
        requires begins { BeginsSignature (context_of self) }
        ensures { IfOk result (λ after. context_of after ≡ reading.entry_closed (context_of self)) }
    {
        match self {
            Open::Both(outer, key, value) => {
                let entries = Ty::Dict(Box::new(alloc, EntryType { key, value })?);
                Box::into_inner(outer).with_type(alloc, entries)
            }
            other @ (Open::Top(_)
            | Open::Array(_)
            | Open::Struct(_, _)
            | Open::Entry(_)
            | Open::Key(_, _)) => Ok(other),
        }
    }

    /// The types, where nothing else stands open.
    pub fn types(self, alloc: Global) -> Tys
        ensures { kinds_in result ≡ reading.types_at_end (context_of self) }
    {
        match self {
            Open::Top(types) => types,
            Open::Array(_)
            | Open::Struct(_, _)
            | Open::Entry(_)
            | Open::Key(_, _)
            | Open::Both(_, _, _) => Tys::new(alloc),
        }
    }
}

/// Why one container more is refused, of as many of its sort.
fn too_deep(count: u32) -> Option<u8>
    ensures { result ≡ reading.depth_refusal count }
{
    if count >= 32 { Some(9) } else { None }
}

/// What stands open behind a byte, or why it is refused.
#[tactic(auto, unfolding(crate::specs::SignatureReading::step_at))]
fn step(alloc: Global, before: Open, place: u32, byte: u8) -> Result<Open, ReadFault>
    requires { BeginsSignature (context_of before) }
    ensures step { Gives context_of result (reading.step_at (context_of before) place byte) }
    ensures begins { IfOk result (λ after. BeginsSignature (context_of after)) }
{
    let token = read_token(byte);
    if let Some(reason) = before.refuses(&token) {
        return Err(ReadFault::Bad(Fault { place, reason }));
    }
    Ok(before.with_token(alloc, token)?)
}

/// The types that the bytes begin with, up to the first byte that is no type of one byte.
fn front(alloc: Global, bytes: &[u8]) -> Result<Tys, NoMemory>
    ensures begins { IfOk result (λ types. BeginsSignature (at_top (kinds_in types))) }
    // The bytes behind them lead on to where all of the bytes do.
    ensures rest { IfOk result
        (λ types. reading.walk (at_top (kinds_in types)) (length (kinds_in types))
        (drop (length (kinds_in types)) bytes.now) ≡ reading.walk (at_top []) 0 bytes.now) }
{
    let mut types = Tys::with_capacity(alloc, bytes.len())?;
    for byte in bytes {
        let Token::Code(ty) = read_token(*byte) else {
            break;
        };
        types.push(ty)?;
    }
    Ok(types)
}

/// What stands open behind the bytes, or the first fault.
fn walk(alloc: Global, bytes: &[u8]) -> Result<Open, ReadFault>
    requires { length bytes.now < 256 }
    ensures { Gives context_of result (reading.walk (at_top []) 0 bytes.now) }
{
    let types = front(alloc, bytes)?;
    let start = types.len();
    let mut open = Open::Top(types);
    for i in start..bytes.len() {
        open = step(alloc, open, i as u32, bytes[i])?;
    }
    Ok(open)
}

/// The types behind the first 255 bytes, if those are all and the end is not refused.
#[tactic(auto, unfolding(crate::specs::SignatureReading::end_at, crate::specs::SignatureReading::refusal))]
fn finish(alloc: Global, open: Open, len: usize) -> Result<Tys, ReadFault>
    ensures { Gives kinds_in result (reading.behind_front (context_of «open») len) }
{
    if len > 255 {
        return Err(ReadFault::Bad(Fault {
            place: 255,
            reason: 1,
        }));
    }
    match open.refuses_end() {
        Some(reason) => {
            let place = len as u32;
            Err(ReadFault::Bad(Fault { place, reason }))
        }
        None => Ok(open.types(alloc)),
    }
}

/// The types that the bytes spell, or the first fault.
pub fn read_types(alloc: Global, bytes: &[u8]) -> Result<Tys, ReadFault>
    ensures { Gives kinds_in result (reading.signature_in bytes.now) }
{
    let open = walk(alloc, &bytes[..bytes.len().min(255)])?;
    finish(alloc, open, bytes.len())
}
