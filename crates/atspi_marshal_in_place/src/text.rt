//! Texts, paths and signatures that are passed.

ghost use Rattle.std.specs.Prelude.{◌≡◌, ◌<◌, ◌≤◌, ◌+◌, ◌-◌, ◌^◌, [], ◌∷◌, Ok, IsTrue, length, take, drop, IfOk, IfErr};
ghost use Rattle.std.specs.Int.{w32};
ghost use Rattle.std.specs.List.{list_all};
ghost use Rattle.atspi_base.specs.ReadsText.{ReadsStr, StrPlaceBelow};
ghost use Rattle.atspi_types.specs.SignatureReading.{signature_in};
ghost use Rattle.atspi_marshal_in_place.specs.codes.Codes.{kinds_at, spells};
ghost use Rattle.atspi_marshal_in_place.specs.codes.TyRefs.{ref_kind, refs_kinds, refs_read, ReadsOne};
ghost use Rattle.atspi_marshal.specs.Faults.{short_in};
ghost use Rattle.atspi_marshal.specs.Input.{number_in, byte_in, PlacesFit, ReachTo};
ghost use Rattle.atspi_marshal.specs.Reading.{input_of, long_place, short_place, long_at, short_at, text_body_at};
ghost use Rattle.atspi_marshal.specs.Reading.{path_body_at, signature_body_at};
ghost use Rattle.atspi_marshal_in_place.specs.Passing.{after, is_plain};
ghost use Rattle.atspi_marshal_in_place.specs.Paths.{precede};
ghost use Rattle.atspi_marshal_in_place.specs.Paths as definitions;
ghost use Rattle.atspi_base.specs.valid_names.Names as names;

use crate::codes::{TyRef, TysRef};
use crate::plain::{fault, room};
use atspi_base::valid_names::is_path;
use atspi_base::{TextFault, read_str};
use atspi_marshal::{Bound, Marshalled, byte_at, u32_at};
use atspi_types::Fault;

/// Whether each byte is a character of its own, and none is 0: byte by byte.
#[inline(always)]
fn are_plain_few(bytes: &[u8]) -> bool
    ensures { result ≡ list_all is_plain bytes.now }
{
    bytes.iter().all(|byte| 0 < *byte && *byte < 128)
}

/// The same of 16 bytes, without a branch, so that the machine looks at all of them at once.
#[inline(always)]
fn are_plain_16(bytes: &[u8]) -> bool
    requires { length bytes.now ≡ 16 }
    ensures { result ≡ list_all is_plain bytes.now }
{
    let mut plain = true;
    for i in 0..16usize {
        let byte = bytes[i];
        plain = plain & ((0 < byte) & (byte < 128));
    }
    plain
}

/// The same of 16 bytes or more: some of the last 16 are looked at once more.
#[inline(always)]
fn are_plain_many(bytes: &[u8]) -> bool
    requires { 16 ≤ length bytes.now }
    ensures { result ≡ list_all is_plain bytes.now }
{
    let last = bytes.len() - 16;
    let mut at = 0;
    while at < last {
        if !are_plain_16(&bytes[at..at + 16]) {
            return false;
        }
        at += 16;
    }
    are_plain_16(&bytes[last..])
}

/// Whether each byte is a character of its own, and none is 0.
#[inline(always)]
fn are_plain(bytes: &[u8]) -> bool
    ensures { result ≡ list_all is_plain bytes.now }
{
    if bytes.len() < 16 {
        return are_plain_few(bytes);
    }
    are_plain_many(bytes)
}

/// Whether the bytes are a text.
#[inline(always)]
fn read_text(bytes: &[u8]) -> Result<(), TextFault>
    requires { length bytes.now < 2 ^ 32 }
    ensures text { ReadsStr result bytes.now }
    ensures place { StrPlaceBelow result (length bytes.now) }
{
    if are_plain(bytes) {
        return Ok(());
    }
    match read_str(bytes) {
        Ok(_) => Ok(()),
        Err(refused) => Err(refused),
    }
}

/// So many bytes at a place.
#[inline(always)]
pub fn slice<'a>(bytes: &'a [u8], at: usize, len: usize) -> &'a [u8]
    requires { (at + len ≤ length bytes.now) × PlacesFit bytes.now }
    ensures { result.now ≡ take len (drop at bytes.now) }
{
    &bytes[at..at + len]
}

/// The place of a length of 32 bits whose bytes, and the zero byte behind them, are inside the bound.
#[tactic(auto, unfolding(atspi_marshal::specs::Reading::long_place))]
#[inline(always)]
pub fn long(input: &Marshalled, bound: Bound, at: usize) -> Result<usize, Fault>
    requires at { at ≤ bound.end }
    requires end { ReachTo input.now bound.end }
    ensures place { result ≡ long_place (input_of input.now) bound at }
    ensures within { IfOk result (λ p. (at ≤ p) × (p + 5 + number_in (input_of input.now) w32 p ≤ bound.end)) }
{
    let place = room(input, 4, 4, bound, at)?;
    let len = u32_at(input, place) as usize;
    if bound.end < place + 5 + len {
        return Err(fault(place, bound.reason));
    }
    Ok(place)
}

/// The same of a length of 8 bits.
#[tactic(auto, unfolding(atspi_marshal::specs::Reading::short_place))]
#[inline(always)]
pub fn short(input: &Marshalled, bound: Bound, at: usize) -> Result<usize, Fault>
    requires at { at ≤ bound.end }
    requires end { ReachTo input.now bound.end }
    ensures place { result ≡ short_place (input_of input.now) bound at }
    ensures within { IfOk result (λ p. (at ≤ p) × (p + 2 + byte_in (input_of input.now) p ≤ bound.end)) }
{
    let place = room(input, 1, 1, bound, at)?;
    let len = byte_at(input, place) as usize;
    if bound.end < place + 2 + len {
        return Err(fault(place, bound.reason));
    }
    Ok(place)
}

/// The place behind the text whose length stands at a place.
#[tactic(auto, unfolding(atspi_marshal::specs::Reading::text_body_at))]
#[inline(always)]
fn text_body(input: &Marshalled, place: usize) -> Result<usize, Fault>
    requires { ReachTo input.now (place + 5 + number_in (input_of input.now) w32 place) }
    ensures place { result ≡ after (text_body_at (input_of input.now) place) }
    ensures within { IfOk result (λ p. p ≡ place + 5 + number_in (input_of input.now) w32 place) }
{
    let len = u32_at(input, place) as usize;
    let start = place + 4;
    let end = start + len;
    match read_text(slice(input.bytes, start, len)) {
        Ok(()) => {
            if byte_at(input, end) != 0 {
                return Err(fault(end, 12));
            }
            Ok(end + 1)
        }
        Err(TextFault::Zero(zero)) => Err(fault(start + zero as usize, 13)),
        Err(TextFault::Utf8(first)) => Err(fault(start + first as usize, 14)),
        Err(TextFault::NoMemory) => Err(fault(place, 0)),
    }
}

/// The place behind a text.
#[tactic(auto, unfolding(atspi_marshal::specs::Reading::long_at))]
pub fn pass_text(input: &Marshalled, bound: Bound, at: usize) -> Result<usize, Fault>
    requires at { at ≤ bound.end }
    requires end { ReachTo input.now bound.end }
    ensures place { result ≡ after (long_at (text_body_at (input_of input.now)) (input_of input.now) bound at) }
    ensures within { IfOk result (λ p. (at < p) × (p ≤ bound.end)) }
{
    let place = long(input, bound, at)?;
    text_body(input, place)
}

/// Whether a byte of a path may stand before another one: without a branch, as in `are_plain_16`.
#[inline(always)]
fn may_precede(byte: u8, next: u8) -> bool
    ensures { result ≡ definitions.may_precede byte next }
{
    let digit = (48 <= byte) & (byte <= 57);
    let capital = (65 <= byte) & (byte <= 90);
    let small = (97 <= byte) & (byte <= 122);
    let is_in_path = digit | capital | small | (byte == 95) | (byte == 47);
    is_in_path & !((byte == 47) & (next == 47))
}

/// Whether each of 16 bytes may stand before the one behind it.
#[inline(always)]
fn precede_16(bytes: &[u8], at: usize) -> bool
    requires { at + 17 ≤ length bytes.now }
    ensures { result ≡ precede at 16 bytes.now }
{
    let mut all = true;
    for i in 0..16usize {
        all = all & may_precede(bytes[at + i], bytes[at + i + 1]);
    }
    all
}

/// Whether each byte but the last may stand before the one behind it: some of the last 17 are looked at once more.
#[inline(always)]
fn all_precede(bytes: &[u8]) -> bool
    requires { 17 ≤ length bytes.now }
    ensures { result ≡ precede 0 (length bytes.now - 1) bytes.now }
{
    let last = bytes.len() - 17;
    let mut at = 0;
    while at < last {
        if !precede_16(bytes, at) {
            return false;
        }
        at += 16;
    }
    precede_16(bytes, last)
}

/// Whether the bytes are a path that no `/` ends, looked at 16 bytes at a time.
#[inline(always)]
fn is_long_path(bytes: &[u8]) -> bool
    requires { 17 ≤ length bytes.now }
    ensures { result ≡ definitions.is_long_path bytes.now }
{
    bytes[0] == b'/' && may_precede(bytes[bytes.len() - 1], b'/') && all_precede(bytes)
}

/// Whether the bytes are a path. What is none so is left to the reader of the rule.
#[inline(always)]
fn reads_path(bytes: &[u8]) -> bool
    ensures { result ≡ names.is_path bytes.now }
{
    if 17 <= bytes.len() {
        if is_long_path(bytes) {
            return true;
        }
    }
    is_path(bytes)
}

/// The place behind the path whose length stands at a place.
#[tactic(auto, unfolding(atspi_marshal::specs::Reading::path_body_at))]
#[inline(always)]
fn path_body(input: &Marshalled, place: usize) -> Result<usize, Fault>
    requires { ReachTo input.now (place + 5 + number_in (input_of input.now) w32 place) }
    ensures place { result ≡ after (path_body_at (input_of input.now) place) }
    ensures within { IfOk result (λ p. p ≡ place + 5 + number_in (input_of input.now) w32 place) }
{
    let len = u32_at(input, place) as usize;
    let start = place + 4;
    let end = start + len;
    if !reads_path(slice(input.bytes, start, len)) {
        return Err(fault(place, 15));
    }
    if byte_at(input, end) != 0 {
        return Err(fault(end, 12));
    }
    Ok(end + 1)
}

/// The place behind a path.
#[tactic(auto, unfolding(atspi_marshal::specs::Reading::long_at))]
pub fn pass_path(input: &Marshalled, bound: Bound, at: usize) -> Result<usize, Fault>
    requires at { at ≤ bound.end }
    requires end { ReachTo input.now bound.end }
    ensures place { result ≡ after (long_at (path_body_at (input_of input.now)) (input_of input.now) bound at) }
    ensures within { IfOk result (λ p. (at < p) × (p ≤ bound.end)) }
{
    let place = long(input, bound, at)?;
    path_body(input, place)
}

/// The types of the signature whose length stands at a place. The place of a fault counts from its first byte.
pub fn types_at<'a>(input: &Marshalled<'a>, place: usize) -> Result<TysRef<'a>, Fault>
    requires { ReachTo input.now (place + 2 + byte_in (input_of input.now) place) }
    ensures read { refs_read result ≡ signature_in (short_in (input_of input.now) place) }
    ensures place { IfErr result (λ wrong. wrong.place ≤ byte_in (input_of input.now) place) }
{
    let len = byte_at(input, place) as usize;
    TysRef::parse(slice(input.bytes, place + 1, len))
}

/// The same of a signature of one type.
pub fn type_at<'a>(input: &Marshalled<'a>, place: usize) -> Result<Option<TyRef<'a>>, Fault>
    requires { ReachTo input.now (place + 2 + byte_in (input_of input.now) place) }
    ensures read { ReadsOne result (signature_in (short_in (input_of input.now) place)) }
    ensures place { IfErr result (λ wrong. wrong.place ≤ byte_in (input_of input.now) place) }
{
    let len = byte_at(input, place) as usize;
    TyRef::parse(slice(input.bytes, place + 1, len))
}

/// The types of a signature that was passed, which is not looked at again.
#[inline(always)]
pub fn known_types<'a>(input: &Marshalled<'a>, place: usize) -> TysRef<'a>
    requires end { ReachTo input.now (place + 2 + byte_in (input_of input.now) place) }
    requires known { IsTrue (spells (short_in (input_of input.now) place)) }
    ensures { signature_in (short_in (input_of input.now) place) ≡ Ok (refs_kinds result) }
{
    let len = byte_at(input, place) as usize;
    TysRef::known(slice(input.bytes, place + 1, len))
}

/// The type of a variant that was passed, whose signature is not looked at again.
#[inline(always)]
pub fn known_type<'a>(input: &Marshalled<'a>, place: usize) -> TyRef<'a>
    requires end { ReachTo input.now (place + 2 + byte_in (input_of input.now) place) }
    requires known { length (kinds_at (short_in (input_of input.now) place)) ≡ 1 }
    ensures { signature_in (short_in (input_of input.now) place) ≡ Ok (ref_kind result ∷ []) }
{
    let len = byte_at(input, place) as usize;
    TyRef::known(slice(input.bytes, place + 1, len))
}

/// The place behind the signature whose length stands at a place.
#[tactic(auto, unfolding(atspi_marshal::specs::Reading::signature_body_at))]
#[inline(always)]
fn signature_body(input: &Marshalled, place: usize) -> Result<usize, Fault>
    requires { ReachTo input.now (place + 2 + byte_in (input_of input.now) place) }
    ensures place { result ≡ after (signature_body_at (input_of input.now) place) }
    ensures within { IfOk result (λ p. p ≡ place + 2 + byte_in (input_of input.now) place) }
{
    let start = place + 1;
    let end = start + byte_at(input, place) as usize;
    match types_at(input, place) {
        Ok(_) => {
            if byte_at(input, end) != 0 {
                return Err(fault(end, 12));
            }
            Ok(end + 1)
        }
        Err(wrong) => Err(fault(start + wrong.place as usize, wrong.reason)),
    }
}

/// The place behind a signature.
#[tactic(auto, unfolding(atspi_marshal::specs::Reading::short_at))]
pub fn pass_signature(input: &Marshalled, bound: Bound, at: usize) -> Result<usize, Fault>
    requires at { at ≤ bound.end }
    requires end { ReachTo input.now bound.end }
    ensures place { result ≡ after (short_at (signature_body_at (input_of input.now)) (input_of input.now) bound at) }
    ensures within { IfOk result (λ p. (at < p) × (p ≤ bound.end)) }
{
    let place = short(input, bound, at)?;
    signature_body(input, place)
}
