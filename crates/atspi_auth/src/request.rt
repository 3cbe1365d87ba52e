//! What the other end's line says.

ghost use Rattle.std.specs.Prelude.{◌≡◌, bytes_eq, IfOk};
ghost use Rattle.std.specs.Char.{is_ascii_digit};
ghost use Rattle.std.specs.List.{list_all};
ghost use Rattle.atspi_auth.specs.Requests.{is_uid, is_decimal, has_word, has_uid, auth_request, data_request};
ghost use Rattle.atspi_auth.specs.Requests.{request_of, is_number, is_grant};

use atspi_base::NoMemory;
use hex::{FromHex, FromHexError};
use std::alloc::Global;

/// What a client's line says to a server.
#[derive(Clone, Copy)]
pub(crate) enum Request {
    /// `AUTH EXTERNAL` and the hex of a decimal uid.
    Login,
    /// `AUTH EXTERNAL` alone.
    Ask,
    /// Any other `AUTH`.
    OtherAuth,
    /// `DATA` alone or with the hex of a decimal uid.
    Uid,
    /// Any other `DATA`.
    OtherData,
    Cancel,
    Begin,
    /// `ERROR`, with or without a text.
    Error,
    /// No line that a server knows.
    Other,
}

fn all_digits(text: &[u8]) -> bool
    ensures { result ≡ list_all is_ascii_digit text.now }
{
    text.iter().all(|b| b.is_ascii_digit())
}

/// Whether the text is a decimal number.
fn is_decimal(text: &[u8]) -> bool
    ensures { result ≡ is_decimal text.now }
{
    !text.is_empty() && all_digits(text)
}

/// Whether the text is the hex of a decimal uid.
fn is_uid(alloc: Global, text: &[u8]) -> Result<bool, NoMemory>
    ensures { IfOk result (λ yes. yes ≡ is_uid text.now) }
{
    match hex::decode(alloc, text) {
        Ok(digits) => Ok(is_decimal(&digits)),
        Err(FromHexError::OutOfMemory) => Err(NoMemory),
        Err(_) => Ok(false),
    }
}

/// Whether the line is just this.
pub(crate) fn is(line: &[u8], text: &[u8]) -> bool
    ensures { result ≡ bytes_eq line.now text.now }
{
    line == text
}

/// Whether the line begins with the word, which ends at the line's end or at a blank.
#[tactic(auto, unfolding(crate::specs::Requests::has_word))]
fn has_word(line: &[u8], word: &[u8]) -> bool
    ensures { result ≡ has_word word.now line.now }
{
    line.starts_with(word) && (line.len() == word.len() || line[word.len()] == b' ')
}

/// Whether the line begins with these bytes, and the hex of a decimal uid follows.
#[tactic(auto, unfolding(crate::specs::Requests::has_uid))]
fn has_uid(alloc: Global, line: &[u8], front: &[u8]) -> Result<bool, NoMemory>
    ensures { IfOk result (λ yes. yes ≡ has_uid front.now line.now) }
{
    if !line.starts_with(front) {
        return Ok(false);
    }
    is_uid(alloc, &line[front.len()..])
}

/// What a line with the word `AUTH` says.
#[tactic(auto, unfolding(crate::specs::Requests::auth_request))]
fn auth_request(alloc: Global, line: &[u8]) -> Result<Request, NoMemory>
    ensures { IfOk result (λ r. r ≡ auth_request line.now) }
{
    if is(line, b"AUTH EXTERNAL") {
        return Ok(Request::Ask);
    }
    if has_uid(alloc, line, b"AUTH EXTERNAL ")? {
        return Ok(Request::Login);
    }
    Ok(Request::OtherAuth)
}

/// What a line with the word `DATA` says.
#[tactic(auto, unfolding(crate::specs::Requests::data_request))]
fn data_request(alloc: Global, line: &[u8]) -> Result<Request, NoMemory>
    ensures { IfOk result (λ r. r ≡ data_request line.now) }
{
    if is(line, b"DATA") || has_uid(alloc, line, b"DATA ")? {
        return Ok(Request::Uid);
    }
    Ok(Request::OtherData)
}

/// What a client's line says.
#[tactic(auto, unfolding(crate::specs::Requests::request_of))]
pub(crate) fn read_request(alloc: Global, line: &[u8]) -> Result<Request, NoMemory>
    ensures { IfOk result (λ r. r ≡ request_of line.now) }
{
    if is(line, b"BEGIN") {
        Ok(Request::Begin)
    } else if is(line, b"CANCEL") {
        Ok(Request::Cancel)
    } else if has_word(line, b"ERROR") {
        Ok(Request::Error)
    } else if has_word(line, b"AUTH") {
        auth_request(alloc, line)
    } else if has_word(line, b"DATA") {
        data_request(alloc, line)
    } else {
        Ok(Request::Other)
    }
}

/// Whether the text is 32 hex digits.
fn is_number(text: &[u8]) -> bool
    ensures { result ≡ is_number text.now }
{
    <[u8; 16]>::from_hex(text).is_ok()
}

/// Whether a server's line is `OK` and a number of 32 hex digits.
#[tactic(auto, unfolding(crate::specs::Requests::is_grant))]
pub(crate) fn is_grant(line: &[u8]) -> bool
    ensures { result ≡ is_grant line.now }
{
    line.starts_with(b"OK ") && is_number(&line[3..])
}
