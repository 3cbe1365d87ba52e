//! Values as text.

ghost use Rattle.std.specs.Prelude.{◌≡◌, [], ◌∷◌, ◌++◌, OnOk, length, take};
ghost use Rattle.atspi_types.specs.KindView.{kind_of};
ghost use Rattle.atspi_types.specs.Data.{items_of, entries_of, dictionary_data, variant_data};
ghost use Rattle.atspi_types.specs.DataView.{data_of, all_data, all_pairs};
ghost use Rattle.atspi_types.specs.Borrowed.{ref_data};
ghost use Rattle.atspi_types.specs.SignatureView.{signature_kinds};
ghost use Rattle.atspi_types.specs.Signatures.{signature_bytes};
ghost use Rattle.atspi_base.specs.Quoted.{in_quotes};
ghost use Rattle.atspi_base.specs.Digits.{hex_digits};
ghost use Rattle.atspi_script.specs.Spaced.{gap, in_brackets, spaced};
ghost use Rattle.atspi_script.specs.ValueText.{boolean_text, entry_texts, in_braces, value_text, value_texts};

use atspi_base::{Bytes, NoMemory, put_decimal, put_hex, put_in_quotes, put_quoted, put_signed};
use atspi_types::{Pairs, Signature, Ty, Value, ValueRef, Values};

/// Appends the text of a value. After want of memory a front of it was appended.
#[cycle(put)]
fn put(value: ValueRef<'_>, out: &mut Bytes) -> Result<(), NoMemory>
    ensures ok { OnOk result (out.new ≡ out.old ++ value_text (ref_data value.entry)) }
    ensures front { take (length out.old) out.new ≡ out.old }
{
    match value {
        ValueRef::Byte(n) => put_decimal(n as u64, out),
        ValueRef::Bool(b) => put_bool(b, out),
        ValueRef::I16(n) => put_signed(n as i64, out),
        ValueRef::U16(n) => put_decimal(n as u64, out),
        ValueRef::I32(n) => put_signed(n as i64, out),
        ValueRef::U32(n) => put_decimal(n as u64, out),
        ValueRef::I64(n) => put_signed(n, out),
        ValueRef::U64(n) => put_decimal(n, out),
        ValueRef::Double(bits) => put_double(bits, out),
        ValueRef::Text(text) => put_quoted(text, out),
        ValueRef::Path(path) => put_in_quotes(path.as_str().as_bytes(), out),
        ValueRef::Sig(signature) => put_signature(signature, out),
        ValueRef::Array(_, values) => put_bracketed(b'[', values, b']', out),
        ValueRef::Struct(fields) => put_bracketed(b'(', fields, b')', out),
        ValueRef::Dict(_, _, pairs) => put_dictionary(pairs, out),
        ValueRef::Variant(ty, value) => put_variant(ty, value, out),
    }
}

/// Appends `true` or `false`.
fn put_bool(b: bool, out: &mut Bytes) -> Result<(), NoMemory>
    ensures ok { OnOk result (out.new ≡ out.old ++ boolean_text b) }
    ensures front { take (length out.old) out.new ≡ out.old }
{
    if b {
        out.extend(b"true")
    } else {
        out.extend(b"false")
    }
}

/// Appends the bits of a double in hex.
fn put_double(bits: u64, out: &mut Bytes) -> Result<(), NoMemory>
    ensures ok { OnOk result (out.new ≡ out.old ++ 48 ∷ 120 ∷ hex_digits 16 bits) }
    ensures front { take (length out.old) out.new ≡ out.old }
{
    out.extend(b"0x")?;
    put_hex(bits, out)
}

/// Appends a signature in quotes.
fn put_signature(signature: &Signature, out: &mut Bytes) -> Result<(), NoMemory>
    ensures ok { OnOk result (out.new ≡ out.old ++ in_quotes (signature_bytes (signature_kinds signature.now))) }
    ensures front { take (length out.old) out.new ≡ out.old }
{
    out.push(b'"')?;
    signature.write(out)?;
    out.push(b'"')?;
    Ok(())
}

/// Appends a space, unless nothing stands before.
fn put_gap(before: usize, out: &mut Bytes) -> Result<(), NoMemory>
    ensures ok { OnOk result (out.new ≡ out.old ++ gap before) }
    ensures front { take (length out.old) out.new ≡ out.old }
{
    if before == 0 {
        return Ok(());
    }
    out.push(b' ')
}

/// Appends the texts of values between brackets.
#[cycle(put)]
fn put_bracketed(opening: u8, values: &Values, closing: u8, out: &mut Bytes) -> Result<(), NoMemory>
    ensures ok { OnOk result
        (out.new ≡ out.old ++ in_brackets opening (value_texts (items_of (all_data values.now))) closing) }
    ensures front { take (length out.old) out.new ≡ out.old }
{
    out.push(opening)?;
    put_values(values, out)?;
    out.push(closing)
}

/// Appends the texts of values, with a space between any two. After want of memory a front of them was appended.
#[cycle(put)]
pub fn put_values(values: &Values, out: &mut Bytes) -> Result<(), NoMemory>
    ensures ok { OnOk result (out.new ≡ out.old ++ spaced (value_texts (items_of (all_data values.now)))) }
    ensures front { take (length out.old) out.new ≡ out.old }
{
    for i in 0..values.len() {
        put_gap(i, out)?;
        put(values.at(i), out)?;
    }
    Ok(())
}

/// Appends the text of a dictionary.
#[cycle(put)]
fn put_dictionary(pairs: &Pairs, out: &mut Bytes) -> Result<(), NoMemory>
    ensures ok { OnOk result (out.new ≡ out.old ++ in_brackets 91 (entry_texts (entries_of (all_pairs pairs.now))) 93) }
    ensures front { take (length out.old) out.new ≡ out.old }
{
    out.push(b'[')?;
    put_pairs(pairs, out)?;
    out.push(b']')
}

/// Appends the texts of entries, with a space between any two.
#[cycle(put)]
fn put_pairs(pairs: &Pairs, out: &mut Bytes) -> Result<(), NoMemory>
    ensures ok { OnOk result (out.new ≡ out.old ++ spaced (entry_texts (entries_of (all_pairs pairs.now)))) }
    ensures front { take (length out.old) out.new ≡ out.old }
{
    let items = pairs.as_slice();
    for i in 0..items.len() {
        put_gap(i, out)?;
        let pair = &items[i];
        put_entry(&pair.0, &pair.1, out)?;
    }
    Ok(())
}

/// Appends the text of an entry.
#[cycle(put)]
fn put_entry(key: &Value, value: &Value, out: &mut Bytes) -> Result<(), NoMemory>
    ensures ok { OnOk result
        (out.new ≡ out.old ++ in_braces (value_text (data_of key.now)) (value_text (data_of value.now))) }
    ensures front { take (length out.old) out.new ≡ out.old }
{
    out.push(b'{')?;
    put(key.borrowed(), out)?;
    out.push(b' ')?;
    put(value.borrowed(), out)?;
    out.push(b'}')
}

/// Appends the text of a variant.
#[cycle(put)]
fn put_variant(ty: &Ty, value: &Value, out: &mut Bytes) -> Result<(), NoMemory>
    ensures ok { OnOk result (out.new ≡ out.old ++ value_text (variant_data (kind_of ty.now) (data_of value.now))) }
    ensures front { take (length out.old) out.new ≡ out.old }
{
    out.push(b'<')?;
    ty.write(out)?;
    out.push(b' ')?;
    put(value.borrowed(), out)?;
    out.push(b'>')
}
