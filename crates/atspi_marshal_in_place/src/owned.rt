//! Values that were passed, made into owned ones. Nothing is checked again but names and signatures, and only memory
//! can be wanting.

ghost use Rattle.std.specs.Prelude.{◌≡◌, ◌<◌, ◌^◌, IfOk, ◌++◌, IfSome, IsSome, IsTrue, chars, length, map};
ghost use Rattle.atspi_base.specs.Text.{HasNoZero};
ghost use Rattle.atspi_base.specs.valid_names.Names.{IsPath};
ghost use Rattle.atspi_types.specs.Kinds.{byte, number, kinds_of};
ghost use Rattle.atspi_types.specs.KindView.{kind_of};
ghost use Rattle.atspi_types.specs.Data.{text_data, path_data, number_data, signature_data, array_data, structure_data};
ghost use Rattle.atspi_types.specs.Data.{dictionary_data, variant_data, items_of};
ghost use Rattle.atspi_types.specs.DataView.{data_of, all_data, all_pairs};
ghost use Rattle.atspi_types.specs.SignatureView.{signature_kinds};
ghost use Rattle.atspi_marshal_in_place.specs.codes.TyRefs.{ref_kind, refs_kinds};
ghost use Rattle.atspi_marshal.specs.Reading.{structs_in, entries_in};
ghost use Rattle.atspi_marshal_in_place.specs.Known.{is_simple};
ghost use Rattle.atspi_marshal_in_place.specs.Items.{item_data, item_kind, elements_data, elements_kind, entries_data};
ghost use Rattle.atspi_marshal_in_place.specs.Items.{key_kind, value_kind, fields_data};

use crate::codes::{TyRef, TysRef};
use crate::cursor::{Elements, Entries, Entry, Fields, Item};
use atspi_base::valid_names::{NameFault, Path};
use atspi_base::{NoMemory, Text};
use atspi_types::{Pairs, ReadFault, Signature, Ty, Value, Values};
use std::alloc::Global;

/// The types, owned.
fn owned_types(alloc: Global, types: TysRef) -> Result<Signature, NoMemory>
    ensures { IfOk result (λ signature. signature_kinds signature ≡ kinds_of (refs_kinds types.entry)) }
{
    match Signature::parse(alloc, types.codes()) {
        Ok(signature) => Ok(signature),
        Err(ReadFault::NoMemory) => Err(NoMemory),
        Err(ReadFault::Bad(_)) => unreachable!(),
    }
}

/// The type, owned.
fn owned_type(alloc: Global, ty: TyRef) -> Result<Ty, NoMemory>
    ensures { IfOk result (λ owned. kind_of owned ≡ ref_kind ty.entry) }
{
    match Signature::parse(alloc, ty.codes()) {
        Ok(signature) => match signature.single() {
            Some(owned) => Ok(owned),
            None => unreachable!(),
        },
        Err(ReadFault::NoMemory) => Err(NoMemory),
        Err(ReadFault::Bad(_)) => unreachable!(),
    }
}

/// The text, owned.
fn owned_text(alloc: Global, text: &str) -> Result<Value, NoMemory>
    requires no_zero { HasNoZero text.now }
    requires counted { length text.now < 2 ^ 32 }
    ensures { IfOk result (λ value. data_of value ≡ text_data (chars text.now)) }
{
    match Text::of(alloc, text) {
        Ok(owned) => Ok(Value::Text(owned)),
        Err(refused) => Err(refused),
    }
}

/// The path, owned.
fn owned_path(alloc: Global, path: &str) -> Result<Value, NoMemory>
    requires { IsPath path.now }
    ensures { IfOk result (λ value. data_of value ≡ path_data path.now) }
{
    match Path::read(alloc, path.as_bytes()) {
        Ok(owned) => Ok(Value::Path(owned)),
        Err(NameFault::NoMemory) => Err(NoMemory),
        Err(NameFault::Form) => unreachable!(),
    }
}

/// The signature of the types, owned.
fn owned_signature(alloc: Global, types: TysRef) -> Result<Value, NoMemory>
    ensures { IfOk result (λ value. data_of value ≡ signature_data (kinds_of (refs_kinds types.entry))) }
{
    Ok(Value::Sig(owned_types(alloc, types)?))
}

/// The array of the bytes, owned.
fn owned_bytes(alloc: Global, bytes: &[u8]) -> Result<Value, NoMemory>
    ensures { IfOk result
        (λ value. data_of value ≡ array_data (number byte) (items_of (map (number_data byte) bytes.now))) }
{
    let values = Values::from_bytes(bytes.to_vec(alloc)?);
    Ok(Value::Array(Ty::Byte, values))
}

/// The array of elements that are owned already.
fn array_of(alloc: Global, element: TyRef, values: Values) -> Result<Value, NoMemory>
    ensures { IfOk result (λ value. data_of value ≡ array_data (ref_kind element.entry) (items_of (all_data values))) }
{
    match owned_type(alloc, element) {
        Ok(owned) => Ok(Value::Array(owned, values)),
        Err(refused) => {
            drop(values);
            Err(refused)
        }
    }
}

/// The types of a dictionary's keys and values, owned.
fn entry_types(alloc: Global, key: TyRef, value: TyRef) -> Result<(Ty, Ty), NoMemory>
    ensures key { IfOk result (λ types. kind_of types.0 ≡ ref_kind key.entry) }
    ensures value { IfOk result (λ types. kind_of types.1 ≡ ref_kind value.entry) }
{
    let first = owned_type(alloc, key)?;
    match owned_type(alloc, value) {
        Ok(second) => Ok((first, second)),
        Err(refused) => {
            drop(first);
            Err(refused)
        }
    }
}

/// The dictionary of entries that are owned already.
fn dictionary_of(alloc: Global, key: TyRef, value: TyRef, pairs: Pairs) -> Result<Value, NoMemory>
    ensures { IfOk result
        (λ made. data_of made
        ≡ dictionary_data (ref_kind key.entry) (ref_kind value.entry)
        (entries_in (items_of (structs_in (all_pairs pairs))))) }
{
    match entry_types(alloc, key, value) {
        Ok((key_type, value_type)) => Ok(Value::Dict(key_type, value_type, pairs)),
        Err(refused) => {
            drop(pairs);
            Err(refused)
        }
    }
}

/// The variant of a value that is owned already.
fn variant_of(alloc: Global, ty: TyRef, value: Value) -> Result<Value, NoMemory>
    ensures { IfOk result (λ made. data_of made ≡ variant_data (ref_kind ty.entry) (data_of value)) }
{
    let boxed = Box::new(alloc, value)?;
    match owned_type(alloc, ty) {
        Ok(owned) => Ok(Value::Variant(owned, boxed)),
        Err(refused) => {
            drop(boxed);
            Err(refused)
        }
    }
}

impl<'a> Item<'a> {
    /// The number or the boolean, exactly where it is one.
    fn simple(self) -> Option<Value>
        ensures value { IfSome result (λ value. data_of value ≡ item_data self.entry) }
        ensures found { IsTrue (is_simple (item_kind self.entry)) → IsSome result }
    {
        if let Some(n) = self.u8() {
            return Some(Value::Byte(n));
        }
        if let Some(b) = self.bool() {
            return Some(Value::Bool(b));
        }
        if let Some(n) = self.i16() {
            return Some(Value::I16(n));
        }
        if let Some(n) = self.u16() {
            return Some(Value::U16(n));
        }
        if let Some(n) = self.i32() {
            return Some(Value::I32(n));
        }
        if let Some(n) = self.u32() {
            return Some(Value::U32(n));
        }
        if let Some(n) = self.i64() {
            return Some(Value::I64(n));
        }
        if let Some(n) = self.u64() {
            return Some(Value::U64(n));
        }
        if let Some(bits) = self.double() {
            return Some(Value::Double(bits));
        }
        None
    }

    /// The value, owned. Memory alone can be wanting.
    #[cycle(build)]
    pub fn value(self, alloc: Global) -> Result<Value, NoMemory>
        ensures { IfOk result (λ value. data_of value ≡ item_data self.entry) }
    {
        if let Some(value) = self.simple() {
            return Ok(value);
        }
        if let Some(text) = self.text() {
            return owned_text(alloc, text);
        }
        if let Some(path) = self.path() {
            return owned_path(alloc, path);
        }
        if let Some(types) = self.signature() {
            return owned_signature(alloc, types);
        }
        if let Some(bytes) = self.bytes() {
            return owned_bytes(alloc, bytes);
        }
        if let Some(elements) = self.elements() {
            return elements.array(alloc);
        }
        if let Some(fields) = self.fields() {
            return fields.structure(alloc);
        }
        if let Some(entries) = self.entries() {
            return entries.dictionary(alloc);
        }
        match self.variant() {
            Some(inner) => inner.in_variant(alloc),
            None => unreachable!(),
        }
    }

    /// The variant that holds the value, owned.
    #[cycle(build)]
    fn in_variant(self, alloc: Global) -> Result<Value, NoMemory>
        ensures { IfOk result (λ value. data_of value ≡ variant_data (item_kind self.entry) (item_data self.entry)) }
    {
        let ty = self.ty();
        let value = self.value(alloc)?;
        variant_of(alloc, ty, value)
    }
}

impl<'a> Elements<'a> {
    /// The elements that are left, owned. Memory alone can be wanting.
    #[cycle(build)]
    pub fn values(self, alloc: Global) -> Result<Values, NoMemory>
        ensures { IfOk result (λ values. all_data values ≡ elements_data self.entry) }
    {
        let mut rest = self;
        let mut values = Values::new(alloc);
        match rest.put_all(alloc, &mut values) {
            Ok(()) => Ok(values),
            Err(refused) => {
                drop(values);
                Err(refused)
            }
        }
    }

    /// Appends the elements that are left, owned, so that no list is held over what can fail.
    #[cycle(build)]
    fn put_all(&mut self, alloc: Global, values: &mut Values) -> Result<(), NoMemory>
        ensures { IfOk result (λ _. all_data values.new ≡ all_data values.old ++ elements_data self.old) }
    {
        while let Some(item) = self.next() {
            values.push(item.value(alloc)?)?;
        }
        Ok(())
    }

    /// The array of the elements that are left, owned.
    #[cycle(build)]
    fn array(self, alloc: Global) -> Result<Value, NoMemory>
        ensures { IfOk result
            (λ value. data_of value ≡ array_data (elements_kind self.entry) (items_of (elements_data self.entry))) }
    {
        let element = self.ty();
        let values = self.values(alloc)?;
        array_of(alloc, element, values)
    }
}

impl<'a> Entry<'a> {
    /// The key and the value, owned.
    #[cycle(build)]
    fn pair(self, alloc: Global) -> Result<(Value, Value), NoMemory>
        ensures key { IfOk result (λ pair. data_of pair.0 ≡ item_data self.entry.key) }
        ensures value { IfOk result (λ pair. data_of pair.1 ≡ item_data self.entry.value) }
    {
        let key = self.key.value(alloc)?;
        match self.value.value(alloc) {
            Ok(value) => Ok((key, value)),
            Err(refused) => {
                drop(key);
                Err(refused)
            }
        }
    }
}

impl<'a> Entries<'a> {
    /// The entries that are left, owned. Memory alone can be wanting.
    #[cycle(build)]
    pub fn pairs(self, alloc: Global) -> Result<Pairs, NoMemory>
        ensures { IfOk result (λ pairs. structs_in (all_pairs pairs) ≡ entries_data self.entry) }
    {
        let mut rest = self;
        let mut pairs = Pairs::new(alloc);
        match rest.put_all(alloc, &mut pairs) {
            Ok(()) => Ok(pairs),
            Err(refused) => {
                drop(pairs);
                Err(refused)
            }
        }
    }

    /// Appends the entries that are left, owned, so that no list is held over what can fail.
    #[cycle(build)]
    fn put_all(&mut self, alloc: Global, pairs: &mut Pairs) -> Result<(), NoMemory>
        ensures { IfOk result
            (λ _. structs_in (all_pairs pairs.new) ≡ structs_in (all_pairs pairs.old) ++ entries_data self.old) }
    {
        while let Some(entry) = self.next() {
            let (key, value) = entry.pair(alloc)?;
            pairs.push(key, value)?;
        }
        Ok(())
    }

    /// The dictionary of the entries that are left, owned.
    #[cycle(build)]
    fn dictionary(self, alloc: Global) -> Result<Value, NoMemory>
        ensures { IfOk result
            (λ value. data_of value
            ≡ dictionary_data (key_kind self.entry) (value_kind self.entry)
            (entries_in (items_of (entries_data self.entry)))) }
    {
        let key = self.key_type();
        let value = self.value_type();
        let pairs = self.pairs(alloc)?;
        dictionary_of(alloc, key, value, pairs)
    }
}

impl<'a> Fields<'a> {
    /// The values that are left, owned. Memory alone can be wanting.
    #[cycle(build)]
    pub fn values(self, alloc: Global) -> Result<Values, NoMemory>
        ensures { IfOk result (λ values. all_data values ≡ fields_data self.entry) }
    {
        let mut rest = self;
        let mut values = Values::new(alloc);
        match rest.put_all(alloc, &mut values) {
            Ok(()) => Ok(values),
            Err(refused) => {
                drop(values);
                Err(refused)
            }
        }
    }

    /// Appends the values that are left, owned, so that no list is held over what can fail.
    #[cycle(build)]
    fn put_all(&mut self, alloc: Global, values: &mut Values) -> Result<(), NoMemory>
        ensures { IfOk result (λ _. all_data values.new ≡ all_data values.old ++ fields_data self.old) }
    {
        while let Some(item) = self.next() {
            values.push(item.value(alloc)?)?;
        }
        Ok(())
    }

    /// The struct of the values that are left, owned.
    #[cycle(build)]
    fn structure(self, alloc: Global) -> Result<Value, NoMemory>
        ensures { IfOk result (λ value. data_of value ≡ structure_data (items_of (fields_data self.entry))) }
    {
        Ok(Value::Struct(self.values(alloc)?))
    }
}
