//! Appending to a list of values, and making one of numbers without copying them.

ghost use Rattle.std.specs.Prelude.{◌≡◌, [], ◌∷◌, ◌++◌, IfOk, OnOk, OnErr, MatchBool, map};
ghost use Rattle.std.specs.Int.{w16, w32, w64, cast_unsigned};
ghost use Rattle.atspi_types.specs.Kinds.{byte, i16 as short, u16 as unsigned_short, i32 as word, u32 as unsigned_word};
ghost use Rattle.atspi_types.specs.Kinds.{i64 as long, u64 as unsigned_long, double};
ghost use Rattle.atspi_types.specs.Data.{number_data, boolean_data};
ghost use Rattle.atspi_types.specs.DataView.{data_of, all_data};

use super::plains::Plains;
use super::{Kept, Value, Values};
use atspi_base::NoMemory;
use std::alloc::Global;

impl Values {
    /// Appends a value. After want of memory the list is as before. A number or a boolean behind others of its type
    /// takes its own size; one behind values of other types spreads the list out, once.
    pub fn push(&mut self, value: Value) -> Result<(), NoMemory>
        ensures ok { OnOk result (all_data self.new ≡ all_data self.old ++ data_of value ∷ []) }
        ensures err { OnErr result (all_data self.new ≡ all_data self.old) }
    {
        let placed = self.put(&value);
        if let Ok(false) = placed {
            return self.push_any(value);
        }
        drop(value);
        placed.map(|_| ())
    }

    /// Puts a number or a boolean behind others of its type, or begins a list with it, and answers whether that could
    /// be done.
    fn put(&mut self, value: &Value) -> Result<bool, NoMemory>
        ensures done { IfOk result (λ done. MatchBool done
            (all_data self.new ≡ all_data self.old ++ data_of value.now ∷ []) (all_data self.new ≡ all_data self.old)) }
        ensures err { OnErr result (all_data self.new ≡ all_data self.old) }
    {
        if self.len() == 0 {
            return self.begin(value);
        }
        match &mut self.kept {
            Kept::Plain(plains) => plains.push(value),
            Kept::Values(_) => Ok(false),
        }
    }

    /// Begins a list with a number or a boolean, and answers whether it is one.
    fn begin(&mut self, value: &Value) -> Result<bool, NoMemory>
        requires { all_data self.old ≡ [] }
        ensures done { IfOk result (λ done. MatchBool done
            (all_data self.new ≡ data_of value.now ∷ []) (all_data self.new ≡ all_data self.old)) }
        ensures err { OnErr result (all_data self.new ≡ all_data self.old) }
    {
        let Some(plains) = Plains::first(self.kept.allocator(), value)? else {
            return Ok(false);
        };
        self.kept = Kept::Plain(plains);
        Ok(true)
    }

    fn push_any(&mut self, value: Value) -> Result<(), NoMemory>
        ensures ok { OnOk result (all_data self.new ≡ all_data self.old ++ data_of value ∷ []) }
        ensures err { OnErr result (all_data self.new ≡ all_data self.old) }
    {
        if let Kept::Values(values) = &mut self.kept {
            values.push(value)?;
            return Ok(());
        }
        let values = self.spread()?;
        self.replace(values, value)
    }

    /// The numbers or booleans as values. It is not asked of a list that is kept as values.
    fn spread(&self) -> Result<Vec<Value>, NoMemory>
        ensures { IfOk result (λ values. map data_of values.items ≡ all_data self.now) }
    {
        match &self.kept {
            Kept::Plain(plains) => plains.spread(plains.allocator()),
            Kept::Values(_) => Err(NoMemory),
        }
    }

    /// These values and one behind them in place of what there is.
    fn replace(&mut self, values: Vec<Value>, value: Value) -> Result<(), NoMemory>
        ensures ok { OnOk result (all_data self.new ≡ map data_of values.items ++ data_of value ∷ []) }
        ensures err { OnErr result (all_data self.new ≡ all_data self.old) }
    {
        let mut values = values;
        values.push(value)?;
        self.kept = Kept::Values(values);
        Ok(())
    }

    /// Bytes as values, not copied.
    pub fn from_bytes(items: Vec<u8>) -> Values
        ensures { all_data result ≡ map (number_data byte) items.items }
    {
        Values {
            kept: Kept::Plain(Plains::Bytes(items)),
        }
    }

    /// Booleans as values, not copied.
    pub fn from_bools(items: Vec<bool>) -> Values
        ensures { all_data result ≡ map boolean_data items.items }
    {
        Values {
            kept: Kept::Plain(Plains::Bools(items)),
        }
    }

    /// Numbers as values, not copied.
    pub fn from_i16s(items: Vec<i16>) -> Values
        ensures { all_data result ≡ map (λ z. number_data short (cast_unsigned w16 z)) items.items }
    {
        Values {
            kept: Kept::Plain(Plains::I16s(items)),
        }
    }

    /// Numbers as values, not copied.
    pub fn from_u16s(items: Vec<u16>) -> Values
        ensures { all_data result ≡ map (number_data unsigned_short) items.items }
    {
        Values {
            kept: Kept::Plain(Plains::U16s(items)),
        }
    }

    /// Numbers as values, not copied.
    pub fn from_i32s(items: Vec<i32>) -> Values
        ensures { all_data result ≡ map (λ z. number_data word (cast_unsigned w32 z)) items.items }
    {
        Values {
            kept: Kept::Plain(Plains::I32s(items)),
        }
    }

    /// Numbers as values, not copied.
    pub fn from_u32s(items: Vec<u32>) -> Values
        ensures { all_data result ≡ map (number_data unsigned_word) items.items }
    {
        Values {
            kept: Kept::Plain(Plains::U32s(items)),
        }
    }

    /// Numbers as values, not copied.
    pub fn from_i64s(items: Vec<i64>) -> Values
        ensures { all_data result ≡ map (λ z. number_data long (cast_unsigned w64 z)) items.items }
    {
        Values {
            kept: Kept::Plain(Plains::I64s(items)),
        }
    }

    /// Numbers as values, not copied.
    pub fn from_u64s(items: Vec<u64>) -> Values
        ensures { all_data result ≡ map (number_data unsigned_long) items.items }
    {
        Values {
            kept: Kept::Plain(Plains::U64s(items)),
        }
    }

    /// Doubles by their bits as values, not copied.
    pub fn from_doubles(items: Vec<u64>) -> Values
        ensures { all_data result ≡ map (number_data double) items.items }
    {
        Values {
            kept: Kept::Plain(Plains::Doubles(items)),
        }
    }

    /// The values of a `Vec`, not copied.
    pub fn from_vec(items: Vec<Value>) -> Values
        ensures { all_data result ≡ map data_of items.items }
    {
        Values {
            kept: Kept::Values(items),
        }
    }
}

impl Kept {
    /// The allocator of the list.
    fn allocator(&self) -> Global {
        match self {
            Kept::Plain(plains) => plains.allocator(),
            Kept::Values(items) => *items.allocator(),
        }
    }
}
