//! The laws of owners: the contract of a function without a body, so that they are proved with the crate.

ghost use Rattle.std.specs.Prelude.{◌≡◌, ◌<◌, ◌^◌, ◌↔◌, ℕ, List, false, None, Some};
ghost use Rattle.std.specs.FinMap.{get};
ghost use Rattle.atspi_base.specs.valid_names.Names.{is_unique_name};
ghost use Rattle.atspi_names.specs.Queue.{owner_in};
ghost use Rattle.atspi_names.specs.Owners.{Owners, list_of, unique_name, nobody, after_hello, after_request};
ghost use Rattle.atspi_names.specs.Owners.{after_release, after_gone};
ghost use Rattle.atspi_bus_laws.specs.owners.Orderly.{IsOrderly};

/// At the beginning and after each call of `Names`, under the conditions of that call, the owners are orderly: a
/// connection stands at most once in a list, and each unique name is that of one connection.
pub fn owners_stay_orderly()
    ensures nobody { IsOrderly nobody }
    ensures hello { (owners : Owners) (conn : ℕ) → IsOrderly owners → get owners.unique conn ≡ None
        → owners.given < 4294967295 → IsOrderly (after_hello owners conn) }
    ensures request { (owners : Owners) (conn : ℕ) (name : List ℕ) (flags : ℕ) → IsOrderly owners
        → is_unique_name name ≡ false → IsOrderly (after_request owners conn name flags) }
    ensures release { (owners : Owners) (conn : ℕ) (name : List ℕ) → IsOrderly owners → is_unique_name name ≡ false
        → IsOrderly (after_release owners conn name) }
    ensures gone { (owners : Owners) (conn : ℕ) → IsOrderly owners → IsOrderly (after_gone owners conn) }
{}

/// Of orderly owners, the owner of `:1.n` is the connection with that unique name.
pub fn unique_names_are_owned()
    ensures { (owners : Owners) (conn n : ℕ) → IsOrderly owners → n < 2 ^ 32
        → ((owner_in (list_of owners.lists (unique_name n)) ≡ Some conn)
        ↔ (get owners.unique conn ≡ Some (unique_name n))) }
{}
