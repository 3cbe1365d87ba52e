//! References and items that lie in a body.

ghost use Rattle.std.specs.Prelude.{◌^◌, ◌<◌, length, IsTrue};
ghost use Rattle.atspi_base.specs.Text.{HasNoZero};
ghost use Rattle.atspi_base.specs.valid_names.Names.{is_path};

use atspi_marshal_in_place::Elements;

/// A reference to an object, where it lies.
#[derive(Clone, Copy)]
pub struct ReferenceRef<'a> {
    pub bus: &'a str,
    pub path: &'a str,
    ghost no_zero: { HasNoZero bus.now },
    ghost counted: { length bus.now < 2 ^ 32 },
    ghost rule: { IsTrue (is_path path.now) },
}

/// The front of an item: its object, its application and its parent, its index and the count of its children.
#[derive(Clone, Copy)]
pub(crate) struct ItemFront<'a> {
    pub object: ReferenceRef<'a>,
    pub application: ReferenceRef<'a>,
    pub parent: ReferenceRef<'a>,
    pub index: i32,
    pub children: i32,
}

/// An item, where it lies.
#[derive(Clone, Copy)]
pub(crate) struct ItemRef<'a> {
    pub front: ItemFront<'a>,
    pub interfaces: Elements<'a>,
    pub name: &'a str,
    pub role: u32,
    pub description: &'a str,
    pub states: Elements<'a>,
    ghost named: { HasNoZero name.now × (length name.now < 2 ^ 32) },
    ghost described: { HasNoZero description.now × (length description.now < 2 ^ 32) },
}
