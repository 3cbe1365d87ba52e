//! How contracts see what lies in boxes: what a struct with boxes is seen as is told by a trait, since such a struct
//! has no model.

ghost use Rattle.atspi_app_exported.specs.Boxed.{IsExportedIn, faces_in, kinds_in, numbers_in, parts_in};
ghost use Rattle.atspi_app_exported.specs.Parts.{Kinds, Numbers, Parts};
ghost use Rattle.atspi_protocol.specs.whole.Whole.{Faces};

use crate::exported::Exported;
use crate::kit::Kit;
use atspi_faces::face::Face;

/// Three boxes: their kinds, and what they keep.
pub trait Boxes {
    ghost kinds: { Self → Kinds };

    ghost faces: { Self → Faces };
}

impl Boxes for Kit {
    ghost kinds = { kinds_in (λ box. (Face-box box).of_kind box.value) };

    ghost faces = { faces_in (λ box. (Face-box box).nodes box.value) };
}

/// A whole tree over three boxes: their kinds, which boxes they are, the parts of the tree, and what holds of them at
/// any time.
pub trait Exports {
    ghost kinds: { Self → Kinds };

    ghost numbers: { Self → Numbers };

    ghost parts: { Self → Parts };

    ghost is_exported: { Self → Type 0 };
}

impl Exports for Exported {
    ghost kinds = { λ e. kinds_in (λ box. (Face-box box).of_kind box.value) e.kit };

    ghost numbers = { λ e. numbers_in e.kit };

    ghost parts = { parts_in (λ box. (Face-box box).nodes box.value) };

    ghost is_exported = { IsExportedIn (λ box. (Face-box box).of_kind box.value)
        (λ box. (Face-box box).nodes box.value) };
}
