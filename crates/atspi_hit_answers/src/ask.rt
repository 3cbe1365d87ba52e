//! What is asked of a node, and the members of Component by which it is asked.

ghost use Rattle.std.specs.Prelude.{◌≡◌};
ghost use Rattle.atspi_hit_answers.specs.Component.{Asks, AsksBy, member_named};
ghost use Rattle.atspi_types.specs.DataView.{all_data};

use crate::arguments::{is_screen, point_of};
use atspi_protocol::ends::CallError;
use atspi_types::Values;

/// A member of Component that is answered (AT-SPI2's interface file Component).
#[derive(Clone, Copy, Debug, PartialEq, Eq)]
pub enum Member {
    Contains,
    GetAccessibleAtPoint,
    GetExtents,
}

/// What is asked of a node. Points are those of the screen.
#[derive(Clone, Copy, Debug, PartialEq, Eq)]
pub enum Ask {
    /// Whether the point is in the node's rectangle, be it showing or not.
    Contains { x: i32, y: i32 },
    /// Which node is at the point, of those at and below the node.
    AccessibleAtPoint { x: i32, y: i32 },
    /// Where the node stands.
    Extents,
}

/// The member of a name.
fn member_named(name: &str) -> Option<Member>
    ensures { result ≡ member_named name.now }
{
    if name == "Contains" {
        return Some(Member::Contains);
    }
    if name == "GetAccessibleAtPoint" {
        return Some(Member::GetAccessibleAtPoint);
    }
    if name == "GetExtents" {
        return Some(Member::GetExtents);
    }
    None
}

/// What a member asks with these arguments.
fn asked_by(member: Member, body: &Values) -> Result<Ask, CallError>
    ensures { AsksBy member (all_data body.now) result }
{
    match member {
        Member::Contains => match point_of(body) {
            Some((x, y)) => Ok(Ask::Contains { x, y }),
            None => Err(CallError::InvalidArgs),
        },
        Member::GetAccessibleAtPoint => match point_of(body) {
            Some((x, y)) => Ok(Ask::AccessibleAtPoint { x, y }),
            None => Err(CallError::InvalidArgs),
        },
        Member::GetExtents => {
            if is_screen(body) {
                return Ok(Ask::Extents);
            }
            Err(CallError::InvalidArgs)
        }
    }
}

/// What a call of Component asks, by the name of its member and its arguments.
pub(crate) fn asked(member: &str, body: &Values) -> Result<Ask, CallError>
    ensures { Asks member.now (all_data body.now) result }
{
    match member_named(member) {
        Some(member) => asked_by(member, body),
        None => Err(CallError::UnknownMethod),
    }
}
