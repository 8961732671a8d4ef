//! The messages of xdg_positioner: rules by which a popup is placed beside its parent.

ghost use Rattle.wl_proto.specs.Spelling.{Gives, decoded};
ghost use Rattle.wl_proto.specs.Messages.{xdg_positioner_request};
ghost use Rattle.wl_proto.specs.declared.interface.Interface.TheVariants.{XdgPositioner};

use crate::ProtoError;
use crate::body::{four_ints, nothing, two_ints, word};

/// A request of xdg_positioner.
#[derive(Clone, Copy)]
pub enum XdgPositionerRequest {
    Destroy,
    SetSize {
        width: i32,
        height: i32,
    },
    SetAnchorRect {
        x: i32,
        y: i32,
        width: i32,
        height: i32,
    },
    SetAnchor {
        anchor: u32,
    },
    SetGravity {
        gravity: u32,
    },
    SetConstraintAdjustment {
        constraint_adjustment: u32,
    },
    SetOffset {
        x: i32,
        y: i32,
    },
    SetReactive,
    SetParentSize {
        parent_width: i32,
        parent_height: i32,
    },
    SetParentConfigure {
        serial: u32,
    },
}

pub(crate) fn decode(
    version: u32,
    opcode: u16,
    body: &[u8],
) -> Result<XdgPositionerRequest, ProtoError>
    ensures { Gives xdg_positioner_request result (decoded XdgPositioner version opcode body.now) }
{
    match opcode {
        0 => {
            nothing(body)?;
            Ok(XdgPositionerRequest::Destroy)
        }
        1 => {
            let (width, height) = two_ints(body)?;
            Ok(XdgPositionerRequest::SetSize { width, height })
        }
        2 => {
            let (x, y, width, height) = four_ints(body)?;
            Ok(XdgPositionerRequest::SetAnchorRect {
                x,
                y,
                width,
                height,
            })
        }
        3 => {
            let anchor = word(body)?;
            Ok(XdgPositionerRequest::SetAnchor { anchor })
        }
        4 => {
            let gravity = word(body)?;
            Ok(XdgPositionerRequest::SetGravity { gravity })
        }
        5 => {
            let constraint_adjustment = word(body)?;
            Ok(XdgPositionerRequest::SetConstraintAdjustment {
                constraint_adjustment,
            })
        }
        6 => {
            let (x, y) = two_ints(body)?;
            Ok(XdgPositionerRequest::SetOffset { x, y })
        }
        7 if version >= 3 => {
            nothing(body)?;
            Ok(XdgPositionerRequest::SetReactive)
        }
        8 if version >= 3 => {
            let (parent_width, parent_height) = two_ints(body)?;
            Ok(XdgPositionerRequest::SetParentSize {
                parent_width,
                parent_height,
            })
        }
        9 if version >= 3 => {
            let serial = word(body)?;
            Ok(XdgPositionerRequest::SetParentConfigure { serial })
        }
        _ => Err(ProtoError::NoMethod),
    }
}
