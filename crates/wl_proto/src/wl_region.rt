//! The messages of wl_region: an area of a surface, made from rectangles.

ghost use Rattle.wl_proto.specs.Spelling.{Gives, decoded};
ghost use Rattle.wl_proto.specs.Messages.{wl_region_request};
ghost use Rattle.wl_proto.specs.declared.interface.Interface.TheVariants.{WlRegion};

use crate::ProtoError;
use crate::body::{four_ints, nothing};

/// A request of wl_region.
#[derive(Clone, Copy)]
pub enum WlRegionRequest {
    Destroy,
    Add {
        x: i32,
        y: i32,
        width: i32,
        height: i32,
    },
    Subtract {
        x: i32,
        y: i32,
        width: i32,
        height: i32,
    },
}

pub(crate) fn decode(_version: u32, opcode: u16, body: &[u8]) -> Result<WlRegionRequest, ProtoError>
    ensures { Gives wl_region_request result (decoded WlRegion _version opcode body.now) }
{
    match opcode {
        0 => {
            nothing(body)?;
            Ok(WlRegionRequest::Destroy)
        }
        1 => {
            let (x, y, width, height) = four_ints(body)?;
            Ok(WlRegionRequest::Add {
                x,
                y,
                width,
                height,
            })
        }
        2 => {
            let (x, y, width, height) = four_ints(body)?;
            Ok(WlRegionRequest::Subtract {
                x,
                y,
                width,
                height,
            })
        }
        _ => Err(ProtoError::NoMethod),
    }
}
