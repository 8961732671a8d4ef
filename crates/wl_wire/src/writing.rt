//! Messages, written at the end of a buffer.

ghost use Rattle.std.specs.Prelude.{◌≡◌, ◌+◌, ◌^◌, ◌<◌, ◌≤◌, ◌↔◌, [], ◌∷◌, ◌++◌, length, take, IfSome, IfNone, OnOk, OnErr, IsErrOf};
ghost use Rattle.wl_wire.specs.Wire.{padding as spec_padding, message_bytes, args_bytes, arg_bytes, counted_bytes, fields_of, IsPrefix, SpellsMessage};

use crate::{Arg, PutError};
use std::alloc::{AllocError, Allocator};

/// Writes a message at the end.
///
/// # Errors
///
/// `TooLong` if it would have more than 65,532 bytes, `Memory` if there is no room for it. Either
/// leaves the bytes as they were.
pub fn put<A: Allocator>(
    out: &mut Vec<u8, A>,
    object: u32,
    opcode: u16,
    args: &[Arg],
) -> Result<(), PutError>
    ensures ok { OnOk result (out.new.items ≡ out.old.items ++ message_bytes object opcode (fields_of args.now)) }

    // What is appended is a spelling of the message.
    ensures spelled { OnOk result (SpellsMessage object opcode (fields_of args.now) (message_bytes object opcode (fields_of args.now))) }
    ensures too_long { IsErrOf result PutError.TooLong ↔ (65532 < 8 + length (args_bytes args.now)) }
    ensures err { OnErr result (out.new.items ≡ out.old.items) }
{
    let Some(size) = message_size(args) else {
        return Err(PutError::TooLong);
    };
    let len = out.len();
    let written = put_message(out, object, opcode, size, args);
    if written.is_err() {
        out.truncate(len);
        return Err(PutError::Memory);
    }
    Ok(())
}

fn put_message<A: Allocator>(
    out: &mut Vec<u8, A>,
    object: u32,
    opcode: u16,
    size: u16,
    args: &[Arg],
) -> Result<(), AllocError>
    requires { size ≡ 8 + length (args_bytes args.now) }
    ensures ok { OnOk result (out.new.items ≡ out.old.items ++ message_bytes object opcode (fields_of args.now)) }
    ensures err { OnErr result (IsPrefix out.old.items out.new.items) }
{
    out.extend_from_slice(&object.to_le_bytes())?;
    let word = opcode as u32 + 65536 * size as u32;
    out.extend_from_slice(&word.to_le_bytes())?;
    put_args(out, args)
}

fn put_args<A: Allocator>(out: &mut Vec<u8, A>, args: &[Arg]) -> Result<(), AllocError>
    requires { length (args_bytes args.now) < 2 ^ 32 }
    ensures ok { OnOk result (out.new.items ≡ out.old.items ++ args_bytes args.now) }
    ensures err { OnErr result (IsPrefix out.old.items out.new.items) }
{
    for arg in args {
        put_arg(out, arg)?;
    }
    Ok(())
}

fn put_arg<A: Allocator>(out: &mut Vec<u8, A>, arg: &Arg) -> Result<(), AllocError>
    requires { length (arg_bytes arg.now) < 2 ^ 32 }
    ensures ok { OnOk result (out.new.items ≡ out.old.items ++ arg_bytes arg.now) }
    ensures err { OnErr result (IsPrefix out.old.items out.new.items) }
{
    match arg {
        Arg::Uint(n) | Arg::Object(n) | Arg::NewId(n) => out.extend_from_slice(&n.to_le_bytes()),
        Arg::Int(n) => out.extend_from_slice(&n.cast_unsigned().to_le_bytes()),
        Arg::Fixed(f) => out.extend_from_slice(&f.0.cast_unsigned().to_le_bytes()),
        Arg::Str(text) => put_str(out, text),
        Arg::Array(block) => put_array(out, block),
    }
}

fn put_str<A: Allocator>(out: &mut Vec<u8, A>, text: &[u8]) -> Result<(), AllocError>
    requires { length (counted_bytes (text.now ++ 0 ∷ [])) < 2 ^ 32 }
    ensures ok { OnOk result (out.new.items ≡ out.old.items ++ counted_bytes (text.now ++ 0 ∷ [])) }
    ensures err { OnErr result (IsPrefix out.old.items out.new.items) }
{
    let count = text.len() + 1;
    out.extend_from_slice(&(count as u32).to_le_bytes())?;
    out.extend_from_slice(text)?;
    out.push(0)?;
    put_padding(out, count)
}

fn put_array<A: Allocator>(out: &mut Vec<u8, A>, block: &[u8]) -> Result<(), AllocError>
    requires { length (counted_bytes block.now) < 2 ^ 32 }
    ensures ok { OnOk result (out.new.items ≡ out.old.items ++ counted_bytes block.now) }
    ensures err { OnErr result (IsPrefix out.old.items out.new.items) }
{
    let count = block.len();
    out.extend_from_slice(&(count as u32).to_le_bytes())?;
    out.extend_from_slice(block)?;
    put_padding(out, count)
}

// Fills up the last word after `count` bytes.
fn put_padding<A: Allocator>(out: &mut Vec<u8, A>, count: usize) -> Result<(), AllocError>
    ensures ok { OnOk result (out.new.items ≡ out.old.items ++ take (spec_padding count) (0 ∷ 0 ∷ 0 ∷ [])) }
    ensures err { OnErr result (out.new.items ≡ out.old.items) }
{
    out.extend_from_slice(&[0, 0, 0][..padding(count)])
}

// How many bytes fill up the last word after `count` bytes.
fn padding(count: usize) -> usize
    ensures { result ≡ spec_padding count }
{
    (4 - count % 4) % 4
}

// How many bytes an argument takes. `None` only if they are more than a message can have.
fn arg_len(arg: &Arg) -> Option<usize>
    ensures some { IfSome result (λ n. (n ≡ length (arg_bytes arg.now)) × (n ≤ 65544)) }
    ensures none { IfNone result (65532 < length (arg_bytes arg.now)) }
{
    match arg {
        Arg::Str(text) => counted_len(text.len().checked_add(1)?),
        Arg::Array(block) => counted_len(block.len()),
        _ => Some(4),
    }
}

fn counted_len(count: usize) -> Option<usize>
    ensures some { IfSome result (λ n. (n ≡ 4 + count + spec_padding count) × (n ≤ 65544)) }
    ensures none { IfNone result (65532 < count) }
{
    if count > 65532 {
        return None;
    }
    Some(4 + count + padding(count))
}

/// The size of a message in bytes, the header included. `None` if it is above 65,532.
pub fn message_size(args: &[Arg]) -> Option<u16>
    ensures some { IfSome result (λ n. (n ≡ 8 + length (args_bytes args.now)) × (n ≤ 65532)) }
    ensures none { IfNone result (65532 < 8 + length (args_bytes args.now)) }
{
    let mut size = 8;
    for arg in args {
        size += arg_len(arg)?;
        if size > 65532 {
            return None;
        }
    }
    Some(size as u16)
}
