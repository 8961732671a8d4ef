//! The bodies of requests, read whole by the kinds of their arguments.

ghost use Rattle.std.specs.Prelude.{[], ◌∷◌};
ghost use Rattle.wl_wire.specs.Wire.{AWord, ANumber, AText, Word, Number, Text};
ghost use Rattle.wl_proto.specs.Spelling.{Gives, arguments_in};

use crate::ProtoError;
use wl_wire::Args;

pub(crate) fn nothing(body: &[u8]) -> Result<(), ProtoError>
    ensures { Gives (λ _. []) result (arguments_in ([]) body.now) }
{
    let args = Args::new(body);
    args.finish()?;
    Ok(())
}

pub(crate) fn word(body: &[u8]) -> Result<u32, ProtoError>
    ensures { Gives (λ v. Word v ∷ []) result (arguments_in (AWord ∷ []) body.now) }
{
    let mut args = Args::new(body);
    let first = args.uint()?;
    args.finish()?;
    Ok(first)
}

pub(crate) fn two_words(body: &[u8]) -> Result<(u32, u32), ProtoError>
    ensures { Gives (λ v. Word v.0 ∷ Word v.1 ∷ []) result (arguments_in (AWord ∷ AWord ∷ []) body.now) }
{
    let mut args = Args::new(body);
    let first = args.uint()?;
    let second = args.uint()?;
    args.finish()?;
    Ok((first, second))
}

pub(crate) fn three_words(body: &[u8]) -> Result<(u32, u32, u32), ProtoError>
    ensures { Gives (λ v. Word v.0 ∷ Word v.1 ∷ Word v.2 ∷ []) result (arguments_in (AWord ∷ AWord ∷ AWord ∷ []) body.now) }
{
    let mut args = Args::new(body);
    let first = args.uint()?;
    let second = args.uint()?;
    let third = args.uint()?;
    args.finish()?;
    Ok((first, second, third))
}

pub(crate) fn int(body: &[u8]) -> Result<i32, ProtoError>
    ensures { Gives (λ v. Number v ∷ []) result (arguments_in (ANumber ∷ []) body.now) }
{
    let mut args = Args::new(body);
    let first = args.int()?;
    args.finish()?;
    Ok(first)
}

pub(crate) fn two_ints(body: &[u8]) -> Result<(i32, i32), ProtoError>
    ensures { Gives (λ v. Number v.0 ∷ Number v.1 ∷ []) result (arguments_in (ANumber ∷ ANumber ∷ []) body.now) }
{
    let mut args = Args::new(body);
    let first = args.int()?;
    let second = args.int()?;
    args.finish()?;
    Ok((first, second))
}

pub(crate) fn four_ints(body: &[u8]) -> Result<(i32, i32, i32, i32), ProtoError>
    ensures { Gives (λ v. Number v.0 ∷ Number v.1 ∷ Number v.2 ∷ Number v.3 ∷ []) result (arguments_in (ANumber ∷ ANumber ∷ ANumber ∷ ANumber ∷ []) body.now) }
{
    let mut args = Args::new(body);
    let first = args.int()?;
    let second = args.int()?;
    let third = args.int()?;
    let fourth = args.int()?;
    args.finish()?;
    Ok((first, second, third, fourth))
}

pub(crate) fn word_int(body: &[u8]) -> Result<(u32, i32), ProtoError>
    ensures { Gives (λ v. Word v.0 ∷ Number v.1 ∷ []) result (arguments_in (AWord ∷ ANumber ∷ []) body.now) }
{
    let mut args = Args::new(body);
    let first = args.uint()?;
    let second = args.int()?;
    args.finish()?;
    Ok((first, second))
}

pub(crate) fn word_two_ints(body: &[u8]) -> Result<(u32, i32, i32), ProtoError>
    ensures { Gives (λ v. Word v.0 ∷ Number v.1 ∷ Number v.2 ∷ []) result (arguments_in (AWord ∷ ANumber ∷ ANumber ∷ []) body.now) }
{
    let mut args = Args::new(body);
    let first = args.uint()?;
    let second = args.int()?;
    let third = args.int()?;
    args.finish()?;
    Ok((first, second, third))
}

pub(crate) fn two_words_two_ints(body: &[u8]) -> Result<(u32, u32, i32, i32), ProtoError>
    ensures { Gives (λ v. Word v.0 ∷ Word v.1 ∷ Number v.2 ∷ Number v.3 ∷ []) result (arguments_in (AWord ∷ AWord ∷ ANumber ∷ ANumber ∷ []) body.now) }
{
    let mut args = Args::new(body);
    let first = args.uint()?;
    let second = args.uint()?;
    let third = args.int()?;
    let fourth = args.int()?;
    args.finish()?;
    Ok((first, second, third, fourth))
}

pub(crate) fn word_four_ints_word(body: &[u8]) -> Result<(u32, i32, i32, i32, i32, u32), ProtoError>
    ensures { Gives (λ v. Word v.0 ∷ Number v.1 ∷ Number v.2 ∷ Number v.3 ∷ Number v.4 ∷ Word v.5 ∷ []) result (arguments_in (AWord ∷ ANumber ∷ ANumber ∷ ANumber ∷ ANumber ∷ AWord ∷ []) body.now) }
{
    let mut args = Args::new(body);
    let first = args.uint()?;
    let second = args.int()?;
    let third = args.int()?;
    let fourth = args.int()?;
    let fifth = args.int()?;
    let sixth = args.uint()?;
    args.finish()?;
    Ok((first, second, third, fourth, fifth, sixth))
}

pub(crate) fn text<'a>(body: &'a [u8]) -> Result<&'a [u8], ProtoError>
    ensures { Gives (λ v. Text v.now ∷ []) result (arguments_in (AText ∷ []) body.now) }
{
    let mut args = Args::new(body);
    let first = args.string()?;
    args.finish()?;
    Ok(first)
}

pub(crate) fn word_text_two_words<'a>(
    body: &'a [u8],
) -> Result<(u32, &'a [u8], u32, u32), ProtoError>
    ensures { Gives (λ v. Word v.0 ∷ Text v.1.now ∷ Word v.2 ∷ Word v.3 ∷ []) result (arguments_in (AWord ∷ AText ∷ AWord ∷ AWord ∷ []) body.now) }
{
    let mut args = Args::new(body);
    let first = args.uint()?;
    let second = args.string()?;
    let third = args.uint()?;
    let fourth = args.uint()?;
    args.finish()?;
    Ok((first, second, third, fourth))
}
