use std::alloc::{Allocator, Global};
use test_support::{FaultyWriter, Refusing};
use wl_blend::Rgb;
use wl_paint::{FrameError, Framebuffer, write_ppm};

const BLACK: Rgb = Rgb { r: 0, g: 0, b: 0 };

const DAWN: Rgb = Rgb { r: 1, g: 2, b: 3 };

fn is_bad_size(alloc: Global, width: u32, height: u32) -> bool {
    match Framebuffer::new(alloc, width, height, BLACK) {
        Ok(_) => false,
        Err(error) => matches!(error, FrameError::BadSize),
    }
}

#[test]
fn bad_sizes(rt: HostRuntime) {
    assert!(rt; is_bad_size(rt.alloc(), 0, 1) && is_bad_size(rt.alloc(), 1, 0));
    assert!(rt; is_bad_size(rt.alloc(), 4097, 1) && is_bad_size(rt.alloc(), 1, 4097));
}

fn is_dawn(alloc: Global) -> bool {
    match Framebuffer::new(alloc, 2, 1, DAWN) {
        Ok(frame) => {
            frame.width() == 2
                && frame.height() == 1
                && frame.pixels() == [3, 2, 1, 255, 3, 2, 1, 255].as_slice()
        }
        Err(_) => false,
    }
}

#[test]
fn a_background(rt: HostRuntime) {
    assert!(rt; is_dawn(rt.alloc()));
}

/// One by two points of dawn.
const IMAGE: &[u8] = b"P6\n1 2\n255\n\x01\x02\x03\x01\x02\x03";

fn writes(alloc: Global, frame: &Framebuffer<Global>, wanted: &[u8]) -> bool {
    let mut writer = FaultyWriter::new(alloc);
    write_ppm(frame, &mut writer).is_ok() && writer.written.as_slice() == wanted
}

fn is_file(alloc: Global, width: u32, height: u32, color: Rgb, wanted: &[u8]) -> bool {
    match Framebuffer::new(alloc, width, height, color) {
        Ok(frame) => writes(alloc, &frame, wanted),
        Err(_) => false,
    }
}

#[test]
fn images_as_files(rt: HostRuntime) {
    assert!(rt; is_file(rt.alloc(), 2, 1, BLACK, b"P6\n2 1\n255\n\0\0\0\0\0\0"));
    assert!(rt; is_file(rt.alloc(), 1, 2, DAWN, IMAGE));
}

// Whether a call failed. None where that isn't what is answered, or what was written by then isn't
// the start of the image, or all of it.
fn has_failed<A: Allocator>(writer: &FaultyWriter<A>, is_done: bool) -> Option<bool> {
    let written = writer.written.as_slice();
    let has_failed = writer.has_failed();
    let is_right = if has_failed {
        !is_done && IMAGE.starts_with(written)
    } else {
        is_done && written == IMAGE
    };
    if is_right { Some(has_failed) } else { None }
}

fn fails_at(alloc: Global, frame: &Framebuffer<Global>, call: u64) -> Option<bool> {
    let mut writer = FaultyWriter::new(alloc).byte_by_byte().failing_at(call);
    let is_done = write_ppm(frame, &mut writer).is_ok();
    has_failed(&writer, is_done)
}

// How many calls write an image.
fn calls(alloc: Global, frame: &Framebuffer<Global>) -> Option<u32> {
    for call in 0..100_u32 {
        if !fails_at(alloc, frame, u64::from(call))? {
            return Some(call);
        }
    }
    None
}

// The fault of any call is answered, and what was written by then is the start of the image.
#[test]
fn a_writer_that_fails(rt: HostRuntime) {
    let calls = match Framebuffer::new(rt.alloc(), 1, 2, DAWN) {
        Ok(frame) => calls(rt.alloc(), &frame),
        Err(_) => None,
    };
    assert!(rt; calls == Some(17));
}

fn is_made<A: Allocator + Copy>(alloc: A) -> Result<(), FrameError> {
    match Framebuffer::new(alloc, 2, 1, BLACK) {
        Ok(_) => Ok(()),
        Err(error) => Err(error),
    }
}

#[test]
fn memory_is_refused(rt: HostRuntime) {
    let nothing = Refusing::new(rt.alloc(), 0);
    assert!(rt; matches!(is_made(&nothing), Err(FrameError::Memory)));
    let heap = Refusing::new(rt.alloc(), 1);
    assert!(rt; is_made(&heap).is_ok());
}
