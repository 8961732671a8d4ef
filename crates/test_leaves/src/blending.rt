ghost use Rattle.std.specs.Prelude.{◌≡◌, ◌+◌, ◌*◌, ◌%◌, ◌<◌, ◌≤◌, length};

use wl_blend::{Rgb, blend, blend_run, is_opaque_run};
use wl_store::{Argb, Format};

const WHITE: Rgb = Rgb {
    r: 255,
    g: 255,
    b: 255,
};

const GREY: Rgb = Rgb {
    r: 127,
    g: 127,
    b: 127,
};

fn over(a: u8, r: u8, g: u8, b: u8) -> Argb {
    Argb { a, r, g, b }
}

const PINK: Rgb = Rgb {
    r: 255,
    g: 127,
    b: 127,
};

const RED: Rgb = Rgb { r: 255, g: 0, b: 0 };

// Half of white is 127, to the nearest; what an alpha of 1 takes from grey is less than a half.
#[test]
fn worked_colours(rt: HostRuntime) {
    assert!(rt; blend(WHITE, over(128, 128, 0, 0)) == PINK);
    assert!(rt; blend(GREY, over(1, 0, 0, 0)) == GREY);
}

// The ends of the scale: nothing, all, and a channel above its alpha, whose sum is held at 255.
#[test]
fn nothing_and_all(rt: HostRuntime) {
    assert!(rt; blend(GREY, over(0, 0, 0, 0)) == GREY);
    assert!(rt; blend(GREY, over(255, 255, 0, 0)) == RED);
    assert!(rt; blend(WHITE, over(0, 200, 200, 200)) == WHITE);
}

// Whether a run is this once the other was blended over it.
fn blends(dst: &mut [u8], src: &[u8], format: Format, wanted: &[u8]) -> bool
    requires as_many { length dst.old ≡ length src.now }
    requires whole { length dst.old % 4 ≡ 0 }
{
    blend_run(dst, src, format);
    &*dst == wanted
}

#[test]
fn a_run_by_each_format(rt: HostRuntime) {
    let src = [0, 0, 128, 128, 0, 0, 0, 1];
    let mut dst = [255, 255, 255, 255, 127, 127, 127, 255];
    let argb = [127, 127, 255, 255, 127, 127, 127, 255];
    assert!(rt; blends(&mut dst, &src, Format::Argb8888, &argb));
    let xrgb = [0, 0, 128, 255, 0, 0, 0, 255];
    assert!(rt; blends(&mut dst, &src, Format::Xrgb8888, &xrgb));
    let mut none: [u8; 0] = [];
    assert!(rt; blends(&mut none, &[], Format::Argb8888, &[]));
}

fn finds_each_254() -> bool {
    let mut src = [255_u8; 68];
    for place in 0..17_usize {
        src[4 * place + 3] = 254;
        if is_opaque_run(&src, Format::Argb8888) || !is_opaque_run(&src, Format::Xrgb8888) {
            return false;
        }
        src[4 * place + 3] = 255;
    }
    is_opaque_run(&src, Format::Argb8888)
}

#[test]
fn one_alpha_of_254(rt: HostRuntime) {
    assert!(rt; is_opaque_run(&[255; 68], Format::Argb8888));
    assert!(rt; is_opaque_run(&[], Format::Argb8888) && finds_each_254());
}

fn rgb(bytes: &[u8], k: usize) -> Rgb
    requires { 4 * k + 3 < length bytes.now }
{
    Rgb {
        r: bytes[4 * k + 2],
        g: bytes[4 * k + 1],
        b: bytes[4 * k],
    }
}

fn argb(bytes: &[u8], k: usize, format: Format) -> Argb
    requires { 4 * k + 3 < length bytes.now }
{
    let a = match format {
        Format::Argb8888 => bytes[4 * k + 3],
        Format::Xrgb8888 => 255,
    };
    over(a, bytes[4 * k + 2], bytes[4 * k + 1], bytes[4 * k])
}

// 33 pixels to blend over.
fn lower() -> [u8; 132] {
    let mut bytes = [0_u8; 132];
    for i in 0..132_usize {
        bytes[i] = (i * 37 % 256) as u8;
    }
    bytes
}

// 33 pixels to be blended.
fn upper() -> [u8; 132] {
    let mut bytes = [0_u8; 132];
    for i in 0..132_usize {
        bytes[i] = (i * 91 % 256) as u8;
    }
    bytes
}

// Whether a pixel of the run is what it is by itself.
fn is_blended(dst: &[u8], was: &[u8], src: &[u8], k: usize, format: Format) -> bool
    requires dst { 4 * k + 3 < length dst.now }
    requires was { 4 * k + 3 < length was.now }
    requires src { 4 * k + 3 < length src.now }
{
    rgb(dst, k) == blend(rgb(was, k), argb(src, k, format)) && dst[4 * k + 3] == 255
}

fn stays(dst: &[u8], was: &[u8], k: usize) -> bool
    requires dst { 4 * k + 3 < length dst.now }
    requires was { 4 * k + 3 < length was.now }
{
    rgb(dst, k) == rgb(was, k) && dst[4 * k + 3] == was[4 * k + 3]
}

fn are_blended(dst: &[u8], was: &[u8], src: &[u8], count: usize, format: Format) -> bool
    requires dst { length dst.now ≡ 132 }
    requires was { length was.now ≡ 132 }
    requires src { length src.now ≡ 132 }
{
    for k in 0..33_usize {
        let is_right = if k < count {
            is_blended(dst, was, src, k, format)
        } else {
            stays(dst, was, k)
        };
        if !is_right {
            return false;
        }
    }
    true
}

/// Blends a run of `count` of 33 pixels, and each of them by itself. What follows the run stays.
fn blends_run(count: usize, format: Format) -> bool
    requires { count ≤ 33 }
{
    let was = lower();
    let src = upper();
    let mut dst = was;
    blend_run(&mut dst[..4 * count], &src[..4 * count], format);
    are_blended(&dst, &was, &src, count, format)
}

fn blends_runs(format: Format) -> bool {
    blends_run(0, format)
        && blends_run(1, format)
        && blends_run(15, format)
        && blends_run(16, format)
        && blends_run(17, format)
        && blends_run(33, format)
}

#[test]
fn runs_and_their_pixels(rt: HostRuntime) {
    assert!(rt; blends_runs(Format::Argb8888));
    assert!(rt; blends_runs(Format::Xrgb8888));
}

// To the nearest: a 255th of 127 is 0 and of 128 is 1. A sum of 300 is held at 255. Four pixels and
// one more.
#[test]
fn worked_runs(rt: HostRuntime) {
    let src = [
        0, 0, 0, 254, 0, 0, 0, 254, 0, 0, 0, 1, 200, 200, 200, 0, 0, 0, 0, 254,
    ];
    let mut dst = [
        127, 127, 127, 255, 128, 128, 128, 255, 255, 255, 255, 255, 100, 100, 100, 255, 128, 128,
        128, 255,
    ];
    let laid = [
        0, 0, 0, 255, 1, 1, 1, 255, 254, 254, 254, 255, 255, 255, 255, 255, 1, 1, 1, 255,
    ];
    assert!(rt; blends(&mut dst, &src, Format::Argb8888, &laid));
}
