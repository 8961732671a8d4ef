//! The run of pixels that `bench/blend` measures and compares: `blend_run`, called from C.
#![tactic(auto)]

ghost use Rattle.std.specs.Prelude.{◌≡◌, ℕ, ◌*◌, ◌%◌, ◌<◌, length};
ghost use Rattle.wl_store.specs.Layout.{argb_of};
ghost use Rattle.wl_blend.specs.Blend.{blended, color_of};

use wl_blend::blend_run;
use wl_store::Format;

/// Lays each argb8888 pixel of `src` over the one at its place in `dst`.
#[unsafe(no_mangle)]
pub extern "C" fn bench_blend_run(dst: &mut [u8], src: &[u8])
    requires as_many { length dst.old ≡ length src.now }
    requires whole { length dst.old % 4 ≡ 0 }
    ensures { (k : ℕ) → 4 * k < length dst.old → color_of dst.new k ≡ blended (color_of dst.old k) (argb_of Format.Argb8888 src.now k) }
{
    blend_run(dst, src, Format::Argb8888);
}
