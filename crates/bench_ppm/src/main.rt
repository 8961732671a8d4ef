//! The program that `bench/ppm` measures: it writes one frame of 1920 by 1080 as PPM to the file
//! that is named. Without a name it does nothing.
#![tactic(auto)]

use std::io::{BufWriter, Write};
use std::{env, fs, io};
use wl_blend::Rgb;
use wl_paint::{Framebuffer, write_ppm};

/// How many bytes are written at once.
const BUFFER: usize = 65_536;

const DAWN: Rgb = Rgb {
    r: 250,
    g: 120,
    b: 30,
};

fn main(rt: HostRuntime) -> io::Result<()> {
    let words = env::args(&rt)?.collect::<Vec<String>>(rt.alloc())?;
    match words.get(1) {
        Some(path) => write_frame(&rt, path.as_str()),
        None => Ok(()),
    }
}

fn write_frame(rt: &HostRuntime, path: &str) -> io::Result<()> {
    let Ok(frame) = Framebuffer::new(rt.alloc(), 1920, 1080, DAWN) else {
        return Err(io::Error::from(io::ErrorKind::OutOfMemory));
    };
    let mut file = BufWriter::with_capacity(rt.alloc(), BUFFER, fs::create(rt, path)?)?;
    write_ppm(&frame, &mut file)?;
    file.flush()
}
