//! The side files of a folder.

ghost use Rattle.std.specs.Prelude.{◌≡◌, false};
ghost use Rattle.wl_recording.specs.Side.{Rose};
ghost use Rattle.wl_program.specs.Folder.{MayGive, MayOpen, new_folder};

use std::alloc::AllocError;
use std::fs::File;
use std::io::{self, ErrorKind, Read, Seek, SeekFrom};
use std::marker::Model;
use std::rt::Files;
use wl_recording::{SideFault, SideFiles};

/// The files of a folder, of which one is open at a time. Contracts see the folder's path, whether
/// a file is open, whether there was no memory to open one, and how many calls failed.
#[derive(Drop)]
pub struct Folder<'a, R: Files + Alloc> {
    rt: &'a R,
    folder: &'a str,
    path: String<R::A>,
    file: Option<R::File>,
    lacks_memory: bool,
    faults: u64,
}

impl<'a, R: Files + Alloc> Model for Folder<'a, R> {
    ghost use Rattle.std.specs.Prelude.{is_some};
    ghost use Rattle.wl_program.specs.Folder.{FolderView};

    ghost Value = { FolderView };

    ghost view = { λ f. record { folder = f.folder.now; is_open = is_some f.file; lacks_memory = f.lacks_memory; faults = f.faults } };
}

impl<'a, R: Files + Alloc> Folder<'a, R> {
    /// No file is open, and there was no fault. It takes no memory.
    pub fn new(rt: &'a R, folder: &'a str) -> Folder<'a, R>
        ensures { result ≡ new_folder folder.entry.now }
    {
        Folder {
            rt,
            folder,
            path: String::new(rt.alloc()),
            file: None,
            lacks_memory: false,
            faults: 0,
        }
    }

    /// Whether the last fault of `open` was that there was no memory for it, and not one of the
    /// folder or of its files.
    pub fn lacks_memory(&self) -> bool
        ensures { result ≡ self.now.lacks_memory }
    {
        self.lacks_memory
    }

    /// Counts a fault.
    fn fault(&mut self) -> SideFault
        ensures rose { Rose self.old.faults self.new.faults }
        ensures kept { self.new ≡ record self.old { faults = self.new.faults } }
    {
        self.faults = self.faults.saturating_add(1);
        SideFault
    }

    fn set_path(&mut self, name: &str) -> Result<(), AllocError>
        ensures { self.new ≡ self.old }
    {
        self.path.clear();
        self.path.push_str(self.folder)?;
        self.path.push_str("/")?;
        self.path.push_str(name)
    }
}

/// Opens a file, to be read from this byte on.
fn open_at<R: Files>(rt: &R, path: &str, from: u32) -> io::Result<R::File> {
    let mut file = File::open(rt, path)?;
    if from > 0 {
        file.seek(SeekFrom::Start(u64::from(from)))?;
    }
    Ok(file)
}

/// What a folder holds isn't known, so nothing is said of the bytes of an open file.
impl<R: Files + Alloc> SideFiles for Folder<'_, R> {
    ghost fault_count = { λ side. side.faults };

    ghost gives = { MayGive };

    ghost opens = { MayOpen };

    fn open(&mut self, name: &str, from: u32) -> Result<bool, SideFault> {
        self.file = None;
        if self.set_path(name).is_err() {
            self.lacks_memory = true;
            return Err(self.fault());
        }
        match open_at(self.rt, self.path.as_str(), from) {
            Ok(file) => {
                self.file = Some(file);
                Ok(true)
            }
            Err(error) if error.kind() == ErrorKind::NotFound => Ok(false),
            Err(error) => {
                self.lacks_memory = error.kind() == ErrorKind::OutOfMemory;
                Err(self.fault())
            }
        }
    }

    fn read(&mut self, buf: &mut [u8]) -> Result<usize, SideFault> {
        let Some(file) = &mut self.file else {
            return Ok(0);
        };
        match file.read(buf) {
            Ok(n) => Ok(n),
            Err(_) => Err(self.fault()),
        }
    }

    fn faults(&self) -> u64 {
        self.faults
    }
}
