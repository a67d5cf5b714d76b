// The files of the system: the trusted edge, of which no content is told.
ghost use Rattle.std.specs.Prelude.{◌≡◌, ◌≤◌, false, None, []};
ghost use Rattle.std.specs.Option.{option_copied};
ghost use Rattle.std.specs.FinMap.{empty};
ghost use Rattle.link_base.specs.Faults.{Rose};

use crate::{Failed, Shelf};
use std::fs::{self, File};
use std::io::{self, Read};

/// The files of the system, by their paths. It counts its failures and tells no content.
#[derive(Drop)]
pub struct FileShelf<'a> {
    rt: &'a HostRuntime,
    file: Option<File>,
    error: Option<io::Error>,
    faults: u64,
}

impl<'a> FileShelf<'a> {
    /// No file is selected, and none has failed.
    pub fn new(rt: &'a HostRuntime) -> FileShelf<'a>
        ensures faults { result.faults ≡ 0 }
        ensures error { result.error ≡ None }
    {
        FileShelf {
            rt,
            file: None,
            error: None,
            faults: 0,
        }
    }

    /// What the system said of the last failure, for people to read.
    pub fn error(&self) -> Option<&io::Error>
        ensures { option_copied result ≡ self.now.error }
    {
        self.error.as_ref()
    }

    // Counts a failure.
    fn fail(&mut self, error: io::Error) -> Failed
        ensures never_falls { self.old.faults ≤ self.new.faults }
        ensures rose { Rose self.old.faults self.new.faults }
    {
        self.error = Some(error);
        self.faults = self.faults.saturating_add(1);
        Failed
    }
}

impl Shelf for FileShelf<'_> {
    ghost shown = { λ s. record { tells = false; held = empty; left = []; chosen = None; failed = None; faults = s.faults } };

    fn select(&mut self, name: &str) -> Result<(), Failed> {
        self.file = None;
        match fs::open(self.rt, name) {
            Ok(file) => {
                self.file = Some(file);
                Ok(())
            }
            Err(error) => Err(self.fail(error)),
        }
    }

    fn read(&mut self, buf: &mut [u8]) -> Result<usize, Failed> {
        if buf.is_empty() {
            return Ok(0);
        }
        let Some(file) = &mut self.file else {
            return Ok(0);
        };
        match file.read(buf) {
            Ok(count) => Ok(count),
            Err(error) => Err(self.fail(error)),
        }
    }
}
