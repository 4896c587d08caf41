// The files that a program's arguments name, and what is said of one that can't be read.
ghost use Rattle.std.specs.Prelude.{◌≤◌, IfSome};
ghost use Rattle.io.specs.Counts.{IsPrefixLen};

use std::env::{Env, FillError};
use std::io::Read;
use std::rt::Files;
use std::{fs, str};

// Room for the longest name of a file, 4,095 bytes, and one byte more.
const PATH_ROOM: usize = 4096;

/// A program that is given files by its arguments: what it runs on, where it says what has gone wrong, and how it begins to.
#[derive(Drop)]
pub struct Program<'a, E: Print> {
    pub rt: &'a HostRuntime,
    pub err: &'a E,
    pub name: &'a [u8],
}

impl<E: Print> Program<'_, E> {
    /// Whether there is an argument i, of whatever length.
    pub fn has_arg(&self, i: usize) -> bool {
        let mut first = [0u8; 1];
        !matches!(self.rt.arg(i, &mut first), Err(FillError::NotPresent))
    }

    /// Puts argument i at the beginning of the buffer, and answers how long it is: 0 where the buffer has no room for it.
    pub fn put_arg(&self, i: usize, path: &mut [u8]) -> usize
        ensures { IsPrefixLen result path.new }
    {
        self.rt.arg(i, path).unwrap_or(0)
    }

    /// Says on standard error what has gone wrong with the file that argument i names.
    pub fn say_why(&self, i: usize, error: &[u8]) {
        let mut path = [0u8; PATH_ROOM];
        let k = self.put_arg(i, &mut path);
        let _ = self.err.write_all(self.name);
        let _ = self.err.write_all(&path[..k]);
        let _ = self.err.write_all(error);
    }

    /// Opens the file that argument i names, or says that it can not be.
    pub fn open(&self, i: usize) -> Option<fs::File> {
        let mut path = [0u8; PATH_ROOM];
        let k = self.put_arg(i, &mut path);
        let Some(file) = open_path(self.rt, &path[..k]) else {
            self.say_why(i, b": cannot be opened\n");
            return None;
        };
        Some(file)
    }

    /// Asks for one byte more of the file that argument i names, and answers how many came, or says that it can not be read. The file is closed.
    pub fn read_more<F: Read + Drop>(&self, mut file: F, i: usize) -> Option<usize>
        ensures { IfSome result (λ n. n ≤ 1) }
    {
        let mut more = [0u8; 1];
        let Ok(n) = file.read(&mut more) else {
            self.say_why(i, b": cannot be read\n");
            return None;
        };
        Some(n)
    }
}

// Opens the file of this name, which std takes as UTF-8.
fn open_path(rt: &HostRuntime, path: &[u8]) -> Option<fs::File> {
    let name = str::from_utf8(path).ok()?;
    let mut how = fs::OpenOptions::new();
    how.read(true);
    rt.open_file(&how, name).ok()
}
