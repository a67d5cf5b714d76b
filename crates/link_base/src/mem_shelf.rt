// A shelf in memory.
ghost use Rattle.std.specs.Prelude.{◌≡◌, ◌<◌, ◌≤◌, ◌+◌, ◌↔◌, ℕ, List, [], ◌∷◌, ◌++◌, length, map, drop, true, string_bytes, IsTrue, Contains, Some, None, Ok, IsErr, IfOk, IfSome, IsSomeAnd, IfNone, OnOk, OnErr};
ghost use Rattle.std.specs.FinMap.{empty, get, insert};
ghost use Rattle.link_base.specs.Faults.{HasCause};
ghost use Rattle.link_base.specs.Shelf.{SameFiles, Opens, FailsToOpen, Takes, FailsToTake};
ghost use Rattle.link_base.specs.MemShelf.{shelf_shown, HasStop, held_of, stop_of, IsFirstNamed, KeepsNames, IsFreeRun, ReadsFront};

use crate::{Failed, NoMemory, Shelf};
use std::alloc::Global;
use std::marker::Model;

/// A file, whole.
#[derive(Debug, Drop)]
struct File {
    name: String,
    octets: Vec<u8>,
}

/// An offset in a file at which a read fails.
#[derive(Debug, Drop)]
struct Stop {
    name: String,
    offset: u64,
}

/// A shelf that keeps its files in memory. A read fails where it would begin at a stop.
#[derive(Debug, Drop)]
pub struct MemShelf {
    alloc: Global,
    files: Vec<File>,
    stops: Vec<Stop>,
    piece: usize,
    // places in `files`
    chosen: Option<usize>,
    failed: Option<usize>,
    // how much of the chosen file was read
    position: usize,
    faults: u64,
}

impl Model for MemShelf {
    ghost use Rattle.std.specs.Prelude.{ℕ, List, ◌<◌, ◌≤◌, map, length};
    ghost use Rattle.link_base.specs.MemShelf.{ShelfMemory, shelf_code, held_of, stop_of, name_at, left_at, AreInFiles};

    ghost Value = { ShelfMemory };

    ghost coded = { shelf_code };

    ghost view = { λ a. record {
      held = held_of a.files.items;
      stops = map stop_of a.stops.items;
      piece = a.piece;
      chosen = name_at a.files.items a.chosen;
      position = a.position;
      left = left_at a.files.items a.chosen a.position;
      failed = name_at a.files.items a.failed;
      faults = a.faults;
    } };

    ghost invariant = { λ a. (0 < a.piece) × AreInFiles a.files.items a.chosen a.failed a.position };
}

// The place of the file of this name.
fn place_of(files: &[File], name: &str) -> Option<usize>
    ensures found { IfSome result (IsFirstNamed name.now files.now) }
    ensures none { IfNone result (get (held_of files.now) name.now ≡ None) }
{
    for (i, file) in files.iter().enumerate() {
        if file.name.as_str() == name {
            return Some(i);
        }
    }
    None
}

// Puts a file in the place of the one of its name, or behind the others.
fn put(alloc: Global, files: &mut Vec<File>, name: &str, octets: &[u8]) -> Result<(), NoMemory>
    ensures ok { OnOk result (held_of files.new.items ≡ insert (held_of files.old.items) name.now octets.now) }
    ensures names { OnOk result (KeepsNames files.old.items files.new.items) }
    ensures err { OnErr result (files.new.items ≡ files.old.items) }
{
    let octets = Vec::from_slice(alloc, octets)?;
    match place_of(files, name) {
        Some(place) => files[place].octets = octets,
        None => files.push(File {
            name: String::from_str(alloc, name)?,
            octets,
        })?,
    }
    Ok(())
}

// How much of a run from this position on is left before this stop.
fn shortened(stop: &Stop, name: &str, position: usize, free: usize) -> usize
    ensures { (stops : List (List ℕ × ℕ)) → IsFreeRun stops name.now position free → IsFreeRun (stops ++ stop_of stop.now ∷ []) name.now position result }
{
    if stop.name.as_str() != name {
        return free;
    }
    if stop.offset < position as u64 {
        return free;
    }
    free.min((stop.offset - position as u64) as usize)
}

// How many octets of this file can be read from a position on before its next stop.
fn octets_to_stop(stops: &[Stop], name: &str, position: usize) -> usize
    ensures { IsFreeRun (map stop_of stops.now) name.now position result }
{
    let mut free = usize::MAX;
    for stop in stops {
        free = shortened(stop, name, position, free);
    }
    free
}

// Copies as many octets to the front of the buffer as fit there, but no more than `most`.
fn copy_front(octets: &[u8], most: usize, buf: &mut [u8]) -> usize
    requires { 0 < most }
    ensures { ReadsFront result most octets.now buf.old buf.new }
{
    let count = octets.len().min(buf.len()).min(most);
    buf[..count].copy_from_slice(&octets[..count]);
    count
}

// Reads at most so many octets of a file from a position on, unless a stop is there.
fn read_at(
    file: &File,
    stops: &[Stop],
    position: usize,
    most: usize,
    buf: &mut [u8],
) -> Result<usize, Failed>
    requires within { position ≤ length file.now.octets.items }
    requires most { 0 < most }
    ensures read { IfOk result (λ k. ReadsFront k most (drop position file.now.octets.items) buf.old buf.new) }
    ensures kept { OnErr result (buf.new ≡ buf.old) }
    ensures stopped { IsErr result ↔ ((0 < length buf.old) × Contains (map stop_of stops.now) (string_bytes file.now.name, position)) }
    ensures passes_none { IfOk result (λ k. (offset : ℕ) → position < offset → Contains (map stop_of stops.now) (string_bytes file.now.name, offset) → position + k ≤ offset) }
{
    if buf.is_empty() {
        return Ok(0);
    }
    let free = octets_to_stop(stops, file.name.as_str(), position);
    if free == 0 {
        return Err(Failed);
    }
    let octets = file.octets.as_slice();
    Ok(copy_front(&octets[position..], most.min(free), buf))
}

impl MemShelf {
    /// No files. At most `piece` octets are read in one call.
    pub fn new(alloc: Global, piece: usize) -> MemShelf
        requires { 0 < piece }
        ensures { result ≡ record { held = empty; stops = []; piece = piece; chosen = None; position = 0; left = []; failed = None; faults = 0 } }
    {
        MemShelf {
            alloc,
            files: Vec::new(alloc),
            stops: Vec::new(alloc),
            piece,
            chosen: None,
            failed: None,
            position: 0,
            faults: 0,
        }
    }

    /// Puts or replaces a file, and gives up the selected one.
    pub fn add(&mut self, name: &str, octets: &[u8]) -> Result<(), NoMemory>
        ensures ok { OnOk result (self.new ≡ record self.old { held = insert self.old.held name.now octets.now; chosen = None; position = 0; left = [] }) }
        ensures err { OnErr result (self.new ≡ self.old) }
    {
        put(self.alloc, &mut self.files, name, octets)?;
        self.chosen = None;
        self.position = 0;
        Ok(())
    }

    /// Lets each read of this file fail that would begin at this offset, and gives up the selected file. The
    /// stop is kept by the name, whether or not there is such a file.
    pub fn stop(&mut self, name: &str, offset: u64) -> Result<(), NoMemory>
        ensures ok { OnOk result (self.new ≡ record self.old { stops = self.old.stops ++ (name.now, offset) ∷ []; chosen = None; position = 0; left = [] }) }
        ensures err { OnErr result (self.new ≡ self.old) }
    {
        let name = String::from_str(self.alloc, name)?;
        self.stops.push(Stop { name, offset })?;
        self.chosen = None;
        self.position = 0;
        Ok(())
    }
}

impl Shelf for MemShelf {
    ghost shown = { shelf_shown };

    fn select(&mut self, name: &str) -> Result<(), Failed>
        ensures cause { HasCause self.old.faults self.new.faults result }
        ensures files { SameFiles (shelf_shown self.old) (shelf_shown self.new) }
        ensures opens { OnOk result (IsTrue true → Opens name.now (shelf_shown self.old) (shelf_shown self.new)) }
        ensures fails { OnErr result (IsTrue true → FailsToOpen name.now (shelf_shown self.old) (shelf_shown self.new)) }
        ensures unknown { IsErr result ↔ (get self.old.held name.now ≡ None) }
        ensures position { self.new.position ≡ 0 }
        ensures stops { self.new.stops ≡ self.old.stops }
        ensures piece { self.new.piece ≡ self.old.piece }
    {
        self.chosen = None;
        self.failed = None;
        self.position = 0;
        let Some(place) = place_of(&self.files, name) else {
            self.faults = self.faults.saturating_add(1);
            return Err(Failed);
        };
        self.chosen = Some(place);
        Ok(())
    }

    fn read(&mut self, buf: &mut [u8]) -> Result<usize, Failed>
        ensures cause { HasCause self.old.faults self.new.faults result }
        ensures files { SameFiles (shelf_shown self.old) (shelf_shown self.new) }
        ensures bound { IfOk result (λ k. k ≤ length buf.old) }
        ensures empty { length buf.old ≡ 0 → result ≡ Ok 0 }
        ensures takes { IfOk result (λ k. IsTrue true → Takes k buf.old buf.new (shelf_shown self.old) (shelf_shown self.new)) }
        ensures fails { OnErr result (IsTrue true → FailsToTake buf.old buf.new (shelf_shown self.old) (shelf_shown self.new)) }
        ensures stopped { IsErr result ↔ ((0 < length buf.old) × IsSomeAnd self.old.chosen (λ name. HasStop self.old name self.old.position)) }
        ensures passes_none { IfOk result (λ k. (name : List ℕ) (offset : ℕ) → self.old.chosen ≡ Some name → self.old.position < offset → HasStop self.old name offset → self.old.position + k ≤ offset) }
        ensures pieces { IfOk result (λ k. (k ≤ self.old.piece) × (self.new.position ≡ self.old.position + k)) }
        ensures stays { OnErr result (self.new.position ≡ self.old.position) }
        ensures stops { self.new.stops ≡ self.old.stops }
        ensures piece { self.new.piece ≡ self.old.piece }
    {
        let Some(chosen) = self.chosen else {
            return Ok(0);
        };
        let file = &self.files[chosen];
        match read_at(file, &self.stops, self.position, self.piece, buf) {
            Ok(count) => {
                self.position += count;
                Ok(count)
            }
            Err(failed) => {
                self.failed = Some(chosen);
                self.faults = self.faults.saturating_add(1);
                Err(failed)
            }
        }
    }
}
