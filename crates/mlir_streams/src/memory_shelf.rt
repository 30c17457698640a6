// Shelves in memory, which tell everything.
ghost use Rattle.std.specs.Prelude.{◌≡◌, ◌+◌, ◌<◌, ◌≤◌, Some, [], ◌++◌, length, take, drop};
ghost use Rattle.mlir_streams.specs.Fakes.{contents_of, opened_text, IsPositionOf};

use crate::count::{is_failing, raised};
use crate::{Failed, OpenError, Shelf};
use mlir_base::{List, Name};

// The number of the first file of a name.
fn position_of(files: &[(Name, List<u8>)], name: &str) -> Option<usize>
    ensures { IsPositionOf files.now name.now result }
{
    for (index, file) in files.iter().enumerate() {
        if file.0.as_str() == name {
            return Some(index);
        }
    }
    None
}

// The text of the opened file.
fn text_of(files: &[(Name, List<u8>)], opened: Option<usize>) -> &[u8]
    ensures { result.now ≡ opened_text files.now opened }
{
    let Some(index) = opened else {
        return &[];
    };
    match files.get(index) {
        Some(file) => file.1.as_slice(),
        None => &[],
    }
}

// Moves bytes of a text from a place on, `most` at most, to the front of a buffer.
fn move_bytes(text: &[u8], at: usize, most: usize, buf: &mut [u8]) -> usize
    ensures bound { result ≤ length buf.new }
    ensures within { result ≤ most }
    ensures bytes { drop at text.now ≡ take result buf.new ++ drop (at + result) text.now }
    ensures end { result ≡ 0 → 0 < length buf.new → 0 < most → drop at text.now ≡ [] }
    ensures fits { result ≤ length text.now }
    ensures passed { length text.now < at → result ≡ 0 }
{
    if text.len() <= at {
        return 0;
    }
    let rest = &text[at..];
    let count = rest.len().min(buf.len()).min(most);
    buf[..count].copy_from_slice(&rest[..count]);
    count
}

/// Files in memory. Where a name stands twice, the first counts.
#[derive(Drop)]
pub struct MemShelf {
    files: List<(Name, List<u8>)>,
    most: u32,
    failing: List<u32>,
    calls: u64,
    opened: Option<usize>,
    at: usize,
    faults: u64,
    opens: u64,
    ghost gives: { 1 ≤ most },
}

impl MemShelf {
    /// A shelf with these files and nothing opened. A read gives `most` bytes at most. The calls of
    /// `open_file` and `read` whose numbers, counted together from 1, are in `failing` fail. The
    /// count of faults begins at 0; that of absences is 0 and stays so, since the shelf tells its
    /// files.
    pub fn new(files: List<(Name, List<u8>)>, most: u32, failing: List<u32>) -> MemShelf
        requires { 1 ≤ most }
        ensures files { ⟦<MemShelf as Shelf>⟧.files result ≡ Some (contents_of files) }
        ensures left { ⟦<MemShelf as Shelf>⟧.left result ≡ Some [] }
        ensures faults { ⟦<MemShelf as Shelf>⟧.faults result ≡ 0 }
        ensures absences { ⟦<MemShelf as Shelf>⟧.absences result ≡ 0 }
        ensures opens { ⟦<MemShelf as Shelf>⟧.opens result ≡ 0 }
    {
        MemShelf {
            files,
            most,
            failing,
            calls: 0,
            opened: None,
            at: 0,
            faults: 0,
            opens: 0,
        }
    }
}

impl Shelf for MemShelf {
    ghost files = { λ s. Some (contents_of s.files) };

    ghost left = { λ s. Some (drop s.at (opened_text s.files s.opened)) };

    ghost faults = { λ s. s.faults };

    ghost absences = { λ s. 0 };

    ghost opens = { λ s. s.opens };

    fn open_file(&mut self, name: &str) -> Result<(), OpenError> {
        self.opens = raised(self.opens);
        self.calls = raised(self.calls);
        if is_failing(self.failing.as_slice(), self.calls) {
            self.faults = raised(self.faults);
            return Err(OpenError::Failed);
        }
        match position_of(self.files.as_slice(), name) {
            Some(index) => {
                self.opened = Some(index);
                self.at = 0;
                Ok(())
            }
            None => Err(OpenError::Absent),
        }
    }

    fn read(&mut self, buf: &mut [u8]) -> Result<usize, Failed> {
        self.calls = raised(self.calls);
        if is_failing(self.failing.as_slice(), self.calls) {
            self.faults = raised(self.faults);
            return Err(Failed);
        }
        let text = text_of(self.files.as_slice(), self.opened);
        let count = move_bytes(text, self.at, self.most as usize, buf);
        self.at = self.at.saturating_add(count);
        Ok(count)
    }
}

/// Files in memory, whose calls never fail. Where a name stands twice, the first counts.
#[derive(Drop)]
pub struct CleanShelf {
    files: List<(Name, List<u8>)>,
    opened: Option<usize>,
    at: usize,
    opens: u64,
}

impl CleanShelf {
    /// A shelf with these files and nothing opened, whose counts of faults and absences are 0 and stay so.
    pub fn new(files: List<(Name, List<u8>)>) -> CleanShelf
        ensures files { ⟦<CleanShelf as Shelf>⟧.files result ≡ Some (contents_of files) }
        ensures left { ⟦<CleanShelf as Shelf>⟧.left result ≡ Some [] }
        ensures faults { ⟦<CleanShelf as Shelf>⟧.faults result ≡ 0 }
        ensures absences { ⟦<CleanShelf as Shelf>⟧.absences result ≡ 0 }
        ensures opens { ⟦<CleanShelf as Shelf>⟧.opens result ≡ 0 }
    {
        CleanShelf {
            files,
            opened: None,
            at: 0,
            opens: 0,
        }
    }
}

impl Shelf for CleanShelf {
    ghost files = { λ s. Some (contents_of s.files) };

    ghost left = { λ s. Some (drop s.at (opened_text s.files s.opened)) };

    ghost faults = { λ s. 0 };

    ghost absences = { λ s. 0 };

    ghost opens = { λ s. s.opens };

    fn open_file(&mut self, name: &str) -> Result<(), OpenError> {
        self.opens = raised(self.opens);
        match position_of(self.files.as_slice(), name) {
            Some(index) => {
                self.opened = Some(index);
                self.at = 0;
                Ok(())
            }
            None => Err(OpenError::Absent),
        }
    }

    fn read(&mut self, buf: &mut [u8]) -> Result<usize, Failed> {
        let text = text_of(self.files.as_slice(), self.opened);
        let count = move_bytes(text, self.at, usize::MAX, buf);
        self.at = self.at.saturating_add(count);
        Ok(count)
    }
}
