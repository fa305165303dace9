//! Files and sinks in memory, which tell all that they hold.
ghost use Rattle.std.specs.Prelude.{◌≡◌, ◌≤◌, ◌<◌, ◌+◌, ℕ, List, [], length, take, drop, IsTrue, if◌then◌else◌, nat_lt, unwrap_or, ◌++◌, ◌==◌, ◌-◌, ◌^◌, Some, None, IfOk, OnOk, OnErr, IsErrOf};
ghost use Rattle.std.specs.List.{list_any};
ghost use Rattle.merlin_base.specs.Outside.{Rose, FailsOnlyIf, NoneFalls, EachRose, IsReadUpTo, GivesNext};
ghost use Rattle.std.specs.Io.{ReadsAtMost};
ghost use Rattle.merlin_base.specs.Contents.{content_at, content_of, IsPlace, left_of, fault_count, faults_of, is_listed as is_listed_of};

use crate::{Files, Name, OutsideFault, Sink};
use std::alloc::Global;

// The place of the first file of this name, or past the end.
fn place_of(files: &[(Name, Vec<u8>)], name: &[u8]) -> usize
    ensures within { result ≤ length files.now }
    ensures found { content_of files.now name.now ≡
        (if nat_lt result (length files.now) then Some (content_at files.now result) else None) }
    ensures content { content_at files.now result ≡ unwrap_or (content_of files.now name.now) [] }
{
    for (place, file) in files.iter().enumerate() {
        if file.0.bytes() == name {
            return place;
        }
    }
    files.len()
}

// The content at a place, empty past the end.
fn content(files: &[(Name, Vec<u8>)], place: usize) -> &[u8]
    ensures { result.now ≡ content_at files.now place }
{
    match files.get(place) {
        Some(file) => &file.1,
        None => &[],
    }
}

// Copies what is left of the content to the front of the buffer, as far as there is room.
fn copy_front(content: &[u8], at: usize, buf: &mut [u8]) -> usize
    requires { at ≤ length content.now }
    ensures room { result ≤ length buf.new }
    ensures within { at + result ≤ length content.now }
    ensures bytes { drop at content.now ≡ take result buf.new ++ drop (at + result) content.now }
    ensures end { result ≡ 0 → 0 < length buf.new → drop (at + result) content.now ≡ [] }
{
    let count = buf.len().min(content.len() - at);
    buf[..count].copy_from_slice(&content[at..at + count]);
    count
}

// Whether the number is listed.
fn is_listed(failing: &[u64], number: u128) -> bool
    ensures { result ≡ is_listed_of failing.now number }
{
    failing.iter().any(|listed| u128::from(*listed) == number)
}

// Counts a call, and says whether its number is listed.
fn fails(failing: &[u64], calls: &mut u128) -> bool
    ensures later { calls.old ≤ calls.new }
    ensures more { Rose calls.old calls.new }
    ensures later_faults { fault_count failing.now calls.old ≤ fault_count failing.now calls.new }
    ensures failed { IsTrue result → Rose (fault_count failing.now calls.old)
        (fault_count failing.now calls.new) }
    ensures next { calls.old < 2 ^ 128 - 1 → calls.new ≡ calls.old + 1 }
    ensures listed { calls.old < 2 ^ 128 - 1 → result ≡ is_listed_of failing.now calls.old }
{
    let number = *calls;
    match number.checked_add(1) {
        Some(next) => {
            *calls = next;
            is_listed(failing, number)
        }
        None => false,
    }
}

/// Files in memory. The calls whose numbers, from 0, are listed fail.
#[derive(Drop)]
pub struct MemoryFiles {
    files: Vec<(Name, Vec<u8>)>,
    failing: Vec<u64>,
    calls: u128,
    started: Option<(usize, usize)>,
}

impl MemoryFiles {
    ghost use Rattle.merlin_base.specs.Memory.{failing_reads, reads};

    /// These files, of which the first of a name counts.
    pub fn new(files: Vec<(Name, Vec<u8>)>, failing: Vec<u64>) -> Self
        ensures contents { ⟦<MemoryFiles as Files>⟧.contents result ≡
            Some (content_of files.items) }
        ensures faults { (name : List ℕ) → ⟦<MemoryFiles as Files>⟧.faults result name ≡ 0 }
        ensures failing { failing_reads result ≡ failing.items }
        ensures calls { reads result ≡ 0 }
    {
        MemoryFiles {
            files,
            failing,
            calls: 0,
            started: None,
        }
    }
}

impl Files for MemoryFiles {
    ghost use Rattle.merlin_base.specs.Memory.{read_faults, held_contents, unread, IsStarted};
    ghost use Rattle.merlin_base.specs.Memory.{IsStartCall, IsReadCall};

    ghost faults = { read_faults };

    ghost contents = { held_contents };

    ghost rest = { unread };

    ghost is_started = { IsStarted };

    fn start(&mut self, name: &str) -> Result<(), OutsideFault>
        ensures contents { held_contents self.new ≡ held_contents self.old }
        ensures started { OnOk result (IsStarted self.new) }
        ensures begins { OnOk result (IsReadUpTo (held_contents self.new)
            (unread self.new) name.now []) }
        ensures later { NoneFalls (read_faults self.old) (read_faults self.new) }
        ensures failed { FailsOnlyIf result (Rose (read_faults self.old name.now)
            (read_faults self.new name.now)) }
        ensures call { IsStartCall self.old self.new name.now result }
        ensures memory { IsErrOf result OutsideFault.OutOfMemory → ⊥ }
    {
        self.started = None;
        let fails = fails(&self.failing, &mut self.calls);
        let place = place_of(&self.files, name.as_bytes());
        if fails || place == self.files.len() {
            return Err(OutsideFault::Failed);
        }
        self.started = Some((place, 0));
        Ok(())
    }

    fn read(&mut self, buf: &mut [u8]) -> Result<usize, OutsideFault>
        requires { IsStarted self.old }
        ensures contents { held_contents self.new ≡ held_contents self.old }
        ensures started { OnOk result (IsStarted self.new) }
        ensures bound { ReadsAtMost result buf.new }
        ensures bytes { GivesNext (unread self.old) (unread self.new) result buf.new }
        ensures later { NoneFalls (read_faults self.old) (read_faults self.new) }
        ensures failed { FailsOnlyIf result (EachRose (read_faults self.old)
            (read_faults self.new)) }
        ensures call { IsReadCall self.old self.new result }
        ensures memory { IsErrOf result OutsideFault.OutOfMemory → ⊥ }
    {
        let Some((place, at)) = self.started else {
            unreachable!()
        };
        self.started = None;
        if fails(&self.failing, &mut self.calls) {
            return Err(OutsideFault::Failed);
        }
        let count = copy_front(content(&self.files, place), at, buf);
        self.started = Some((place, at + count));
        Ok(count)
    }
}

/// Files in memory that never fail and lack none: one that wasn't handed in is empty.
#[derive(Drop)]
pub struct SureFiles {
    files: Vec<(Name, Vec<u8>)>,
    started: Option<(usize, usize)>,
}

impl SureFiles {
    /// These files, of which the first of a name counts.
    pub fn new(files: Vec<(Name, Vec<u8>)>) -> Self
        ensures { ⟦<SureFiles as Files>⟧.contents result ≡
            Some (λ name. Some (unwrap_or (content_of files.items name) [])) }
    {
        SureFiles {
            files,
            started: None,
        }
    }
}

impl Files for SureFiles {
    ghost faults = { λ _ _. 0 };

    ghost contents = { λ s. Some (λ name. Some (unwrap_or (content_of s.files.items name) [])) };

    ghost rest = { λ s. left_of s.files.items s.started };

    ghost is_started = { λ s. IsPlace s.files.items s.started };

    fn start(&mut self, name: &str) -> Result<(), OutsideFault> {
        self.started = Some((place_of(&self.files, name.as_bytes()), 0));
        Ok(())
    }

    fn read(&mut self, buf: &mut [u8]) -> Result<usize, OutsideFault> {
        let Some((place, at)) = self.started else {
            unreachable!()
        };
        let count = copy_front(content(&self.files, place), at, buf);
        self.started = Some((place, at + count));
        Ok(count)
    }
}

/// A sink in memory. The calls whose numbers, from 0, are listed fail.
#[derive(Drop)]
pub struct MemorySink {
    failing: Vec<u64>,
    calls: u128,
    bytes: Vec<u8>,
}

impl MemorySink {
    ghost use Rattle.merlin_base.specs.Memory.{failing_writes, writes};

    pub fn new(alloc: Global, failing: Vec<u64>) -> Self
        ensures taken { ⟦<MemorySink as Sink>⟧.taken result ≡ Some [] }
        ensures faults { ⟦<MemorySink as Sink>⟧.faults result ≡ 0 }
        ensures failing { failing_writes result ≡ failing.items }
        ensures calls { writes result ≡ 0 }
    {
        MemorySink {
            failing,
            calls: 0,
            bytes: Vec::new(alloc),
        }
    }

    /// The bytes taken so far.
    pub fn taken(&self) -> &[u8]
        ensures { ⟦<MemorySink as Sink>⟧.taken self.now ≡ Some result.now }
    {
        &self.bytes
    }
}

impl Sink for MemorySink {
    ghost use Rattle.merlin_base.specs.Memory.{write_faults, IsWriteCall};

    ghost faults = { write_faults };

    ghost taken = { λ s. Some s.bytes.items };

    fn write(&mut self, piece: &[u8]) -> Result<usize, OutsideFault>
        ensures whole { IfOk result (λ n. n ≡ length piece.now) }
        ensures ok { OnOk result (self.new.bytes.items ≡ self.old.bytes.items ++ piece.now) }
        ensures err { OnErr result (self.new.bytes.items ≡ self.old.bytes.items) }
        ensures later { write_faults self.old ≤ write_faults self.new }
        ensures failed { FailsOnlyIf result (Rose (write_faults self.old) (write_faults self.new)) }
        ensures call { IsWriteCall self.old self.new result }
    {
        if fails(&self.failing, &mut self.calls) {
            return Err(OutsideFault::Failed);
        }
        match self.bytes.extend_from_slice(piece) {
            Ok(()) => Ok(piece.len()),
            Err(_) => Err(OutsideFault::OutOfMemory),
        }
    }
}

/// A sink in memory that never fails.
#[derive(Drop)]
pub struct SureSink {
    bytes: Vec<u8>,
}

impl SureSink {
    pub fn new(alloc: Global) -> Self
        ensures { ⟦<SureSink as Sink>⟧.taken result ≡ Some [] }
    {
        SureSink {
            bytes: Vec::new(alloc),
        }
    }

    /// The bytes taken so far.
    pub fn taken(&self) -> &[u8]
        ensures { ⟦<SureSink as Sink>⟧.taken self.now ≡ Some result.now }
    {
        &self.bytes
    }
}

impl Sink for SureSink {
    ghost faults = { λ _. 0 };

    ghost taken = { λ s. Some s.bytes.items };

    fn write(&mut self, piece: &[u8]) -> Result<usize, OutsideFault>
        ensures whole { IfOk result (λ n. n ≡ length piece.now) }
        ensures ok { OnOk result (self.new.bytes.items ≡ self.old.bytes.items ++ piece.now) }
        ensures err { OnErr result (self.new.bytes.items ≡ self.old.bytes.items) }
        ensures sure { FailsOnlyIf result ⊥ }
    {
        match self.bytes.extend_from_slice(piece) {
            Ok(()) => Ok(piece.len()),
            Err(_) => Err(OutsideFault::OutOfMemory),
        }
    }
}
