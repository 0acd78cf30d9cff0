ghost use Rattle.std.specs.Prelude.{◌≡◌, ◌↔◌, ℕ, ◌-◌, ◌<◌, ◌≤◌, List, length, take, drop, min, IfOk, IfSome, OnOk, OnErr, IsErrOf, IsTrue, Option, Some, is_err};
ghost use Rattle.std.specs.Option.{option_copied};
ghost use Rattle.std.specs.FinMap as map;
ghost use Rattle.outside.specs.Faults.{Rose, NoneFalls};
ghost use Rattle.outside.specs.Shelf.{Files, held, with_file, ReadsAt, Puts, PutsInPart};
ghost use Rattle.outside.specs.Calls.{no_calls, next_fails};
ghost use Rattle.outside.specs.MemoryShelf.{MemoryFiles, files_of, read_fails, read_len, after_read, after_put};

use crate::calls::Calls;
use crate::failed::Failed;
use crate::shelf::Shelf;
use std::alloc::{AllocError, Global};
use std::collections::BTreeMap;
use std::marker::Model;

/// Files in memory, which are told. Chosen reads and puts fail, counted from 1.
///
/// It counts the faults of all names together. A put that fails leaves the old state.
#[derive(Drop)]
pub struct MemoryShelf {
    alloc: Global,
    files: BTreeMap<String, Vec<u8>>,
    chunk: usize,
    reads: Calls,
    puts: Calls,
}

impl Model for MemoryShelf {
    ghost use Rattle.std.specs.Prelude.{◌<◌};
    ghost use Rattle.outside.specs.MemoryShelf.{MemoryFiles, memory_files_code, files_of};

    ghost Value = { MemoryFiles };

    ghost coded = { memory_files_code };

    ghost view = { λ s. record { files = files_of s.files.entries; chunk = s.chunk; reads = s.reads; puts = s.puts } };

    ghost invariant = { λ s. 0 < s.chunk };
}

impl MemoryShelf {
    /// No files. A read gives at most `chunk` bytes. The reads and puts with these numbers fail.
    pub fn new(
        alloc: Global,
        chunk: usize,
        fail_reads: Vec<u64>,
        fail_puts: Vec<u64>,
    ) -> MemoryShelf
        requires { 0 < chunk }
        ensures files { result.files ≡ map.empty }
        ensures chunk { result.chunk ≡ chunk }
        ensures reads { result.reads ≡ no_calls fail_reads.items }
        ensures puts { result.puts ≡ no_calls fail_puts.items }
    {
        MemoryShelf {
            alloc,
            files: BTreeMap::new(alloc),
            chunk,
            reads: Calls::new(fail_reads),
            puts: Calls::new(fail_puts),
        }
    }

    /// Lets `bytes` stand under `name`. It counts no call.
    pub fn place(&mut self, name: &str, bytes: &[u8]) -> Result<(), AllocError>
        ensures ok { OnOk result (self.new ≡ record self.old { files = with_file name.now bytes.now self.old.files }) }
        ensures err { OnErr result (self.new ≡ self.old) }
    {
        keep_file(self.alloc, &mut self.files, name, bytes)
    }

    /// What stands under `name`. It counts no call.
    pub fn get(&self, name: &str) -> Option<&[u8]>
        ensures value { option_copied result ≡ held self.now.files name.now }
    {
        find_file(&self.files, name)
    }
}

impl Shelf for MemoryShelf {
    ghost files = { λ s. Some s.files };

    ghost read_faults = { λ s _. s.reads.faults };

    ghost put_faults = { λ s _. s.puts.faults };

    fn read_at(&mut self, name: &str, at: u64, buf: &mut [u8]) -> Result<usize, Failed>
        ensures fits { IfOk result (λ n. n ≤ length buf.new) }
        ensures bytes { IfOk result (λ n. IfSome (Some self.old.files) (λ fs. ReadsAt (held fs name.now) at n buf.new)) }
        ensures unchanged { Some self.new.files ≡ Some self.old.files }

        ensures cause { IsErrOf result Failed.Fault → Rose self.old.reads.faults self.new.reads.faults }
        ensures quiet { OnOk result (self.new.reads.faults ≡ self.old.reads.faults) }
        ensures quiet_memory { IsErrOf result Failed.Memory → self.new.reads.faults ≡ self.old.reads.faults }
        ensures reads { NoneFalls (λ _. self.old.reads.faults) (λ _. self.new.reads.faults) }
        ensures puts { NoneFalls (λ _. self.old.puts.faults) (λ _. self.new.puts.faults) }

        ensures exact { is_err result ≡ read_fails self.old name.now }
        ensures no_memory { ¬ (IsErrOf result Failed.Memory) }
        ensures count { IfOk result (λ n. IfSome (held self.old.files name.now) (λ content. n ≡ read_len self.old.chunk (length buf.old) (length content - at))) }
        ensures after { self.new ≡ after_read self.old name.now }
    {
        if self.reads.start() {
            self.reads.fail();
            return Err(Failed::Fault);
        }
        match find_file(&self.files, name) {
            Some(content) => Ok(copy_from(content, at, self.chunk, buf)),
            None => {
                self.reads.fail();
                Err(Failed::Fault)
            }
        }
    }

    fn put(&mut self, name: &str, bytes: &[u8]) -> Result<(), Failed>
        ensures ok { OnOk result (Puts name.now bytes.now (Some self.old.files) (Some self.new.files)) }
        ensures fault { IsErrOf result Failed.Fault → PutsInPart name.now bytes.now (Some self.old.files) (Some self.new.files) }
        ensures memory { IsErrOf result Failed.Memory → Some self.new.files ≡ Some self.old.files }

        ensures cause { IsErrOf result Failed.Fault → Rose self.old.puts.faults self.new.puts.faults }
        ensures reads { NoneFalls (λ _. self.old.reads.faults) (λ _. self.new.reads.faults) }
        ensures puts { NoneFalls (λ _. self.old.puts.faults) (λ _. self.new.puts.faults) }

        ensures exact { IsErrOf result Failed.Fault ↔ IsTrue (next_fails self.old.puts) }
        ensures after { self.new ≡ after_put name.now bytes.now result self.old }
    {
        if self.puts.start() {
            self.puts.fail();
            return Err(Failed::Fault);
        }
        keep_file(self.alloc, &mut self.files, name, bytes)?;
        Ok(())
    }
}

/// Lets `bytes` stand under `name` in a map of files.
fn keep_file(
    alloc: Global,
    files: &mut BTreeMap<String, Vec<u8>>,
    name: &str,
    bytes: &[u8],
) -> Result<(), AllocError>
    ensures ok { OnOk result (files_of files.new.entries ≡ with_file name.now bytes.now (files_of files.old.entries)) }
    ensures err { OnErr result (files_of files.new.entries ≡ files_of files.old.entries) }
{
    let name = String::from_str(alloc, name)?;
    let bytes = Vec::from_slice(alloc, bytes)?;
    files.insert(name, bytes)?;
    Ok(())
}

/// What stands under `name` in a map of files.
fn find_file<'a>(files: &'a BTreeMap<String, Vec<u8>>, name: &str) -> Option<&'a [u8]>
    ensures value { option_copied result ≡ held (files_of files.now.entries) name.now }
{
    match files.get(name) {
        Some(bytes) => Some(bytes.as_slice()),
        None => None,
    }
}

/// Copies what the content has from the place `at` on, as far as a chunk and the buffer go.
fn copy_from(content: &[u8], at: u64, chunk: usize, buf: &mut [u8]) -> usize
    ensures count { result ≡ read_len chunk (length buf.old) (length content.now - at) }
    ensures bytes { take result buf.new ≡ take result (drop at content.now) }
{
    let rest = &content[content.len().min(at as usize)..];
    let count = chunk.min(buf.len().min(rest.len()));
    buf[..count].copy_from_slice(&rest[..count]);
    count
}
