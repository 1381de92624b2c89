// Files in memory, where the calls that a list names fail.
ghost use Rattle.std.specs.Prelude.{◌≡◌, ◌↔◌, ◌<◌, ◌≤◌, ◌+◌, ◌-◌, ◌^◌, [], ◌∷◌, Some, None, false};
ghost use Rattle.std.specs.Prelude.{min, length, take, drop, if◌then◌else◌, IsTrue, IsErr, IfOk};
ghost use Rattle.std.specs.Prelude.{IfSome, IsSome, OnOk, OnErr, Contains};
ghost use Rattle.std.specs.Bool.{OnTrue, OnFalse};
ghost use Rattle.std.specs.Str.{bytes_eq};
ghost use Rattle.outside.specs.ByPort.{at_port};
ghost use Rattle.outside.specs.Outside.{Rose, NeverFall, OthersStay, Begun, begins, reads, Called};
ghost use Rattle.outside.specs.Outside.{KeepsOthers};

use crate::by_port::ByPort;
use crate::{Failed, NeverFails, Outside, Port};
use html_types::NoMemory;
use std::alloc::Global;

/// Files in memory, with calls that fail: of each pair of a port and a number n in its list,
/// the n-th `begin` or `read` at that port, counted from 1.
#[derive(Drop)]
pub struct MemFiles {
    files: NeverFails,
    fail: Vec<(Port, u64)>,
    // The most bytes that a read gives.
    most: usize,
    calls: ByPort<u64>,
    faults: ByPort<u64>,
    ghost some: { 0 < most },
}

fn is_listed(calls: &[(Port, u64)], port: Port, number: u64) -> bool
    ensures { IsTrue result ↔ Contains calls.now (port, number) }
{
    for call in calls {
        if call.0 == port && call.1 == number {
            return true;
        }
    }
    false
}

impl MemFiles {
    ghost use Rattle.outside.specs.MemFiles.{files_in, begun_in, calls_in, shown, failing};
    ghost use Rattle.outside.specs.MemFiles.{number_at, most_in};

    /// No file, nothing begun, and the list of the calls that are to fail. A read gives as many
    /// bytes as its piece takes.
    pub fn new(alloc: Global, fail: &[(Port, u64)]) -> Result<Self, NoMemory>
        ensures files { IfOk result (λ all. (path : _) → files_in all path ≡ None) }
        ensures failing { IfOk result (λ all. failing all ≡ fail.now) }
        ensures most { IfOk result (λ all. most_in all ≡ usize.MAX) }
        ensures number { IfOk result (λ all. (port : _) → number_at all port ≡ 1) }
        ensures begun { IfOk result (λ all. (port : _) → begun_in all port ≡ Some []) }
        ensures called { IfOk result (λ all. (port : _) → calls_in all port ≡ Some []) }
    {
        Ok(MemFiles {
            files: NeverFails::new(alloc),
            fail: fail.to_vec(alloc)?,
            most: usize::MAX,
            calls: ByPort::all(0),
            faults: ByPort::all(0),
        })
    }

    /// Adds a file. A path that is there gets the new bytes.
    pub fn add(&mut self, path: &str, bytes: &[u8]) -> Result<(), NoMemory>
        ensures ok { OnOk result ((other : _) → files_in self.new other
            ≡ (if bytes_eq path.now other then Some bytes.now else files_in self.old other)) }
        ensures err { OnErr result (files_in self.new ≡ files_in self.old) }
        ensures most { most_in self.new ≡ most_in self.old }
    {
        self.files.add(path, bytes)
    }

    /// From now on a read gives at most so many bytes, however large its piece is.
    pub fn limit(&mut self, most: usize)
        requires { 0 < most }
        ensures most { most_in self.new ≡ most }
        ensures failing { failing self.new ≡ failing self.old }
        ensures number { (port : _) → number_at self.new port ≡ number_at self.old port }
        ensures shown { shown self.new ≡ shown self.old }
    {
        self.most = most;
    }

    /// How many calls were made at the port.
    pub fn calls(&self, port: Port) -> u64
        ensures { number_at self.now port ≡ min (result + 1) (2 ^ 64 - 1) }
    {
        self.calls.get(port)
    }

    /// Counts a call at the port, and says whether it is to fail.
    fn fails(&mut self, port: Port) -> bool
        ensures fails { IsTrue result
            ↔ Contains (failing self.old) (port, number_at self.old port) }
        ensures failing { failing self.new ≡ failing self.old }
        ensures number { number_at self.new port ≡ min (number_at self.old port + 1) (2 ^ 64 - 1) }
        ensures other_numbers { OthersStay port (number_at self.old) (number_at self.new) }
        ensures files { self.new.files ≡ self.old.files }
        ensures most { most_in self.new ≡ most_in self.old }
        ensures faults { self.new.faults ≡ self.old.faults }
    {
        let number = self.calls.get(port).saturating_add(1);
        self.calls.set(port, number);
        is_listed(&self.fail, port, number)
    }

    fn count_fault(&mut self, port: Port)
        ensures failing { failing self.new ≡ failing self.old }
        ensures number { self.new.calls ≡ self.old.calls }
        ensures files { self.new.files ≡ self.old.files }
        ensures most { most_in self.new ≡ most_in self.old }
        ensures rose { Rose (at_port self.old.faults port) (at_port self.new.faults port) }
        ensures others { OthersStay port (at_port self.old.faults) (at_port self.new.faults) }
        ensures faults { NeverFall (at_port self.old.faults) (at_port self.new.faults) }
    {
        let faults = self.faults.get(port);
        self.faults.set(port, faults.saturating_add(1));
    }
}

impl Outside for MemFiles {
    ghost use Rattle.outside.specs.MemFiles.{files_in, left_in, begun_in, calls_in, open_in};
    ghost use Rattle.outside.specs.MemFiles.{faults_in, absences_in, shown, failing, number_at};
    ghost use Rattle.outside.specs.MemFiles.{most_in};

    ghost seen = { shown };

    fn begin(&mut self, port: Port, path: &str) -> Result<bool, Failed>
        // It fails exactly where the list names it.
        ensures fails { IsErr result ↔ Contains (failing self.old) (port, number_at self.old port) }
        ensures failing { failing self.new ≡ failing self.old }
        ensures number { number_at self.new port ≡ min (number_at self.old port + 1) (2 ^ 64 - 1) }
        ensures other_numbers { OthersStay port (number_at self.old) (number_at self.new) }
        ensures most { most_in self.new ≡ most_in self.old }

        ensures found { IfOk result (λ there. OnTrue there (
            IsSome (files_in self.old path.now)
            × (Some (left_in self.new port) ≡ files_in self.old path.now))) }
        ensures absent { IfOk result (λ there. OnFalse there (files_in self.old path.now ≡ None)) }
        ensures none_left { IfOk result (λ there. OnFalse there (left_in self.new port ≡ [])) }
        ensures none_left_failed { OnErr result (left_in self.new port ≡ []) }
        ensures begun { Begun (begun_in self.old port) (begun_in self.new port) (path.now ∷ []) }
        ensures calls { Called (calls_in self.old port) (calls_in self.new port)
            (begins path.now result ∷ []) }
        ensures opened { IfOk result (λ there. open_in self.new port ≡ there) }
        ensures not_opened { OnErr result (open_in self.new port ≡ false) }
        ensures absences_rose { IfOk result
            (λ there. OnFalse there
            (Rose (absences_in self.old port) (absences_in self.new port))) }
        ensures faults_rose { OnErr result
            (Rose (faults_in self.old port) (faults_in self.new port)) }
        ensures no_fault { OnOk result (faults_in self.new port ≡ faults_in self.old port) }
        ensures others { KeepsOthers port (shown self.old) (shown self.new) }
    {
        if self.fails(port) {
            self.count_fault(port);
            self.files.close(port, path, Failed);
            return Err(Failed);
        }
        self.files.begin(port, path)
    }

    fn read(&mut self, port: Port, into: &mut [u8]) -> Result<usize, Failed>
        // It fails exactly where the list names it.
        ensures fails { IsErr result ↔ Contains (failing self.old) (port, number_at self.old port) }
        ensures failing { failing self.new ≡ failing self.old }
        ensures number { number_at self.new port ≡ min (number_at self.old port + 1) (2 ^ 64 - 1) }
        ensures other_numbers { OthersStay port (number_at self.old) (number_at self.new) }
        ensures most { most_in self.new ≡ most_in self.old }

        // It gives no more than the limit lets through.
        ensures limited { IfOk result (λ n. n ≤ most_in self.old) }
        ensures count { IfOk result (λ n. n ≤ length into.old) }
        ensures moved { IfOk result (λ n. (n ≤ length (left_in self.old port))
            × (take n into.new ≡ take n (left_in self.old port))
            × (left_in self.new port ≡ drop n (left_in self.old port))) }
        ensures end { IfOk result (λ n. n ≡ 0 → 0 < length into.old → left_in self.old port ≡ []) }
        ensures failed { OnErr result (left_in self.new port ≡ left_in self.old port) }
        ensures begun { begun_in self.new ≡ begun_in self.old }
        ensures calls { Called (calls_in self.old port) (calls_in self.new port)
            (reads (length into.old) result ∷ []) }
        ensures open_at { open_in self.new ≡ open_in self.old }
        ensures faults_rose { OnErr result
            (Rose (faults_in self.old port) (faults_in self.new port)) }
        ensures absences { absences_in self.new ≡ absences_in self.old }
        ensures no_fault { OnOk result (faults_in self.new port ≡ faults_in self.old port) }
        ensures others { KeepsOthers port (shown self.old) (shown self.new) }
    {
        if self.fails(port) {
            self.count_fault(port);
            self.files.fail_read(port, into.len(), Failed);
            return Err(Failed);
        }
        Ok(self.files.read_at_most(port, into, self.most))
    }
}
