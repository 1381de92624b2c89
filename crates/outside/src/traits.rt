// The traits of the outside.
ghost use Rattle.std.specs.Prelude.{◌≡◌, ◌<◌, ◌≤◌, ◌++◌, [], ◌∷◌, ℕ, List, Option, Some, None};
ghost use Rattle.std.specs.Prelude.{Bool, false, length, take, drop, IfOk, IfSome, OnOk, OnErr};
ghost use Rattle.std.specs.Prelude.{IsSome, IsTrue};
ghost use Rattle.std.specs.Bool.{OnTrue, OnFalse};
ghost use Rattle.outside.specs.Outside.{Seen, Rose, Begun, begins, reads, Called, KeepsOthers};

/// What a file is read for. At each port one file is read at a time.
#[derive(Clone, Copy, PartialEq, Eq)]
pub enum Port {
    /// The file of the entities.
    Entities,
    /// The list of pages.
    List,
    /// The page.
    Page,
    /// The scripts.
    Script,
}

/// A call failed. Which one, and how often, the counts of faults tell.
#[derive(Clone, Copy, PartialEq, Eq)]
pub struct Failed;

/// Files that are read by port.
pub trait Outside {
    /// What contracts see: the files, what each port has left to read (where nothing is begun that
    /// is nothing), the paths that were begun at it and the calls that were made so far, where an
    /// outside tells them; and of each port whether a file is open, how often a call has failed and
    /// how often a file wasn't there.
    ghost seen: { Self → Seen };

    /// Begins the file at this path anew. `false` says that there is no such file; the port then
    /// has nothing left, and nor has it where the call failed.
    fn begin(&mut self, port: Port, path: &str) -> Result<bool, Failed>
        // Where the files are told, true is answered only where the path is one of them, and false
        // only where it is none.
        ensures found { IfOk result (λ there. OnTrue there (IfSome (seen self.old).files (λ map.
            IsSome (map path.now) × ((seen self.new).left port ≡ map path.now)))) }
        ensures absent { IfOk result
            (λ there. OnFalse there (IfSome (seen self.old).files (λ map. map path.now ≡ None))) }

        ensures none_left { IfOk result
            (λ there. OnFalse there (IfSome ((seen self.new).left port) (λ rest. rest ≡ []))) }
        ensures none_left_failed { OnErr result
            (IfSome ((seen self.new).left port) (λ rest. rest ≡ [])) }

        // Whatever it answers, the path is one more of those that were begun.
        ensures begun { Begun ((seen self.old).begun port) ((seen self.new).begun port)
            (path.now ∷ []) }
        ensures calls { Called ((seen self.old).calls port) ((seen self.new).calls port)
            (begins path.now result ∷ []) }

        // A file is open at the port from then on exactly where the answer is true.
        ensures opened { IfOk result (λ there. (seen self.new).open_at port ≡ there) }
        ensures not_opened { OnErr result ((seen self.new).open_at port ≡ false) }

        ensures absences_rose { IfOk result
            (λ there. OnFalse there
            (Rose ((seen self.old).absences port) ((seen self.new).absences port))) }
        ensures faults_rose { OnErr result
            (Rose ((seen self.old).faults port) ((seen self.new).faults port)) }
        ensures no_fault { OnOk result ((seen self.new).faults port ≡ (seen self.old).faults port) }
        ensures others { KeepsOthers port (seen self.old) (seen self.new) };

    /// Reads on at the port, and says how many bytes it put to the front of the piece. On a piece
    /// that isn't empty, 0 is answered only at the end. One that fails reads nothing.
    fn read(&mut self, port: Port, into: &mut [u8]) -> Result<usize, Failed>
        ensures count { IfOk result (λ n. n ≤ length into.old) }

        // Where it is told what the port has left, the first n bytes of that are moved to the front
        // of the piece.
        ensures moved { IfOk result (λ n. IfSome ((seen self.old).left port) (λ rest.
            (n ≤ length rest) × (take n into.new ≡ take n rest)
            × ((seen self.new).left port ≡ Some (drop n rest)))) }
        ensures end { IfOk result
            (λ n. n ≡ 0 → 0 < length into.old
            → IfSome ((seen self.old).left port) (λ rest. rest ≡ [])) }
        ensures failed { OnErr result ((seen self.new).left port ≡ (seen self.old).left port) }

        ensures begun { (seen self.new).begun ≡ (seen self.old).begun }
        ensures calls { Called ((seen self.old).calls port) ((seen self.new).calls port)
            (reads (length into.old) result ∷ []) }
        ensures open_at { (seen self.new).open_at ≡ (seen self.old).open_at }
        ensures absences { (seen self.new).absences ≡ (seen self.old).absences }
        ensures faults_rose { OnErr result
            (Rose ((seen self.old).faults port) ((seen self.new).faults port)) }
        ensures no_fault { OnOk result ((seen self.new).faults port ≡ (seen self.old).faults port) }
        ensures others { KeepsOthers port (seen self.old) (seen self.new) };
}

/// What takes the output. Contracts see the bytes taken, where a sink tells them, how often a call
/// has failed, and whether all that was taken has been handed on.
pub trait Sink {
    /// The bytes taken, where they are told.
    ghost taken: { Self → Option (List ℕ) };

    /// How often a call has failed.
    ghost faults: { Self → ℕ };

    /// What was taken has been handed on.
    ghost clean: { Self → Bool };

    /// Takes some bytes of the front of the piece, and says how many. One that takes nothing of a
    /// piece that isn't empty has failed.
    fn write(&mut self, bytes: &[u8]) -> Result<usize, Failed>
        ensures count { IfOk result (λ n. n ≤ length bytes.now) }
        ensures taken { IfOk result
            (λ n. IfSome (taken self.old)
            (λ before. taken self.new ≡ Some (before ++ take n bytes.now))) }
        ensures failed { OnErr result (taken self.new ≡ taken self.old) }

        ensures nothing { IfOk result
            (λ n. n ≡ 0 → 0 < length bytes.now → Rose (faults self.old) (faults self.new)) }
        ensures faults_rose { OnErr result (Rose (faults self.old) (faults self.new)) }
        ensures faults { faults self.old ≤ faults self.new }
        ensures not_clean { IfOk result (λ n. 0 < n → clean self.new ≡ false) };

    /// Hands on what is buffered.
    fn finish(&mut self) -> Result<(), Failed>
        ensures taken { taken self.new ≡ taken self.old }
        ensures clean { OnOk result (IsTrue (clean self.new)) }
        ensures faults_rose { OnErr result (Rose (faults self.old) (faults self.new)) }
        ensures faults { faults self.old ≤ faults self.new };
}

/// Is told the number of each reply that was given.
pub trait Gate {
    /// The replies up to this number, counted from 1, were given. It promises nothing.
    fn given(&self, number: u64);
}

/// A gate that does nothing.
#[derive(Clone, Copy)]
pub struct OpenGate;

impl Gate for OpenGate {
    fn given(&self, _number: u64) {}
}
