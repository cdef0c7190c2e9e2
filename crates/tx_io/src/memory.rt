//! A source, an inlet and a sink in memory that fail where they are told to.
ghost use Rattle.std.specs.Prelude.{◌≡◌, ◌↔◌, [], take, Some, None, IfSome, OnOk, OnErr, IsTrue};
ghost use Rattle.std.specs.FinMap.{empty, insert};
ghost use Rattle.tx_bytes.specs.Files.{content};
ghost use Rattle.tx_io.specs.Source.{FetchGives, FetchCause};
ghost use Rattle.tx_io.specs.Inlet.{ComesFrom, ComeCause, PassGives, PassCause, line_of};
ghost use Rattle.tx_io.specs.Output.{Say, Save};
ghost use Rattle.tx_io.specs.Sink.{PutGives, PutCause};
ghost use Rattle.tx_io.specs.Memory.{Fails, next_call, one_up};

use crate::inlet::{Came, Inlet, Passed};
use crate::sink::{Put, Sink};
use crate::source::{Fetched, Source};
use crate::steady::{SteadyInlet, SteadySink, SteadySource};
use std::alloc::{AllocError, Global};
use std::marker::Model;
use tx_bytes::Bytes;

/// Which calls of one kind are to fail, by their numbers counted from 1, and how many were made.
#[derive(Drop)]
struct Calls {
    failing: Vec<u64>,
    made: u64,
}

impl Model for Calls {
    ghost use Rattle.tx_io.specs.Memory.{Plan, plan_code};

    ghost Value = { Plan };

    ghost coded = { plan_code };

    ghost view = { λ c. record {
      failing = c.failing.items;
      made = c.made;
    } };
}

impl Calls {
    fn new(failing: Vec<u64>) -> Calls
        ensures failing { result.failing ≡ failing.items }
        ensures made { result.made ≡ 0 }
    {
        Calls { failing, made: 0 }
    }

    // Counts a call, and says whether it is to fail.
    fn next_fails(&mut self) -> bool
        ensures counted { self.new ≡ next_call self.old }
        ensures fails { IsTrue result ↔ Fails self.new }
    {
        self.made = self.made.saturating_add(1);
        self.failing.contains(&self.made)
    }
}

/// A source in memory, for tests: of its fetches those fail whose numbers were listed.
#[derive(Drop)]
pub struct MemorySource {
    source: SteadySource,
    fetches: Calls,
    faults: u64,
}

impl Model for MemorySource {
    ghost use Rattle.tx_io.specs.Memory.{SourceMemory, source_code};

    ghost Value = { SourceMemory };

    ghost coded = { source_code };

    ghost view = { λ s. record {
      files = s.source;
      fetches = s.fetches;
      faults = s.faults;
    } };
}

impl MemorySource {
    /// A source without files, and the numbers of the fetches that are to fail, counted from 1; takes no memory.
    pub fn new(alloc: Global, failing: Vec<u64>) -> MemorySource
        ensures files { result.files ≡ empty }
        ensures failing { result.fetches.failing ≡ failing.items }
        ensures made { result.fetches.made ≡ 0 }
        ensures faults { result.faults ≡ 0 }
    {
        MemorySource {
            source: SteadySource::new(alloc),
            fetches: Calls::new(failing),
            faults: 0,
        }
    }

    /// Gives it a file, in the place of one of that name. After want of memory nothing has changed.
    pub fn put(&mut self, alloc: Global, name: &[u8], bytes: &[u8]) -> Result<(), AllocError>
        ensures ok { OnOk result (self.new ≡ record self.old { files = insert self.old.files name.now bytes.now }) }
        ensures err { OnErr result (self.new ≡ self.old) }
    {
        self.source.put(alloc, name, bytes)
    }
}

impl Source for MemorySource {
    ghost holds = { λ s. Some s.files };

    ghost faults = { λ s. s.faults };

    fn fetch(&mut self, alloc: Global, name: &[u8]) -> Fetched
        ensures kept { self.new.files ≡ self.old.files }
        ensures gives { FetchGives result (content self.old.files name.now) }
        ensures cause { FetchCause result self.old.faults self.new.faults }
        ensures counted { self.new.fetches ≡ next_call self.old.fetches }
        ensures fails { (result ≡ Fetched.Failed) ↔ Fails self.new.fetches }
    {
        if self.fetches.next_fails() {
            self.faults = self.faults.saturating_add(1);
            return Fetched::Failed;
        }
        self.source.fetch(alloc, name)
    }
}

/// An inlet in memory, for tests: of its calls those fail whose numbers were listed, and take nothing.
#[derive(Drop)]
pub struct MemoryInlet {
    inlet: SteadyInlet,
    reads: Calls,
    faults: u64,
}

impl Model for MemoryInlet {
    ghost use Rattle.tx_io.specs.Memory.{InletMemory, inlet_code};

    ghost Value = { InletMemory };

    ghost coded = { inlet_code };

    ghost view = { λ s. record {
      left = s.inlet;
      reads = s.reads;
      faults = s.faults;
    } };
}

impl MemoryInlet {
    /// An inlet of which these bytes come, and the numbers of the calls that are to fail, counted from 1; takes no memory.
    pub fn new(bytes: Bytes, failing: Vec<u64>) -> MemoryInlet
        ensures left { result.left ≡ bytes }
        ensures failing { result.reads.failing ≡ failing.items }
        ensures made { result.reads.made ≡ 0 }
        ensures faults { result.faults ≡ 0 }
    {
        MemoryInlet {
            inlet: SteadyInlet::new(bytes),
            reads: Calls::new(failing),
            faults: 0,
        }
    }
}

impl Inlet for MemoryInlet {
    ghost left = { λ s. Some s.left };

    ghost faults = { λ s. s.faults };

    fn line(&mut self, alloc: Global, most: usize) -> Came
        ensures gives { ComesFrom result (λ bytes. take most (line_of bytes)) (Some self.old.left) (Some self.new.left) }
        ensures cause { ComeCause result self.old.faults self.new.faults }
        ensures counted { self.new.reads ≡ next_call self.old.reads }
        ensures fails { (result ≡ Came.Failed) ↔ Fails self.new.reads }
    {
        if self.reads.next_fails() {
            self.faults = self.faults.saturating_add(1);
            return Came::Failed;
        }
        self.inlet.line(alloc, most)
    }

    fn bytes(&mut self, alloc: Global, count: usize) -> Came
        ensures gives { ComesFrom result (λ bytes. take count bytes) (Some self.old.left) (Some self.new.left) }
        ensures cause { ComeCause result self.old.faults self.new.faults }
        ensures counted { self.new.reads ≡ next_call self.old.reads }
        ensures fails { (result ≡ Came.Failed) ↔ Fails self.new.reads }
    {
        if self.reads.next_fails() {
            self.faults = self.faults.saturating_add(1);
            return Came::Failed;
        }
        self.inlet.bytes(alloc, count)
    }

    fn pass_line(&mut self) -> Passed
        ensures gives { PassGives result (Some self.old.left) (Some self.new.left) }
        ensures cause { PassCause result self.old.faults self.new.faults }
        ensures counted { self.new.reads ≡ next_call self.old.reads }
        ensures fails { (result ≡ Passed.Failed) ↔ Fails self.new.reads }
    {
        if self.reads.next_fails() {
            self.faults = self.faults.saturating_add(1);
            return Passed::Failed;
        }
        self.inlet.pass_line()
    }
}

/// A sink in memory, for tests: of its says and of its saves those fail whose numbers were listed, and put out nothing.
#[derive(Drop)]
pub struct MemorySink {
    sink: SteadySink,
    says: Calls,
    saves: Calls,
    faults: u64,
}

impl Model for MemorySink {
    ghost use Rattle.tx_io.specs.Memory.{SinkMemory, sink_code};

    ghost Value = { SinkMemory };

    ghost coded = { sink_code };

    ghost view = { λ s. record {
      output = s.sink;
      says = s.says;
      saves = s.saves;
      faults = s.faults;
    } };
}

impl MemorySink {
    ghost use Rattle.std.specs.Option.{option_copied};

    /// A sink that has taken nothing yet, and the numbers of the says and of the saves that are to fail, each counted
    /// from 1; takes no memory.
    pub fn new(alloc: Global, failing_says: Vec<u64>, failing_saves: Vec<u64>) -> MemorySink
        ensures said { result.output.said ≡ [] }
        ensures saved { result.output.saved ≡ empty }
        ensures failing_says { result.says.failing ≡ failing_says.items }
        ensures failing_saves { result.saves.failing ≡ failing_saves.items }
        ensures says_made { result.says.made ≡ 0 }
        ensures saves_made { result.saves.made ≡ 0 }
        ensures faults { result.faults ≡ 0 }
    {
        MemorySink {
            sink: SteadySink::new(alloc),
            says: Calls::new(failing_says),
            saves: Calls::new(failing_saves),
            faults: 0,
        }
    }

    /// All that was said, lent.
    pub fn said(&self) -> &[u8]
        ensures { result.now ≡ self.now.output.said }
    {
        self.sink.said()
    }

    /// What was saved under this name, lent; None exactly where nothing was.
    pub fn saved(&self, name: &[u8]) -> Option<&Bytes>
        ensures { option_copied result ≡ content self.now.output.saved name.now }
    {
        self.sink.saved(name)
    }
}

impl Sink for MemorySink {
    ghost output = { λ s. Some s.output };

    ghost faults = { λ s. s.faults };

    fn say(&mut self, bytes: &[u8]) -> Put
        ensures gives { PutGives result (Some self.old.output) (Say bytes.now) (Some self.new.output) }
        ensures cause { PutCause result self.old.faults self.new.faults }
        ensures counted { self.new.says ≡ next_call self.old.says }
        ensures fails { (result ≡ Put.Failed) ↔ Fails self.new.says }
        ensures saves { self.new.saves ≡ self.old.saves }
    {
        if self.says.next_fails() {
            self.faults = self.faults.saturating_add(1);
            return Put::Failed;
        }
        self.sink.say(bytes)
    }

    fn save(&mut self, name: &[u8], bytes: &[u8]) -> Put
        ensures gives { PutGives result (Some self.old.output) (Save name.now bytes.now) (Some self.new.output) }
        ensures cause { PutCause result self.old.faults self.new.faults }
        ensures counted { self.new.saves ≡ next_call self.old.saves }
        ensures fails { (result ≡ Put.Failed) ↔ Fails self.new.saves }
        ensures says { self.new.says ≡ self.old.says }
    {
        if self.saves.next_fails() {
            self.faults = self.faults.saturating_add(1);
            return Put::Failed;
        }
        self.sink.save(name, bytes)
    }
}
