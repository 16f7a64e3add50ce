ghost use Rattle.std.specs.Prelude.{◌≡◌, ◌+◌, [], ◌++◌, take, Some, None, OnOk, IfErr, IsErrOf};
ghost use Rattle.cd_base.specs.Faults.{END, one_more};
ghost use Rattle.cd_base.specs.SinkState.{Puts, AfterRefusedPut};
ghost use Rattle.cd_base.specs.MemorySinkState.{sink_state, refusal_of, RefusesAsPlanned};

use crate::sink::{PutError, Sink};
use std::alloc::Global;
use std::marker::Model;

/// A sink that keeps what is put in memory, and refuses the puts that it is to refuse.
#[derive(Drop)]
pub struct MemorySink {
    bytes: Vec<u8>,
    failing: Vec<(u64, usize)>,
    puts: u64,
    faults: u64,
}

impl Model for MemorySink {
    ghost use Rattle.cd_base.specs.MemorySinkState.{MemorySinkState};

    ghost Value = { MemorySinkState };

    ghost view = { λ s. record {
      bytes = s.bytes.items;
      failing = s.failing.items;
      puts = s.puts;
      faults = s.faults;
    } };
}

impl MemorySink {
    /// An empty sink. `failing` lists the puts to refuse, counted from 1, each with how many bytes
    /// it appends first (all of them where it has fewer). The first entry of a number counts.
    pub fn new(alloc: Global, failing: Vec<(u64, usize)>) -> MemorySink
        ensures { result ≡ record { bytes = []; failing = failing.items; puts = 0; faults = 0 } }
    {
        MemorySink {
            bytes: Vec::new(alloc),
            failing,
            puts: 0,
            faults: 0,
        }
    }

    /// The bytes that were put so far.
    pub fn bytes(&self) -> &[u8]
        ensures { result.now ≡ self.now.bytes }
    {
        self.bytes.as_slice()
    }
}

impl Sink for MemorySink {
    ghost state = { sink_state };

    fn put(&mut self, bytes: &[u8]) -> Result<(), PutError>
        ensures ok { OnOk result (Puts (sink_state self.old) (sink_state self.new) bytes.now) }
        ensures err { IfErr result
            (λ error. AfterRefusedPut error (sink_state self.old) (sink_state self.new) bytes.now) }

        // The plan of refusals is kept to.
        ensures counted { self.new.puts ≡ one_more self.old.puts }
        ensures plan { self.new.failing ≡ self.old.failing }
        ensures ok_as_planned { OnOk result (refusal_of self.new.puts self.old.failing ≡ None) }
        ensures failed_once { IsErrOf result PutError.Failed
            → self.new.faults ≡ one_more self.old.faults }
        ensures failed_as_planned { IsErrOf result PutError.Failed
            → RefusesAsPlanned self.old self.new bytes.now }
    {
        self.puts = self.puts.saturating_add(1);
        match refusal(self.failing.as_slice(), self.puts) {
            None => {
                self.bytes.extend_from_slice(bytes)?;
                Ok(())
            }
            Some(kept) => {
                self.bytes
                    .extend_from_slice(&bytes[..kept.min(bytes.len())])?;
                self.faults = self.faults.saturating_add(1);
                Err(PutError::Failed)
            }
        }
    }
}

// How many bytes the put of this number keeps, where it is to fail.
fn refusal(failing: &[(u64, usize)], put: u64) -> Option<usize>
    ensures { result ≡ refusal_of put failing.now }
{
    failing
        .iter()
        .find(|entry| entry.0 == put)
        .map(|entry| entry.1)
}
