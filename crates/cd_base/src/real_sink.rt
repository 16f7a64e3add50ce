ghost use Rattle.std.specs.Prelude.{◌≡◌, None, OnOk, IfErr, IsErrOf};
ghost use Rattle.cd_base.specs.Faults.{one_more};
ghost use Rattle.cd_base.specs.SinkState.{Puts, AfterRefusedPut};

use crate::sink::{PutError, Sink};
use std::io::Write;
use std::marker::Model;
use std::rt::{Stderr, Stdout};

// One of the two standard streams.
#[derive(Drop)]
enum Stream {
    Output(Stdout),
    Errors(Stderr),
}

/// Standard output or standard error. What was written is not known, and counts each error
/// of the stream as a fault.
#[derive(Drop)]
pub struct RealSink {
    stream: Stream,
    faults: u64,
}

impl Model for RealSink {
    ghost use Rattle.cd_base.specs.SinkState.{SinkState};
    ghost use Rattle.std.specs.Prelude.{None};

    ghost Value = { SinkState };

    ghost view = { λ s. record { known = None; faults = s.faults } };
}

impl RealSink {
    /// Standard output.
    pub fn output(stream: Stdout) -> RealSink
        ensures { result ≡ record { known = None; faults = 0 } }
    {
        RealSink {
            stream: Stream::Output(stream),
            faults: 0,
        }
    }

    /// Standard error.
    pub fn errors(stream: Stderr) -> RealSink
        ensures { result ≡ record { known = None; faults = 0 } }
    {
        RealSink {
            stream: Stream::Errors(stream),
            faults: 0,
        }
    }
}

impl Sink for RealSink {
    ghost state = { λ s. s };

    fn put(&mut self, bytes: &[u8]) -> Result<(), PutError>
        ensures ok { OnOk result (Puts self.old self.new bytes.now) }
        ensures err { IfErr result (λ error. AfterRefusedPut error self.old self.new bytes.now) }
        ensures failed_once { IsErrOf result PutError.Failed
            → self.new.faults ≡ one_more self.old.faults }
    {
        let written = match &mut self.stream {
            Stream::Output(stream) => stream.write_all(bytes),
            Stream::Errors(stream) => stream.write_all(bytes),
        };
        if written.is_err() {
            self.faults = self.faults.saturating_add(1);
            return Err(PutError::Failed);
        }
        Ok(())
    }
}
