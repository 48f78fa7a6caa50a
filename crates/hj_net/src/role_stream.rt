ghost use Rattle.std.specs.Prelude.{◌≡◌, ◌<◌, length, string_bytes};
ghost use Rattle.hj_base.specs.Outside.{IsOpen};

use hj_base::{Got, Opened};
use std::io::Read;

/// How far a role has come.
#[derive(Drop)]
enum RoleStage<S> {
    Unbegun,
    Opened {
        name: String,
        ended: bool,
        stream: S,
    },
    Refused(String),
}

/// A role, and the stream that it reads.
#[derive(Drop)]
pub struct RoleStream<S: Read + Drop> {
    stage: RoleStage<S>,
    faults: u64,
}

impl<S: Read + Drop> RoleStream<S> {
    ghost use Rattle.hj_base.specs.Outside.{new_role};
    ghost use Rattle.hj_net.specs.RoleStream.{role_of, Begins, ReadsOn};

    /// Makes a role that isn't begun.
    pub fn new() -> RoleStream<S>
        ensures { role_of result ≡ new_role }
    {
        RoleStream {
            stage: RoleStage::Unbegun,
            faults: 0,
        }
    }

    /// Begins under a name with the stream that was opened for it, if one was.
    pub fn begin(&mut self, name: String, opened: Option<S>) -> Opened
        ensures { Begins result (string_bytes name) opened self.old self.new }
    {
        match opened {
            Some(stream) => {
                self.stage = RoleStage::Opened {
                    name,
                    ended: false,
                    stream,
                };
                Opened::Ready
            }
            None => {
                self.stage = RoleStage::Refused(name);
                self.faults = self.faults.saturating_add(1);
                Opened::Failed
            }
        }
    }

    /// Reads the next bytes of the stream into the start of a buffer.
    pub fn read(&mut self, buf: &mut [u8]) -> Got
        requires open { IsOpen (role_of self.old).phase }
        requires room { 0 < length buf.old }
        ensures { ReadsOn S.remaining result buf.new self.old self.new }
    {
        let RoleStage::Opened { stream, ended, .. } = &mut self.stage else {
            unreachable!();
        };
        match stream.read(buf) {
            Ok(0) => {
                *ended = true;
                Got::End
            }
            Ok(count) => Got::Bytes(count),
            Err(_) => {
                self.faults = self.faults.saturating_add(1);
                Got::Failed
            }
        }
    }
}
