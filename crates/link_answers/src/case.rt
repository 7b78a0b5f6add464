//! A case amid its calls.

use crate::call::{Call, call_of};
use crate::came::Came;
use crate::escaped::print;
use crate::host::{Host, step};
use crate::script::Script;
use fb_frame::memory::Memory;
use fb_frame::memory_sink::MemorySink;
use fb_link::script_port::ScriptPort;
use fb_link::states::Lost;
use std::alloc::Global;
use std::mem;

/// The longest text of lines that is printed whole.
const PRINTED: usize = 100;

/// A host, how many connections its peer has, and the lines that were shown.
#[derive(Drop)]
pub struct Case {
    connections: u32,
    host: Host,
    shown: MemorySink,
}

impl Case {
    /// A host that has made no call yet.
    pub fn new(alloc: Global, script: Script) -> Result<Case, Memory> {
        let connections = u32::try_from(script.connections.len()).unwrap_or(u32::MAX);
        let shown = MemorySink::new(alloc, script.room)?;
        let port = script.into_port(alloc)?;
        Ok(Case {
            connections,
            host: Host::Lost(Lost::new(port)),
            shown,
        })
    }

    /// Makes a call.
    fn call(&mut self, alloc: Global, call: Call<'_>) -> Came {
        let host = mem::replace(&mut self.host, Host::Gone);
        let (next, came) = step(alloc, host, call, &mut self.shown);
        self.host = next;
        came
    }

    /// Makes the call that a word tells, and prints what came of it.
    fn take<R: Print + Alloc<A = Global>>(&mut self, rt: &R, word: &str) -> anyhow::Result<()> {
        let came = match call_of(word) {
            Some(call) => self.call(rt.alloc(), call),
            None => Came::Is("no call"),
        };
        let text = came.text(rt.alloc())?;
        println!(rt; "{text}")?;
        Ok(())
    }

    /// Makes the calls that words tell.
    pub fn take_all<R: Print + Alloc<A = Global>>(
        &mut self,
        rt: &R,
        words: &str,
    ) -> anyhow::Result<()> {
        for word in words.split(' ') {
            self.take(rt, word)?;
        }
        Ok(())
    }

    /// Prints the lines that were shown, or how many bytes they have.
    pub fn print_shown<R: Print + Alloc<A = Global>>(&self, rt: &R) -> anyhow::Result<()> {
        let text = self.shown.text();
        if text.len() > PRINTED {
            println!(rt; "shown: {} bytes", text.len())?;
        } else if !text.is_empty() {
            print(rt, "shown", text)?;
        }
        Ok(())
    }

    /// Prints what was sent in each connection, where the port isn't gone, and lets it go.
    pub fn print_sent<R: Print + Alloc<A = Global>>(&mut self, rt: &R) -> anyhow::Result<()> {
        let host = mem::replace(&mut self.host, Host::Gone);
        match host.into_port() {
            Some(port) => print_sent(rt, &port, self.connections),
            None => Ok(()),
        }
    }
}

/// Prints what was sent in each of so many connections.
fn print_sent<R: Print + Alloc<A = Global>>(
    rt: &R,
    port: &ScriptPort,
    connections: u32,
) -> anyhow::Result<()> {
    for connection in 0..connections {
        print(rt, "sent", port.sent(connection))?;
    }
    Ok(())
}
