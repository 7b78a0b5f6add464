ghost use Rattle.std.specs.Prelude.{◌≡◌, ◌≤◌, All, IfOk, OnOk, IsTrue};

use crate::gate::Gate;
use crate::outbox::Outbox;
use crate::room::Room;
use crate::script_gate::ScriptGate;
use std::alloc::Global;
use std::test::Fail;

/// A gate with two connections, the first of which gives five bytes, whose sixth call fails.
fn script(alloc: Global) -> Result<ScriptGate, Fail> {
    let mut connections = Vec::new(alloc);
    connections.push(b"abcde".to_vec(alloc)?)?;
    connections.push(Vec::new(alloc))?;
    let fails = Vec::from_array(alloc, [6])?;
    Ok(ScriptGate::new(alloc, connections, sizes(alloc)?, fails, 5)?)
}

/// How much each read gives at most.
fn sizes(alloc: Global) -> Result<Vec<u32>, Fail>
    ensures { IfOk result (λ v. All (λ s. 1 ≤ s) v.items) }
{
    Ok(Vec::from_array(alloc, [2, 4])?)
}

/// The next connection.
pub fn begin<G: Gate>(gate: &mut G) -> Result<(), Fail>
    requires listening { IsTrue (G.told gate.old).listening }
    ensures up { OnOk result (IsTrue (G.told gate.new).up) }
    ensures same { (G.told gate.new).listening ≡ (G.told gate.old).listening }
{
    if gate.accept()? {
        Ok(())
    } else {
        Err(Fail::from("no connection"))
    }
}

/// These are the bytes of the next read.
pub fn hear<G: Gate>(gate: &mut G, bytes: &[u8]) -> Result<(), Fail>
    requires up { IsTrue (G.told gate.old).up }
    ensures up { OnOk result (IsTrue (G.told gate.new).up) }
    ensures same { (G.told gate.new).listening ≡ (G.told gate.old).listening }
{
    let mut buf = [0; 5];
    let n = gate.read(&mut buf)?;
    if &buf[..n] == bytes {
        Ok(())
    } else {
        Err(Fail::from("other bytes"))
    }
}

/// These bytes are written at once.
pub fn tell<G: Gate>(gate: &mut G, bytes: &[u8]) -> Result<(), Fail>
    requires up { IsTrue (G.told gate.old).up }
    ensures up { OnOk result (IsTrue (G.told gate.new).up) }
    ensures same { (G.told gate.new).listening ≡ (G.told gate.old).listening }
{
    if gate.write(bytes)? == bytes.len() {
        Ok(())
    } else {
        Err(Fail::from("not all bytes"))
    }
}

/// A write of these bytes fails.
fn fail<G: Gate>(gate: &mut G, bytes: &[u8]) -> Result<(), Fail>
    requires up { IsTrue (G.told gate.old).up }
    ensures same { (G.told gate.new).listening ≡ (G.told gate.old).listening }
{
    match gate.write(bytes) {
        Ok(_) => Err(Fail::from("no fault")),
        Err(_) => Ok(()),
    }
}

/// One connection after the other.
fn run<G: Gate>(gate: &mut G) -> Result<(), Fail>
    requires listening { IsTrue (G.told gate.old).listening }
{
    begin(gate)?;
    hear(gate, b"ab")?;
    hear(gate, b"cde")?;
    tell(gate, b"xyz")?;
    fail(gate, b"w")?;
    begin(gate)?;
    hear(gate, b"")?;
    tell(gate, b"v")?;
    fail(gate, b"uu")?;
    if gate.accept()? {
        return Err(Fail::from("a third connection"));
    }
    gate.hang_up();
    Ok(())
}

#[test]
fn gives_a_script_and_keeps_what_is_written(rt: HostRuntime) -> Result<(), Fail> {
    let mut gate = script(rt.alloc())?;
    gate.listen(5554)?;
    run(&mut gate)?;
    assert_eq!(rt; gate.written(0), b"xyz".as_slice());
    assert_eq!(rt; gate.written(1), b"v".as_slice());
    assert_eq!(rt; gate.written(2), b"".as_slice());
    Ok(())
}

#[test]
fn gives_the_handshake_on(rt: HostRuntime) -> Result<(), Fail> {
    let Room { replies, .. } = Room::new(rt.alloc(), 131_072)?;
    let mut outbox = Outbox::greet(replies);
    assert_eq!(rt; outbox.bytes(), b"FB01".as_slice());
    outbox.drain(3);
    assert_eq!(rt; outbox.bytes(), b"1".as_slice());
    Ok(())
}
