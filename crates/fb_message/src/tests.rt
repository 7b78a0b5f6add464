use crate::command::{BootTarget, Command, read_command, write_command};
use crate::line::Line;
use crate::packet::Packet;
use crate::reply::{Reply, read_reply, write_reply};
use fb_frame::name::Name;
use fb_frame::slot::Slot;
use std::test::Fail;

/// What a command is called, with the bytes or the number that it holds.
fn told<'a>(command: &'a Command<'a>) -> (&'static str, &'a [u8], u64) {
    match command {
        Command::GetVar(name) => ("get a variable", name, 0),
        Command::Download(count) => ("download", b"", u64::from(*count)),
        Command::Flash(name) => ("flash", name.bytes(), 0),
        Command::Erase(name) => ("erase", name.bytes(), 0),
        Command::SetActive(Slot::A) => ("set active", b"a", 0),
        Command::SetActive(Slot::B) => ("set active", b"b", 0),
        Command::Reboot(BootTarget::System) => ("reboot", b"system", 0),
        Command::Reboot(BootTarget::Bootloader) => ("reboot", b"bootloader", 0),
        Command::Reboot(BootTarget::Fastboot) => ("reboot", b"fastboot", 0),
        Command::Reboot(BootTarget::Recovery) => ("reboot", b"recovery", 0),
        Command::Continue => ("continue", b"", 0),
        Command::Lock => ("lock", b"", 0),
        Command::Unlock => ("unlock", b"", 0),
        Command::UnlockAbility => ("unlock ability", b"", 0),
        Command::UpdateSuper(name, wipe) => ("update super", name.bytes(), u64::from(*wipe)),
        Command::Create(name, size) => ("create", name.bytes(), *size),
        Command::Delete(name) => ("delete", name.bytes(), 0),
        Command::Resize(name, size) => ("resize", name.bytes(), *size),
        Command::Unknown => ("unknown", b"", 0),
    }
}

#[test]
fn reads_commands(rt: HostRuntime) {
    for (text, what, bytes, number) in [
        (
            b"getvar:version".as_slice(),
            "get a variable",
            b"version".as_slice(),
            0,
        ),
        (b"getvar:", "get a variable", b"", 0),
        (b"download:00000004", "download", b"", 4),
        (b"download:0000000A", "unknown", b"", 0),
        (b"download:000000004", "unknown", b"", 0),
        (b"flash:boot", "flash", b"boot", 0),
        (
            b"flash:abcdefghijklmnopqrstuvwxyz012345678",
            "flash",
            b"abcdefghijklmnopqrstuvwxyz012345678",
            0,
        ),
        (
            b"flash:abcdefghijklmnopqrstuvwxyz0123456789",
            "unknown",
            b"",
            0,
        ),
        (b"flash:", "unknown", b"", 0),
        (b"erase:userdata", "erase", b"userdata", 0),
        (b"set_active:b", "set active", b"b", 0),
        (b"set_active:c", "unknown", b"", 0),
        (b"reboot", "reboot", b"system", 0),
        (b"reboot-bootloader", "reboot", b"bootloader", 0),
        (b"reboot-fastboot", "reboot", b"fastboot", 0),
        (b"reboot-recovery", "reboot", b"recovery", 0),
        (b"reboot\0", "unknown", b"", 0),
        (b"continue", "continue", b"", 0),
        (b"flashing lock", "lock", b"", 0),
        (b"flashing unlock", "unlock", b"", 0),
        (b"flashing get_unlock_ability", "unlock ability", b"", 0),
        (b"update-super:super", "update super", b"super", 0),
        (b"update-super:super:wipe", "update super", b"super", 1),
        (
            b"create-logical-partition:x:2621440",
            "create",
            b"x",
            2_621_440,
        ),
        (
            b"delete-logical-partition:system_a",
            "delete",
            b"system_a",
            0,
        ),
        (
            b"resize-logical-partition:x:18446744073709551615",
            "resize",
            b"x",
            18_446_744_073_709_551_615,
        ),
        (
            b"resize-logical-partition:x:18446744073709551616",
            "unknown",
            b"",
            0,
        ),
        (b"resize-logical-partition:x:01", "unknown", b"", 0),
        (b"", "unknown", b"", 0),
    ] {
        let command = read_command(text);
        let (name, held, count) = told(&command);
        assert_eq!(rt; name, what);
        assert!(rt; held == bytes);
        assert_eq!(rt; count, number);
    }
}

#[test]
fn writes_commands(rt: HostRuntime) -> Result<(), Fail> {
    let name = Name::read(b"system_a").ok_or("a name")?;
    let mut packet = Packet::new();
    write_command(&Command::GetVar(b"slot-count"), &mut packet);
    assert!(rt; packet.bytes() == b"getvar:slot-count".as_slice());
    write_command(&Command::Download(0xab_cdef), &mut packet);
    assert!(rt; packet.bytes() == b"download:00abcdef".as_slice());
    write_command(&Command::SetActive(Slot::A), &mut packet);
    assert!(rt; packet.bytes() == b"set_active:a".as_slice());
    write_command(&Command::Reboot(BootTarget::Fastboot), &mut packet);
    assert!(rt; packet.bytes() == b"reboot-fastboot".as_slice());
    write_command(&Command::UpdateSuper(name, true), &mut packet);
    assert!(rt; packet.bytes() == b"update-super:system_a:wipe".as_slice());
    write_command(&Command::Resize(name, 2_621_440), &mut packet);
    assert!(rt; packet.bytes() == b"resize-logical-partition:system_a:2621440".as_slice());
    Ok(())
}

#[test]
fn replies(rt: HostRuntime) -> Result<(), Fail> {
    let mut packet = Packet::new();
    write_reply(
        &Reply::Okay(Line::read(b"0.4").ok_or("a line")?),
        &mut packet,
    );
    assert!(rt; packet.bytes() == b"OKAY0.4".as_slice());
    write_reply(&Reply::Load(10), &mut packet);
    assert!(rt; packet.bytes() == b"DATA0000000a".as_slice());
    assert!(rt; matches!(read_reply(packet.bytes()), Ok(Reply::Load(10))));
    assert!(rt;
        matches!(read_reply(b"INFOx"), Ok(Reply::Info(line)) if line.bytes() == b"x".as_slice())
    );
    assert!(rt; matches!(read_reply(b"TEXT"), Ok(Reply::Text(line)) if line.bytes().is_empty()));
    assert!(rt; read_reply(b"XXXX").is_err());
    assert!(rt; read_reply(b"DATA0000000A").is_err());
    let mut long = [b'x'; 257];
    long[..4].copy_from_slice(b"FAIL");
    assert!(rt; matches!(read_reply(&long[..256]), Ok(Reply::Fail(_))));
    assert!(rt; read_reply(&long).is_err());
    Ok(())
}
