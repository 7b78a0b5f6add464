use fb_frame::memory_sink::MemorySink;
use fb_link::script_port::ScriptPort;
use flash_plan::memory_dir::{DirFile, MemoryDir};
use host_top::host::host_main;
use std::alloc::{AllocError, Global};
use std::test::Fail;

/// A port whose connections, apart by `|`, each give the bytes of their first line, and then the others as replies.
fn answering(alloc: Global, connections: &str) -> Result<ScriptPort, Fail> {
    let mut all = Vec::new(alloc);
    for lines in connections.split('|').filter(|lines| !lines.is_empty()) {
        let mut bytes = Vec::new(alloc);
        let mut greeted = false;
        for line in lines.split('\n').filter(|line| !line.is_empty()) {
            if greeted {
                bytes.extend_from_slice(&(line.len() as u64).to_be_bytes())?;
            }
            bytes.extend_from_slice(line.as_bytes())?;
            greeted = true;
        }
        all.push(bytes)?;
    }
    Ok(ScriptPort::new(alloc, all, Vec::new(alloc), Vec::new(alloc), 20_000)?)
}

fn file(alloc: Global, name: &str, bytes: &[u8]) -> Result<DirFile, AllocError> {
    Ok(DirFile {
        name: name.to_string(alloc)?,
        bytes: bytes.to_vec(alloc)?,
    })
}

/// A folder `out` of a product that flashes `boot`.
fn folder(
    alloc: Global,
    wanted: &str,
    tasks: &str,
    image: Option<&[u8]>,
) -> Result<MemoryDir, Fail> {
    let mut files = Vec::new(alloc);
    files.push(file(alloc, "android-info.txt", wanted.as_bytes())?)?;
    files.push(file(alloc, "fastboot-info.txt", tasks.as_bytes())?)?;
    if let Some(bytes) = image {
        files.push(file(alloc, "boot.img", bytes)?)?;
    }
    Ok(MemoryDir::new(alloc, "out", files, Vec::new(alloc))?)
}

/// The status and the text that a call ends with, in one text.
fn called(
    alloc: Global,
    words: &str,
    dir: MemoryDir,
    port: ScriptPort,
    room: usize,
) -> Result<String, Fail> {
    let mut list = Vec::new(alloc);
    for word in words.split(' ') {
        list.push(word.to_string(alloc)?)?;
    }
    let mut dir = dir;
    let mut port = port;
    let mut out = MemorySink::new(alloc, room)?;
    let status = host_main(alloc, list.as_slice(), &mut dir, &mut port, &mut out);
    let Ok(text) = str::from_utf8(out.text()) else {
        return Err(Fail::from("no text"));
    };
    Ok(format!(in alloc; "{status} {text}")?)
}

const FLASHALL: &str = "-s image:DEV flashall out";

const PLAIN: &str = "version 1\nflash boot\n";

/// What is answered to all that an installation of `boot` sends.
const WHOLE: &str = "FB01\nOKAY0\nOKAY131072\nOKAYno\nDATA00001000\nOKAY\nOKAY\nOKAY";

/// What an installation of `boot` comes to over such connections.
fn installed(alloc: Global, words: &str, connections: &str) -> Result<String, Fail> {
    let dir = folder(alloc, "", PLAIN, Some(&[0x11; 4096]))?;
    called(alloc, words, dir, answering(alloc, connections)?, 1000)
}

#[test]
fn installs_and_reports(rt: HostRuntime) -> Result<(), Fail> {
    let alloc = rt.alloc();
    for (words, connections, expected) in [
        (
            FLASHALL,
            "FB01\nOKAY0\nOKAY131072\nOKAYno\nDATA00001000\nOKAY\nOKAY\nOKAY|FB01\nOKAY0\nOKAY131072\nOKAYno\nDATA00001000\nOKAY\nOKAY\nOKAY",
            "0 flash boot 4096\nreboot system\ndone 2\n",
        ),
        (
            "-s tcp:host --skip-reboot flashall out",
            WHOLE,
            "0 flash boot 4096\ndone 1\n",
        ),
        (
            "-s image:DEV --retries 1 flashall out",
            "FB01\nOKAY0\nOKAY131072|FB01\nOKAY0\nOKAY131072\nOKAYno\nDATA00001000\nOKAY\nOKAY\nOKAY",
            "0 retry 1\nflash boot 4096\nreboot system\ndone 2\n",
        ),
        (FLASHALL, "FB01\n", "6 error link\n"),
        (FLASHALL, "", "6 error link\n"),
        (
            "-s image:DEV --retries 2 flashall out",
            "",
            "6 retry 1\nretry 2\nerror link\n",
        ),
        (
            FLASHALL,
            "FB01\nOKAY0\nOKAY131072\nOKAYno\nDATA00001000\nOKAY\nFAILlocked",
            "7 error refused locked\n",
        ),
        (FLASHALL, "FB01\nXXXX", "8 error peer 58585858\n"),
        (FLASHALL, "FB00", "8 error peer 46423030\n"),
        (FLASHALL, "FB01\nOKAYmany", "8 error peer 6d616e79\n"),
        (
            "-s image:DEV --slot b flashall out",
            WHOLE,
            "10 error plan line 0 NoSlot\n",
        ),
        (
            FLASHALL,
            "FB01\nOKAY0\nOKAY131072\nFAILno",
            "10 error plan line 2 NoPartition\n",
        ),
        (
            "-s image:DEV flashall other",
            "",
            "3 error directory other\n",
        ),
        ("-s image:DEV update x.zip", "", "1 error usage\n"),
        ("flashall out", "", "1 error usage\n"),
        ("-s image:DEV --slot c flashall out", "", "1 error usage\n"),
        (
            "-s image:DEV --retries 10 flashall out",
            "",
            "1 error usage\n",
        ),
        ("-s image:DEV -w getvar product", "", "1 error usage\n"),
        ("sample 3", "", "1 error usage\n"),
    ] {
        assert_eq!(rt; installed(alloc, words, connections)?.as_str(), expected);
    }
    Ok(())
}

#[test]
fn names_what_is_wrong_with_a_product(rt: HostRuntime) -> Result<(), Fail> {
    let alloc = rt.alloc();
    let block = [0x11; 4096];
    let image = Some(block.as_slice());
    for (wanted, tasks, image, expected) in [
        ("", PLAIN, None, "4 error product boot.img Absent\n"),
        (
            "",
            PLAIN,
            Some(b"".as_slice()),
            "4 error product boot.img Empty at 0\n",
        ),
        (
            "",
            "version 2\n",
            image,
            "4 error product fastboot-info.txt line 1 BadVersion\n",
        ),
        (
            "require =1\n",
            PLAIN,
            image,
            "4 error product android-info.txt line 1 BadLine\n",
        ),
        (
            "",
            "version 1\nupdate-super\n",
            image,
            "4 error product super_empty.img Absent\n",
        ),
    ] {
        let dir = folder(alloc, wanted, tasks, image)?;
        let port = answering(alloc, "")?;
        assert_eq!(rt;
            called(alloc, FLASHALL, dir, port, 1000)?.as_str(),
            expected
        );
    }
    Ok(())
}

#[test]
fn names_the_requirement(rt: HostRuntime) -> Result<(), Fail> {
    let alloc = rt.alloc();
    let block = [0x11; 4096];
    for (words, answers, expected) in [
        (
            FLASHALL,
            "OKAY0\nOKAY131072\nOKAY1.3",
            "5 error requirement line 1 version-bootloader 1.3\n",
        ),
        (
            FLASHALL,
            "OKAY0\nOKAY131072\nFAILunknown variable",
            "5 error requirement line 1 version-bootloader none\n",
        ),
        (
            FLASHALL,
            "OKAY0\nOKAY131072\nOKAYa\tb",
            "5 error requirement line 1 version-bootloader a?b\n",
        ),
        (
            "-s image:DEV --force flashall out",
            "OKAY0\nOKAY131072\nOKAYno\nDATA00001000\nOKAY\nOKAY\nOKAY",
            "0 flash boot 4096\nreboot system\ndone 2\n",
        ),
    ] {
        let dir = folder(
            alloc,
            "require version-bootloader=1.2*|2.0\n",
            PLAIN,
            Some(block.as_slice()),
        )?;
        let script = format!(in alloc; "FB01\n{answers}")?;
        let port = answering(alloc, script.as_str())?;
        assert_eq!(rt; called(alloc, words, dir, port, 1000)?.as_str(), expected);
    }
    Ok(())
}

#[test]
fn asks_for_a_variable(rt: HostRuntime) -> Result<(), Fail> {
    let alloc = rt.alloc();
    let words = "-s image:DEV getvar product";
    for (answers, room, expected) in [
        ("OKAYfalcon", 1000, "0 falcon\n"),
        ("OKAY", 1000, "0 \n"),
        ("INFOa:1\nINFOb:2\nOKAY", 1000, "0 info: a:1\ninfo: b:2\n\n"),
        (
            "FAILunknown variable",
            1000,
            "7 error refused unknown variable\n",
        ),
        (
            "DATA00000001",
            1000,
            "8 error peer 444154413030303030303031\n",
        ),
        ("", 1000, "6 error link\n"),
        ("OKAYfalcon", 0, "9 "),
        ("INFOa:1\nINFOb:2\nOKAY", 16, "9 info: a:1\ninfo: "),
    ] {
        let dir = folder(alloc, "", PLAIN, None)?;
        let script = format!(in alloc; "FB01\n{answers}")?;
        let port = answering(alloc, script.as_str())?;
        assert_eq!(rt; called(alloc, words, dir, port, room)?.as_str(), expected);
    }
    Ok(())
}

#[test]
fn keeps_still_once_the_output_failed(rt: HostRuntime) -> Result<(), Fail> {
    let alloc = rt.alloc();
    let block = [0x11; 4096];
    for (room, expected) in [
        (0, "9 "),
        (15, "9 flash boot 4096"),
        (16, "9 flash boot 4096\n"),
        (35, "9 flash boot 4096\nreboot system\ndone "),
    ] {
        let dir = folder(alloc, "", PLAIN, Some(block.as_slice()))?;
        let port = answering(alloc, WHOLE)?;
        assert_eq!(rt;
            called(alloc, FLASHALL, dir, port, room)?.as_str(),
            expected
        );
    }
    Ok(())
}

#[test]
fn ends_with_faults_of_the_folder_and_the_target(rt: HostRuntime) -> Result<(), Fail> {
    let alloc = rt.alloc();
    for (fails, expected) in [
        (1, "3 error directory out\n"),
        (2, "3 error directory android-info.txt\n"),
    ] {
        let mut numbers = Vec::new(alloc);
        numbers.push(fails)?;
        let mut files = Vec::new(alloc);
        files.push(file(alloc, "android-info.txt", b"")?)?;
        let dir = MemoryDir::new(alloc, "out", files, numbers)?;
        let port = answering(alloc, "")?;
        assert_eq!(rt;
            called(alloc, FLASHALL, dir, port, 1000)?.as_str(),
            expected
        );
    }
    let mut numbers = Vec::new(alloc);
    numbers.push(1)?;
    let port = ScriptPort::new(alloc, Vec::new(alloc), Vec::new(alloc), numbers, 100)?;
    let dir = folder(alloc, "", PLAIN, None)?;
    assert_eq!(rt;
        called(alloc, "-s image:DEV getvar all", dir, port, 1000)?.as_str(),
        "6 error link\n"
    );
    Ok(())
}
