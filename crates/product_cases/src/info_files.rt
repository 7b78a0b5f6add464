use product_info::info::InfoError;
use product_info::meeting::meets;
use product_info::requirement::Requirement;
use product_info::requirements::read_requirements;
use product_info::task::Action;
use product_info::tasks::read_tasks;
use std::alloc::Global;
use std::process::Abort;
use std::str;
use std::test::Fail;

const FALCON: &str = "# fastboot-info for falcon
version 1
flash bootloader
flash radio
reboot bootloader
flash boot
flash --apply-vbmeta vbmeta
reboot fastboot
update-super
flash system
flash vendor
flash product
flash --slot-other system system_other.img
if-wipe erase userdata
";

const FALCON_TASKS: &str = "3 flash bootloader bootloader.img
4 flash radio radio.img
5 reboot Bootloader
6 flash boot boot.img
7 flash vbmeta vbmeta.img
8 reboot Fastboot
9 update-super
10 flash system system.img
11 flash vendor vendor.img
12 flash product product.img
13 flash-other system system_other.img
14 if-wipe erase userdata
";

fn show_action(alloc: Global, action: &Action) -> Result<String, Fail> {
    Ok(match action {
        Action::Flash { name, file, other } => {
            let word = if *other { "flash-other" } else { "flash" };
            let (name, file) = (str::from_utf8(name.bytes())?, str::from_utf8(file.bytes())?);
            format!(in alloc; "{word} {name} {file}")?
        }
        Action::Reboot(target) => format!(in alloc; "reboot {target:?}")?,
        Action::UpdateSuper => "update-super".to_string(alloc)?,
        Action::Erase(name) => format!(in alloc; "erase {}", str::from_utf8(name.bytes())?)?,
    })
}

fn show_tasks(alloc: Global, text: &str, rt: &impl Abort) -> Result<String, Fail> {
    assert!(rt; text.len() <= 65536);
    let mut shown = String::new(alloc);
    match read_tasks(alloc, text.as_bytes()) {
        Ok(list) => {
            for task in list.as_slice() {
                let wipe = if task.if_wipe { "if-wipe " } else { "" };
                let action = show_action(alloc, &task.action)?;
                let line = format!(in alloc; "{} {wipe}{action}\n", task.line)?;
                shown.push_str(line.as_str())?;
            }
        }
        Err(error) => shown.push_str(format!(in alloc; "{error}")?.as_str())?,
    }
    Ok(shown)
}

#[test]
fn reads_tasks(rt: HostRuntime) -> Result<(), Fail> {
    let alloc = rt.alloc();
    let rows = [
        (FALCON, FALCON_TASKS),
        ("version 0\n", ""),
        ("", "line 1 is NoVersion"),
        ("\n#\n", "line 1 is NoVersion"),
        ("version 2\n", "line 1 is BadVersion"),
        ("\nversion 01\n", "line 2 is NoVersion"),
        ("flash boot\nversion 1\n", "line 1 is NoVersion"),
        ("version 1\nflash\n", "line 2 is BadLine"),
        ("version 1\nflash -boot\n", "line 2 is BadLine"),
        ("version 1\nflash boot ..\n", "line 2 is BadLine"),
        ("version 1\nreboot system\nbad", "line 2 is BadLine"),
        (
            "version 1\r\n\t reboot  recovery \r\n",
            "2 reboot Recovery\n",
        ),
        ("version 1\nif-wipe reboot", "2 if-wipe reboot System\n"),
        ("version 1\n# \u{80}\nerase \u{80}\n", "line 3 is NotText"),
    ];
    for (text, want) in rows {
        assert_eq!(rt; show_tasks(alloc, text, &rt)?.as_str(), want, "{text}");
    }
    let tasks = ["reboot\n"; 257].concat(alloc)?;
    let many = ["version 1\n", tasks.as_str()].concat(alloc)?;
    assert_eq!(rt;
        show_tasks(alloc, many.as_str(), &rt)?.as_str(),
        "line 258 is TooMany"
    );
    Ok(())
}

/// A line and its parts: for one product, its kind, its name and its values.
fn show_requirement(alloc: Global, requirement: &Requirement) -> Result<String, Fail> {
    let product = match &requirement.product {
        Some(product) => str::from_utf8(product.bytes())?,
        None => "all",
    };
    let name = str::from_utf8(requirement.name.bytes())?;
    let kind = requirement.kind;
    let mut shown = format!(in alloc; "{} {product} {kind:?} {name}", requirement.line)?;
    for value in requirement.values.as_slice() {
        let value = str::from_utf8(value.bytes())?;
        shown.push_str(format!(in alloc; " [{value}]")?.as_str())?;
    }
    Ok(shown)
}

fn show_requirements(alloc: Global, text: &str, rt: &impl Abort) -> Result<String, Fail> {
    assert!(rt; text.len() <= 65536);
    let mut shown = String::new(alloc);
    match read_requirements(alloc, text.as_bytes()) {
        Ok(list) => {
            for requirement in list.as_slice() {
                shown.push_str(show_requirement(alloc, requirement)?.as_str())?;
                shown.push_str("\n")?;
            }
        }
        Err(error) => shown.push_str(format!(in alloc; "{error}")?.as_str())?,
    }
    Ok(shown)
}

#[test]
fn reads_requirements(rt: HostRuntime) -> Result<(), Fail> {
    let alloc = rt.alloc();
    let rows = [
        ("", ""),
        (
            "require version-bootloader=1.2*|2.0",
            "1 all Require version-bootloader [1.2*] [2.0]\n",
        ),
        ("reject a\t= 1.3 | 2 b\n", "1 all Reject a [1.3] [2 b]\n"),
        ("board=falcon\n", "1 all Require product [falcon]\n"),
        ("\n#\u{80}\n a=b \r\n", "3 all Require a [b]\n"),
        ("require-for-product:eagle a=9\n", "1 eagle Require a [9]\n"),
        (
            "require partition-exists=boot\npartition-exists = a\nrequire-for-product:p partition-exists=b",
            "1 all Exists boot\n2 all Exists a\n3 p Exists b\n",
        ),
        (
            "reject partition-exists=a|b\n",
            "1 all Reject partition-exists [a] [b]\n",
        ),
        ("require=1\n", "1 all Require require [1]\n"),
        (
            "require-for-product: =1\n",
            "1 all Require require-for-product: [1]\n",
        ),
        ("a=1\nrequire =1\nb", "line 2 is BadLine"),
        ("partition-exists=a|b\n", "line 1 is BadLine"),
        ("a=\n", "line 1 is BadLine"),
        ("a=1||2\n", "line 1 is BadLine"),
        ("a b=1\n", "line 1 is BadLine"),
        ("a=\u{80}\nb", "line 1 is NotText"),
    ];
    for (text, want) in rows {
        assert_eq!(rt;
            show_requirements(alloc, text, &rt)?.as_str(),
            want,
            "{text}"
        );
    }
    let many = ["a=1\n"; 257].concat(alloc)?;
    assert_eq!(rt;
        show_requirements(alloc, many.as_str(), &rt)?.as_str(),
        "line 257 is TooMany"
    );
    Ok(())
}

#[test]
fn reads_the_longest_texts(rt: HostRuntime) -> Result<(), Fail> {
    let alloc = rt.alloc();
    let values = ["v|"; 126].concat(alloc)?;
    let line = ["n=", values.as_str(), "v\n"].concat(alloc)?;
    let text = [line.as_str(); 256].concat(alloc)?;
    assert_eq!(rt; text.len(), 65536);
    let list = read_requirements(alloc, text.as_bytes())?;
    assert_eq!(rt; list.len(), 256);
    let blank = ["\n"; 256].concat(alloc)?;
    let blank = [blank.as_str(); 256].concat(alloc)?;
    assert_eq!(rt; blank.len(), 65536);
    assert!(rt;
        matches!(
            read_tasks(alloc, blank.as_bytes()),
            Err(InfoError::Bad { .. })
        )
    );
    Ok(())
}

#[test]
fn meets_requirements(rt: HostRuntime) -> Result<(), Fail> {
    let alloc = rt.alloc();
    let rows = [
        ("require a=1.2*|2.0", None, Some("1.25"), true),
        ("require a=1.2*|2.0", None, Some("2.0"), true),
        ("require a=1.2*|2.0", None, Some("1.3"), false),
        ("require a=1.2*|2.0", None, None, false),
        ("require a=*", None, Some(""), true),
        ("reject a=1.3", None, Some("1.25"), true),
        ("reject a=1.3", None, Some("1.3"), false),
        ("reject a=1.3", None, None, true),
        ("require-for-product:eagle a=9", Some("falcon"), None, true),
        ("require-for-product:eagle a=9", Some("eagle"), None, false),
        ("require-for-product:eagle a=9", None, None, true),
        ("partition-exists=boot", None, Some("no"), true),
        ("partition-exists=boot", None, None, false),
    ];
    for (text, product, value, want) in rows {
        assert!(rt; text.len() <= 65536);
        let list = read_requirements(alloc, text.as_bytes())?;
        for requirement in list.as_slice() {
            let product = product.map(|text: &str| text.as_bytes());
            let value = value.map(|text: &str| text.as_bytes());
            assert_eq!(rt; meets(requirement, product, value), want, "{text}");
        }
    }
    Ok(())
}
