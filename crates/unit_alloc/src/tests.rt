ghost use Rattle.std.specs.Prelude.{◌≡◌, ◌<◌, length};

use crate::Owners;
use crate::plain::PlainOwners;
use std::alloc::{AllocError, Global};
use std::process::Abort;
use std::test::Fail;

const UNITS: u32 = 200;

const PARTS: u32 = 6;

/// Two parts grow in turn, and the first one's unit goes to the second.
#[test]
fn reuses_the_lowest_unit(rt: HostRuntime) -> Result<(), Fail> {
    let mut owners = Owners::new(rt.alloc(), 8, 2)?;
    assert_eq!(rt; owners.grow(0, 1), Ok(()));
    assert_eq!(rt; owners.grow(1, 2), Ok(()));
    owners.release(0);
    assert_eq!(rt; owners.grow(1, 1), Ok(()));
    assert_eq!(rt; owners.count(1), 3);
    assert_eq!(rt; owners.run_at(1, 0), (1, 2));
    assert_eq!(rt; owners.run_at(1, 2), (0, 1));
    let runs = runs_of(rt.alloc(), &owners, 1)?;
    assert_eq!(rt; runs.as_slice(), [(1, 2), (0, 1)].as_slice());
    assert_eq!(rt; owners.free(), 5);
    Ok(())
}

/// The runs of a part, each by one step from the one before.
fn runs_of(alloc: Global, owners: &Owners, part: u32) -> Result<Vec<(u32, u32)>, AllocError>
    requires { part < length owners.now.parts }
{
    let mut runs = Vec::new(alloc);
    let count = owners.count(part);
    if count == 0 {
        return Ok(runs);
    }
    let (mut first, mut run) = owners.run_at(part, 0);
    let mut end = run;
    runs.push((first, run))?;
    while end < count {
        (first, run) = owners.run_after(part, end, first + (run - 1));
        end += run;
        runs.push((first, run))?;
    }
    Ok(runs)
}

/// The kept owners answer a list of calls as the plain ones do.
#[test]
fn answers_as_the_plain_body(rt: HostRuntime) -> Result<(), Fail> {
    let mut kept = Owners::new(rt.alloc(), UNITS, PARTS)?;
    let mut plain = PlainOwners::new(rt.alloc(), UNITS, PARTS)?;
    let mut seed: u32 = 2026;
    for _call in 0..400 {
        seed = seed.wrapping_mul(1_664_525).wrapping_add(1_013_904_223);
        change_both(&rt, &mut kept, &mut plain, seed / 256);
        compare(&rt, &kept, &plain);
    }
    Ok(())
}

/// Makes one call on both owners, and asserts that they answer alike.
fn change_both(rt: &impl Abort, kept: &mut Owners, plain: &mut PlainOwners, seed: u32)
    requires kept_parts { length kept.old.parts ≡ PARTS }
    requires kept_units { kept.old.units ≡ UNITS }
    requires plain_parts { length plain.old.parts ≡ PARTS }
    requires plain_units { plain.old.units ≡ UNITS }
    ensures kept_parts { length kept.new.parts ≡ PARTS }
    ensures kept_units { kept.new.units ≡ UNITS }
    ensures plain_parts { length plain.new.parts ≡ PARTS }
    ensures plain_units { plain.new.units ≡ UNITS }
{
    let part = seed / 8 % PARTS;
    let number = seed / 64 % UNITS;
    match seed % 8 {
        0 | 1 | 2 => {
            assert_eq!(rt; kept.claim(part, number), plain.claim(part, number));
        }
        3 | 4 => {
            assert_eq!(rt; kept.grow(part, number % 32), plain.grow(part, number % 32));
        }
        5 | 6 => {
            kept.shrink(part, number % 32);
            plain.shrink(part, number % 32);
        }
        _ => {
            kept.release(part);
            plain.release(part);
        }
    }
}

/// Asserts that both owners tell the same.
fn compare(rt: &impl Abort, kept: &Owners, plain: &PlainOwners)
    requires kept { length kept.now.parts ≡ PARTS }
    requires plain { length plain.now.parts ≡ PARTS }
{
    assert_eq!(rt; kept.free(), plain.free());
    for part in 0..PARTS {
        let count = kept.count(part);
        assert_eq!(rt; count, plain.count(part));
        for place in 0..count {
            assert_eq!(rt; kept.unit_at(part, place), plain.unit_at(part, place));
            assert_eq!(rt; kept.run_at(part, place), plain.run_at(part, place));
        }
        for place in 1..count {
            let last = kept.unit_at(part, place - 1);
            let step = kept.run_after(part, place, last);
            assert_eq!(rt;
                step,
                plain.run_after(part, place, plain.unit_at(part, place - 1))
            );
        }
    }
}
