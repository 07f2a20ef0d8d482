ghost use Rattle.std.specs.Prelude.{◌≡◌};

use super::*;
use length_word::{Length, Mark, meet};
use std::thread;

// The log grows by one entry if there is room, and a mark records that.
fn grow_once(mut length: Length, mut mark: Mark) -> (Length, Mark)
    requires { mark.table ≡ length.table }
    ensures { (result.0.table ≡ length.table) × (result.1.table ≡ length.table) }
{
    if length.entries() < 1000 {
        length.grow();
        length.show(&mut mark);
    }
    (length, mark)
}

// A mark meets another one, in another thread than the length's.
fn meet_once(mut one: Mark, mut other: Mark) -> Mark
    requires { one.table ≡ other.table }
    ensures { result.table ≡ one.table }
{
    meet(&mut one, &mut other);
    one
}

#[test]
fn marks_meet_while_the_log_grows(rt: HostRuntime) -> Result<(), Fail> {
    let mut length = Length::open(rt.alloc())?;
    let (first, second, third) = (length.mark()?, length.mark()?, length.mark()?);
    let (grown, met) = thread::join(
        &rt,
        || grow_once(length, first),
        || meet_once(second, third),
    );
    let (mut first, mut second) = (grown.1, met);
    meet(&mut first, &mut second);
    assert_eq!(rt; (first.entries(), second.entries()), (1, 1));
    Ok(())
}
