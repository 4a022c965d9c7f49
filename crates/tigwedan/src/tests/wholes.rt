// Wholes of listed items.
use sources::fault::{Fault, FaultKind};
use sources::listed::Listed;
use sources::source::Source;
use sources::whole::Whole;
use std::test::Fail;

#[test]
fn whole_of_what_is_left(rt: HostRuntime) -> Result<(), Fail> {
    let fault = Fault {
        kind: FaultKind::GainOver,
        input: 1,
        item: 3,
    };
    let mut source = Listed::new(&[10, 11, 12], Err(fault));
    let _ = source.next();
    let whole = Whole::of(rt.alloc(), &mut source)?;
    assert!(rt; whole.items.as_slice() == [11, 12].as_slice());
    assert!(rt; whole.ending == Err(fault));
    Ok(())
}
