// Examples of what is shown.
use crate::line::Line;
use journal::entry::Entry;
use journal::kind::Kind;
use journal::refusal::LayRefusal;
use std::test::Fail;

#[test]
fn a_store_tells_its_old_value(rt: HostRuntime) -> Result<(), Fail> {
    let entry = Entry {
        owner: 10,
        kind: Kind::Store,
        number: 150,
    };
    let line = Line {
        position: 12,
        entry,
    };
    assert_eq!(rt;
        line.to_string(rt.alloc())?.as_str(),
        "12  process 10  Store  old value 150"
    );
    Ok(())
}

#[test]
fn a_forged_number_is_told_aside(rt: HostRuntime) -> Result<(), Fail> {
    let entry = Entry {
        owner: 0,
        kind: Kind::Run,
        number: -5,
    };
    let line = Line { position: 1, entry };
    assert_eq!(rt;
        line.to_string(rt.alloc())?.as_str(),
        "1  process 0  Run  run started (number -5)"
    );
    Ok(())
}

#[test]
fn a_refusal_tells_its_place(rt: HostRuntime) -> Result<(), Fail> {
    let refusal = LayRefusal::MissingNumber(7);
    assert_eq!(rt;
        refusal.to_string(rt.alloc())?.as_str(),
        "14 at byte 7: the used bytes end within an entry"
    );
    Ok(())
}
