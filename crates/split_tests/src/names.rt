use std::test::Fail;
use wasm_names::function_names;

/// Function 1 is named `g`.
const NAMED: [u8; 22] = [
    0x00, 0x61, 0x73, 0x6D, 0x01, 0x00, 0x00, 0x00, 0x00, 0x0B, 0x04, 0x6E, 0x61, 0x6D, 0x65, 0x01,
    0x04, 0x01, 0x01, 0x01, 0x67, 0x00,
];

#[test]
fn reads_the_names(rt: HostRuntime) -> Result<(), Fail> {
    let names = function_names(rt.alloc(), &NAMED[..21])?;
    assert_eq!(rt; names.len(), 1);
    match names.get(0) {
        Some(named) => {
            assert_eq!(rt; named.index, 1);
            assert_eq!(rt; named.name.as_str(), "g");
        }
        None => assert!(rt; false),
    }
    Ok(())
}

#[test]
fn has_none_where_there_are_no_frames(rt: HostRuntime) -> Result<(), Fail> {
    let names = function_names(rt.alloc(), &NAMED)?;
    assert_eq!(rt; names.len(), 0);
    Ok(())
}
