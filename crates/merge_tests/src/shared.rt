// What the tests share.

use std::test::Fail;
use wasm_bytes::NoMemory;

// Fails with the name of what differs, if there is one, and if memory ran out.
pub(crate) fn expect_alike(unlike: Result<&'static str, NoMemory>) -> Result<(), Fail> {
    match unlike {
        Ok("") => Ok(()),
        Ok(name) => Err(Fail::new(name)),
        Err(NoMemory) => Err(Fail::new("no memory")),
    }
}
