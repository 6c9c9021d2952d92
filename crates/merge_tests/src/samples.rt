use std::process::Abort;
use std::test::Fail;
use wasm_gen::{Sample, sample};
use wasm_num::BinOp;
use wasm_tree::{ExportDesc, Instr};

// What the first function of the first module is.
fn assert_first(rt: &impl Abort, sample: &Sample) {
    let first = sample.first.module();
    match (first.funcs.get(0), first.exports.get(0)) {
        (Some(func), Some(export)) => {
            assert!(rt; matches!(func.body.get(1), Some(Instr::I32Const(1_103_527_590))));
            assert!(rt; matches!(func.body.get(2), Some(Instr::Bin(BinOp::I32Add))));
            assert_eq!(rt; export.name.as_str(), "f0");
            assert!(rt; matches!(export.desc, ExportDesc::Func(0)));
        }
        _ => assert!(rt; false, "no function"),
    }
}

// What the first function of the second module is.
fn assert_second(rt: &impl Abort, sample: &Sample) {
    let second = sample.second.module();
    match (
        second.imports.get(0),
        second.funcs.get(0),
        second.exports.get(0),
    ) {
        (Some(import), Some(func), Some(export)) => {
            assert_eq!(rt; import.module.as_str(), "a");
            assert_eq!(rt; import.field.as_str(), "f0");
            assert!(rt; matches!(func.body.get(1), Some(Instr::Call(0))));
            assert_eq!(rt; export.name.as_str(), "g0");
            assert!(rt; matches!(export.desc, ExportDesc::Func(1)));
        }
        _ => assert!(rt; false, "no function"),
    }
}

#[test]
fn a_sample_of_one_function_each(rt: HostRuntime) -> Result<(), Fail> {
    let sample = sample(rt.alloc(), 1, 1)?;
    assert_first(&rt, &sample);
    assert_second(&rt, &sample);
    Ok(())
}
