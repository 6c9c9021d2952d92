use module_limits::over_limit;
use wasm_tree::Module;

#[test]
fn an_empty_module_is_within_its_limits(rt: HostRuntime) {
    let empty = Module::empty(rt.alloc());
    assert!(rt; over_limit(&empty).is_none());
}
