use night_opening::live_name;

#[test]
fn a_night_without_a_record_is_named_after_its_machine(rt: HostRuntime) {
    let name = live_name(rt.alloc(), &None, b"booth 1");
    assert!(rt;
        name.as_ref()
            .is_ok_and(|name| name.as_str() == "cueplayer booth1")
    );
}
