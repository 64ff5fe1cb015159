//! What a write through the value of an option leaves.
use iox_container::RelocatableOption;

/// Whether a byte is changed through an option.
fn written(byte: &mut u8) -> bool {
    let mut behind = RelocatableOption::Some(byte);
    if let RelocatableOption::Some(value) = behind.as_deref_mut() {
        *value = 9;
        return true;
    }
    false
}

#[test]
fn a_write_through_an_option_stays(rt: HostRuntime) {
    let mut byte = 7;
    assert!(rt; written(&mut byte) && byte == 9);
}
