//! Names of functions, as texts show them.

use std::alloc::{AllocError, Global};
use std::test::Fail;
use tomex_functions::shown_function;
use tomex_symbols::{Binding, Kind, Symbol};

/// The text of the name of these bytes.
fn shown(alloc: Global, name: &[u8]) -> Result<String, AllocError> {
    let symbol = Symbol {
        number: 0,
        address: 0,
        size: 4,
        kind: Kind::Function,
        binding: Binding::Global,
        name: 0,
        names_end: name.len(),
    };
    shown_function(alloc, name, &symbol)
}

/// Names, and their texts.
static NAMES: [(&[u8], &str); 7] = [
    (b"main", "main"),
    (b"main\x00other", "main"),
    (b"\xc3\xa9t\xc3\xa9", "été"),
    (b"a\tb\r\n\x1b[0m\x7f", "a\\tb\\r\\n\\u{1b}[0m\\u{7f}"),
    (b"a\xffb\n\x80", "a\\xffb\\n\\x80"),
    // a control character of two bytes, as a character and as bytes
    (b"\xc2\x85", "\\u{85}"),
    (b"\xc2\x85\xc2", "\\xc2\\x85\\xc2"),
];

#[test]
fn names_are_shown(rt: HostRuntime) -> Result<(), Fail> {
    for (name, text) in &NAMES {
        let shown = shown(rt.alloc(), name)?;
        assert!(rt; shown.as_str() == *text, "{shown}");
    }
    Ok(())
}
