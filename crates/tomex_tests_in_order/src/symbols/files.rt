//! A file with three functions, and the same with bytes of its tables changed.

use std::alloc::Global;
use std::test::Fail;
use tomex_symbols::symbols;
use tomex_tests_fixtures::programs::CALLS;

/// The number of symbols in the file with these bytes, at their places, changed.
fn count_of(alloc: Global, changes: &[(usize, u8)]) -> Result<usize, Fail> {
    let mut bytes = Vec::from_slice(alloc, CALLS.as_slice())?;
    for (place, byte) in changes {
        match bytes.get_mut(*place) {
            Some(old) => *old = *byte,
            None => return Err("no such place")?,
        }
    }
    Ok(symbols(alloc, bytes.as_slice())?.len())
}

#[test]
fn every_beginning(rt: HostRuntime) -> Result<(), Fail> {
    for length in 0..CALLS.len() {
        assert!(rt; symbols(rt.alloc(), &CALLS.as_slice()[..length])?.is_empty());
    }
    Ok(())
}

/// Bytes that are changed, and the number of symbols that are left.
static CHANGED: [(&[(usize, u8)], usize); 28] = [
    // section headers of another size; more than the file has; beyond its end
    (&[(46, 41)], 0),
    (&[(48, 6)], 0),
    (&[(32, 0xff), (33, 0xff), (34, 0xff), (35, 0xff)], 0),
    // the symbol table isn't one of them
    (&[(48, 4)], 0),
    // the table of a dynamic linker, entries of another size, a part of an entry
    (&[(376, 11)], 0),
    (&[(408, 24)], 0),
    (&[(392, 63)], 2),
    // a table outside of the file, also if the sum of offset and size wrapped
    (&[(393, 1)], 0),
    (&[(388, 0xf0), (389, 0xff), (390, 0xff), (391, 0xff)], 0),
    // a second table after the first one, and before it
    (&[(296, 2)], 0),
    (&[(336, 2)], 0),
    // names in no section, in one of code, outside of the file, cut in a name, and before one
    (&[(396, 5)], 0),
    (&[(396, 1)], 0),
    (&[(353, 2)], 0),
    (&[(352, 14)], 3),
    (&[(352, 13)], 2),
    // an undefined function, an object, an indirect function, one without a name
    (&[(178, 0)], 2),
    (&[(176, 0x11)], 2),
    (&[(176, 0x1a)], 2),
    (&[(164, 0)], 2),
    // labels: in code, in data, in no section
    (&[(176, 0x10)], 3),
    (&[(176, 0x10), (178, 2)], 2),
    (&[(176, 0x10), (178, 0)], 2),
    (&[(176, 0x10), (178, 5)], 2),
    // internal names, of labels and of functions
    (&[(176, 0x10), (129, b'$')], 2),
    (&[(176, 0x10), (129, b'.'), (130, b'L')], 2),
    (&[(176, 0x10), (129, b'.'), (130, b'l')], 3),
    (&[(129, b'.'), (130, b'L')], 3),
];

#[test]
fn changed_files(rt: HostRuntime) -> Result<(), Fail> {
    for (changes, count) in &CHANGED {
        let found = count_of(rt.alloc(), changes)?;
        assert!(rt; found == *count, "{found} in place of {count}");
    }
    Ok(())
}
