//! Rows that are told, and their tally.

use crate::Tally;
use jp_devices::Watched;
use jp_form::Table;
use jp_sink::Sink;
use std::test::Fail;

#[test]
fn counts_rows_of_any_bytes(rt: HostRuntime) -> Result<(), Fail> {
    let mut tally = Tally::new(rt.alloc());
    for text in [b"b\n".as_slice(), b"a\tc\n", b"b\n", b"b\nb\n"] {
        assert!(rt; !tally.has_failed());
        tally.gap();
        assert!(rt; tally.row(true, text).is_ok());
    }
    let mut out = Watched::new(Vec::new(rt.alloc()));
    assert!(rt; tally.write_rows(Table::Canonical, None, &mut out).is_ok());
    assert_eq!(rt;
        out.into_inner().as_slice(),
        b"2\tb\n1\ta\tc\n1\tb\nb\n".as_slice()
    );
    Ok(())
}
