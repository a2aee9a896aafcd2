//! Plans that are answered more than once.

use super::devices::{Cutting, NEVER};
use jp_model::{Framing, Watched};
use jp_plan::{Plan, laws};
use jp_query::{parse, singular};
use jp_store::Store;
use jp_types::check;
use std::test::Fail;

/// Trees in lines 1, 3, 5, 6 and 7, four of them with an `a`; a blank line, and one that is refused.
const LINES: &[u8] =
    b"{\"a\":{\"b\":1},\"c\":1}\n\n{\"a\":{\"b\":2},\"c\":2}\n[1,\n{\"a\":3,\"c\":2}\n{\"d\":0,\"a\":{\"e\":1,\"b\":[4]}}\n{\"c\":2,\"d\":[0]}\n";

#[test]
fn a_plan_can_be_answered_again(rt: HostRuntime) -> Result<(), Fail> {
    let alloc = rt.alloc();
    let mut reader = Watched::new(Cutting::new(alloc, LINES, 100, NEVER)?);
    let Ok(mut store) = Store::load(alloc, Framing::Lines, 1000, &mut reader) else {
        return Err("the collection is not loaded".into());
    };
    let path = singular(alloc, &parse(alloc, b"$.a")?)?.ok_or("the query is singular")?;
    if store.add_index(path).is_err() {
        return Err("the index is not made".into());
    }
    let Ok(query) = check(parse(alloc, b"$.a.b")?) else {
        return Err("the query is not well typed".into());
    };
    laws::no_more_lines_are_opened();
    assert_eq!(&rt; store.line_count(), 7);
    if store.is_metered() {
        return Err("the meter was had".into());
    }
    let mut opened = store.meter();
    let plan = Plan::new(alloc, &query, &store)?;
    // Three nodes and the refused line; four lines have the node where the index leads.
    assert_eq!(&rt; plan.answer(&mut opened)?.rows.len(), 4);
    assert_eq!(&rt; opened.count(), 4);
    assert_eq!(&rt; plan.answer(&mut opened)?.rows.len(), 4);
    assert_eq!(&rt; opened.count(), 8);
    Ok(())
}
