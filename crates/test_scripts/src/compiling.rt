// Scripts as flat code.
use script_code::{Code, compile};
use script_parse::parse;
use std::alloc::Global;
use std::process::Abort;
use std::test::Fail;

/// The first thread starts the second one in a loop, and goes on behind it.
const STARTER: &[u8] = b"\
script 2
thread A
while r0
start B
end
yield
end
thread B
end
";

/// The code of a text's script.
pub(crate) fn code_of_text(alloc: Global, text: &[u8]) -> Result<Code, Fail> {
    let script = parse(alloc, text)?;
    let code = compile(alloc, &script);
    drop(script);
    Ok(code?)
}

/// A place of a thread, and the operation there as it is shown.
type Placed = (u32, u32, &'static str);

const OPERATIONS: [Placed; 6] = [
    (
        0,
        0,
        "Test { line: 3, test: Reg(0), next: 1, otherwise: 2 }",
    ),
    (0, 1, "Do { stmt: Start { line: 4, thread: 1 }, next: 0 }"),
    (0, 2, "Do { stmt: Yield { line: 6 }, next: 3 }"),
    (0, 3, "End { line: 7 }"),
    (1, 0, "Begin { line: 8, next: 1 }"),
    (1, 1, "End { line: 9 }"),
];

fn expect_operation(
    rt: &impl Abort,
    alloc: Global,
    code: &Code,
    thread: u32,
    place: u32,
    want: &str,
) -> Result<(), Fail> {
    assert!(rt; thread < code.threads());
    let end = code.end(thread);
    assert!(rt; 0 < end);
    assert!(rt; place <= end);
    let flat = code.flat(thread, place);
    let shown = format!(in alloc; "{flat:?}")?;
    assert_eq!(rt; shown.as_str(), want, "{thread} {place}");
    Ok(())
}

#[test]
fn a_loop_leads_back_to_its_test(rt: HostRuntime) -> Result<(), Fail> {
    let code = code_of_text(rt.alloc(), STARTER)?;
    assert_eq!(rt; code.threads(), 2);
    for (thread, place, want) in &OPERATIONS {
        expect_operation(&rt, rt.alloc(), &code, *thread, *place, want)?;
    }
    Ok(())
}
