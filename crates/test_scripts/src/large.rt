// The large script as it is printed.
use large_script::print_large;
use pct_ask::split_lines;
use std::test::Fail;

/// The lines up to the end of the first thread.
const BEGINNING: &[u8] = b"\
script 1
var v0 = 0
var v1 = 0
var v2 = 0
var v3 = 0
var v4 = 0
var v5 = 0
var v6 = 0
var v7 = 0
mutex m0
mutex m1
mutex m2
mutex m3
mutex m4
mutex m5
mutex m6
mutex m7
thread T0
yield
read r0 v0
write v0 (r0 + 1)
yield
lock m1
read r0 v1
write v1 (r0 + 1)
unlock m1
end
thread T1
";

#[test]
fn large_script_is_printed(rt: HostRuntime) -> Result<(), Fail> {
    let printed = print_large(rt.alloc(), 2)?;
    assert!(rt; printed.as_slice().starts_with(BEGINNING));
    assert!(rt;
        printed
            .as_slice()
            .ends_with(b"set r1 (r1 + r0)\nassert (r1 == 16)\nend\n")
    );
    assert_eq!(rt; split_lines(printed.as_slice()).count(), 124);
    Ok(())
}
