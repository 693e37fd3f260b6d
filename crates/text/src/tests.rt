// No contract says that printing succeeds.
use crate::Decimal;

#[test]
fn a_decimal_prints_its_digits(rt: HostRuntime) {
    let text = format!(in rt.alloc(); "{} and {:3}", Decimal(u64::MAX), Decimal(7));
    assert_eq!(rt;
        text.expect(&rt, "memory").as_str(),
        "18446744073709551615 and   7"
    );
}
