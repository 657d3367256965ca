//! The octets of the messages that tests share, beside those of other encoders.
use crate::fixtures::message::{Held, get, octets_of, reply};
use std::test::Fail;

// A Get of dot1dBaseNumPorts.0, and its reply of two ports.
const GET: &[u8] = b"\x30\x27\x02\x01\x01\x04\x06public\xA0\x1A\x02\x01\x01\x02\x01\x00\x02\x01\x00\
    \x30\x0F\x30\x0D\x06\x09\x2B\x06\x01\x02\x01\x11\x01\x02\x00\x05\x00";

const TWO_PORTS: &[u8] =
    b"\x30\x28\x02\x01\x01\x04\x06public\xA2\x1B\x02\x01\x01\x02\x01\x00\x02\x01\x00\
    \x30\x10\x30\x0E\x06\x09\x2B\x06\x01\x02\x01\x11\x01\x02\x00\x02\x01\x02";

#[test]
fn encodes_messages_as_others_do(rt: HostRuntime) -> Result<(), Fail> {
    let asked = octets_of(rt.alloc(), &get(&[("1.3.6.1.2.1.17.1.2.0", Held::Null)]))?;
    assert_eq!(rt; asked.as_slice(), GET);
    let replied = octets_of(
        rt.alloc(),
        &reply(&[("1.3.6.1.2.1.17.1.2.0", Held::Integer(2))]),
    )?;
    assert_eq!(rt; replied.as_slice(), TWO_PORTS);
    Ok(())
}
