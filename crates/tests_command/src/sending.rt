//! The words of `serve` on recordings that are sent: docs/SERVING.md, "Send a recording".

use crate::serving::{check_each_unserved, check_repeated, is_served_with};
use std::test::*;

/// `serve` takes the networks of `--send-to` in their order, and the address of `--send-on`, as they were given.
#[test]
fn serve_takes_sendings(rt: HostRuntime) -> Result<(), Fail> {
    let options = "--send-to 10.1.0.0/16 --send-to=127.0.0.1 --send-on x";
    let changes = "send_to: [\"10.1.0.0/16\", \"127.0.0.1\"]; send_on: Some(\"x\")";
    assert!(rt; is_served_with(rt.alloc(), options, changes)?);
    Ok(())
}

const WRONG_SENDINGS: &str = "\
--send-to 10.1.0.0/16 => 2 ! --send-to needs --aeron
--aeron --send-to 127.0.0.1/33 => 2 ! --send-to wants an IPv4 address, or one and a number of bits, as 10.1.0.0/16
--aeron --send-to 127.0.0.1 => 3 ! the folder is not there
--aeron --send-on 127.0.0.1 => 2 ! --send-on needs --send-to
--aeron --send-to 127.0.0.1 --send-on 127.0.0.1 => 3 ! the folder is not there
--aeron --send-to 127.0.0.1 --send-on 127.0.0.1:40200 => 3 ! the folder is not there
--aeron --send-to 127.0.0.1 --send-on 127.0.0.1:65536 => 2 ! --send-on wants an IPv4 address, or one and a port, as 10.0.0.1:40200
--aeron --send-to 127.0.0.1 --send-on 127.0.0 => 2 ! --send-on wants an IPv4 address, or one and a port, as 10.0.0.1:40200
--aeron --send-to 127.0.0.1 --send-on ::1 => 2 ! --send-on wants an IPv4 address, or one and a port, as 10.0.0.1:40200
--aeron --send-to 127.0.0.1 --send-on 224.0.0.1 => 2 ! --send-on wants an address of this machine, not a multicast address
--aeron --send-to 127.0.0.1 --send-on 224.0.0.1:40200 => 2 ! --send-on wants an address of this machine, not a multicast address
";

/// Networks that recordings may be sent to are refused as those of `--from`. So is an address that they are sent from without one, and
/// one that no machine has.
#[test]
fn wrong_sendings_of_a_server(rt: HostRuntime) -> Result<(), Fail> {
    check_each_unserved(&rt, rt, WRONG_SENDINGS)?;
    let option = " --send-to 10.1.0.0/16";
    check_repeated(&rt, rt, option, 16, " => 3 ! the folder is not there")?;
    let many = " => 2 ! --send-to may be given at most 16 times";
    check_repeated(&rt, rt, option, 17, many)
}
