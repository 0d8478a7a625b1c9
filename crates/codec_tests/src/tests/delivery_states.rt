//! The states of a delivery (part 3, section 3.4), as they are written: structs under a descriptor,
//! also without fields, and an enum of them. What is read as one, and what isn't, are lines of the
//! stored runs.

use super::bytes::is_made_as;
use super::made::{array, both};
use own_types::{Accepted, DeliveryState, Received};
use std::alloc::Global;

/// The first seven bytes of the second section came.
fn received() -> Option<DeliveryState> {
    Some(DeliveryState::Received(Received {
        section_number: 1,
        section_offset: 7,
    }))
}

/// The delivery was taken.
fn accepted() -> Option<DeliveryState> {
    Some(DeliveryState::Accepted(Accepted {}))
}

#[test]
fn a_state_is_written_behind_its_descriptor(rt: HostRuntime) {
    let alloc = rt.alloc();
    assert!(rt; is_made_as(alloc, accepted(), b"\x00\x53\x24\x45"));
    assert!(rt;
        is_made_as(
            alloc,
            received(),
            b"\x00\x53\x23\xc0\x05\x02\x52\x01\x53\x07"
        )
    );
}

/// Two empty lists behind the descriptor that they share, each with a size and a count.
const TWO_ACCEPTED: &[u8] = b"\xe0\x15\x02\x00\x53\x24\xd0\0\0\0\x04\0\0\0\0\0\0\0\x04\0\0\0\0";

/// A list of both states.
const BOTH: &[u8] = b"\xc0\x0f\x02\x00\x53\x24\x45\x00\x53\x23\xc0\x05\x02\x52\x01\x53\x07";

/// The states as a list.
fn states(alloc: Global) -> Option<Vec<DeliveryState>> {
    both(alloc, accepted(), received())
}

#[test]
fn states_are_elements(rt: HostRuntime) {
    let alloc = rt.alloc();
    assert!(rt;
        is_made_as(
            alloc,
            array(both(alloc, accepted(), accepted())),
            TWO_ACCEPTED
        )
    );
    assert!(rt; is_made_as(alloc, states(alloc), BOTH));
}
