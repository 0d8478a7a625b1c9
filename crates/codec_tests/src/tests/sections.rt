//! Sections of messages (part 3, section 3.2), as types of one's own: a value and a map behind a
//! descriptor, as they are written. What is read as one, and what isn't, are lines of the stored
//! runs.

use super::bytes::is_made_as;
use super::made::{array, both, list, string, symbol};
use own_types::{Data, Properties, Shipment};
use serde_amqp::primitives::{Binary, Symbol, Timestamp};

const DATA: &[u8] = b"\x00\x53\x75\xa0\x02\x0a\xbc";

/// The section of these bytes.
fn data(bytes: Option<Vec<u8>>) -> Option<Data> {
    match bytes {
        Some(bytes) => Some(Data(Binary(bytes))),
        None => None,
    }
}

#[test]
fn a_section_is_a_value_behind_its_descriptor(rt: HostRuntime) {
    let alloc = rt.alloc();
    assert!(rt; is_made_as(alloc, data(list(alloc, &[0x0au8, 0xbc])), DATA));
}

/// Two sections behind the descriptor that they share.
const DATAS: &[u8] = b"\xe0\x0f\x02\x00\x53\x75\xb0\x00\x00\x00\x01\x0a\x00\x00\x00\x01\xbc";

#[test]
fn sections_are_elements_of_an_array(rt: HostRuntime) {
    let alloc = rt.alloc();
    let a = data(list(alloc, &[0x0au8]));
    let b = data(list(alloc, &[0xbcu8]));
    assert!(rt; is_made_as(alloc, array(both(alloc, a, b)), DATAS));
}

const SHIPMENT: &[u8] = b"\x00\x53\x74\xc1\x2e\x08\
    \xa1\x0corder-number\x53\x07\xa1\x07carrier\xa1\x01a\
    \xa1\x07fragile\x41\xa1\x04note\x40";

/// The seventh order, which can break.
fn shipment(carrier: Option<String>) -> Option<Shipment> {
    match carrier {
        Some(carrier) => Some(Shipment {
            order: 7,
            carrier,
            fragile: true,
            note: None,
        }),
        None => None,
    }
}

#[test]
fn application_properties_are_a_map_of_names_behind_their_descriptor(rt: HostRuntime) {
    let alloc = rt.alloc();
    assert!(rt; is_made_as(alloc, shipment(string(alloc, "a")), SHIPMENT));
}

const PROPERTIES: &[u8] = b"\x00\x53\x73\xc0\x1c\x0d\
    \x53\x01\x40\xa1\x01a\x40\x40\x40\xa3\x01t\x40\x40\
    \x83\x00\x00\x00\x00\x00\x00\x00\x00\x40\x52\xff\x40";

/// Those of the first message to a node, of a group.
fn properties(to: Option<String>, content_type: Option<Symbol>) -> Properties {
    Properties {
        message_id: Some(1),
        user_id: None,
        to,
        subject: None,
        reply_to: None,
        correlation_id: None,
        content_type,
        content_encoding: None,
        absolute_expiry_time: None,
        creation_time: Some(Timestamp::from_milliseconds(0)),
        group_id: None,
        group_sequence: Some(255),
        reply_to_group_id: None,
    }
}

#[test]
fn properties_of_a_message_are_a_list_of_thirteen(rt: HostRuntime) {
    let alloc = rt.alloc();
    let made = properties(string(alloc, "a"), symbol(alloc, "t"));
    assert!(rt; is_made_as(alloc, Some(made), PROPERTIES));
}
