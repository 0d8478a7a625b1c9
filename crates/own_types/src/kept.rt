//! What is written for a value of one's own is read as the same value.

ghost use Rattle.serde_amqp.specs.Headline.{KeptAs};

use crate::{
    Celsius, Colour, Data, Delivery, DeliveryState, Enumeration, Foo, Measurement, Note, Offer,
    Open, Pair, Priority, Properties, Reply, SaslInit, Section, Selector, Sensor, Shipment,
    Station, Switch, Tags,
};
use serde_amqp::{Error, Typed, from_slice, laws};
use std::alloc::Global;

/// What `to_vec` wrote for a sensor is read as the same one, or memory was wanting.
pub fn sensor_is_kept(alloc: Global, bytes: &[u8]) -> Result<Sensor, Error>
    ensures { KeptAs ⟦<Sensor as Typed>⟧.meaning bytes.now result }
{
    laws::kept::<Sensor>();
    from_slice(alloc, bytes)
}

/// What `to_vec` wrote for a station is read as the same one, or memory was wanting.
pub fn station_is_kept(alloc: Global, bytes: &[u8]) -> Result<Station, Error>
    ensures { KeptAs ⟦<Station as Typed>⟧.meaning bytes.now result }
{
    laws::kept::<Station>();
    from_slice(alloc, bytes)
}

/// What `to_vec` wrote for a delivery is read as the same one, or memory was wanting.
pub fn delivery_is_kept(alloc: Global, bytes: &[u8]) -> Result<Delivery, Error>
    ensures { KeptAs ⟦<Delivery as Typed>⟧.meaning bytes.now result }
{
    laws::kept::<Delivery>();
    from_slice(alloc, bytes)
}

/// What `to_vec` wrote for a reply is read as the same one, or memory was wanting.
pub fn reply_is_kept(alloc: Global, bytes: &[u8]) -> Result<Reply, Error>
    ensures { KeptAs ⟦<Reply as Typed>⟧.meaning bytes.now result }
{
    laws::kept::<Reply>();
    from_slice(alloc, bytes)
}

/// What `to_vec` wrote for a foo is read as the same one, or memory was wanting.
pub fn foo_is_kept(alloc: Global, bytes: &[u8]) -> Result<Foo, Error>
    ensures { KeptAs ⟦<Foo as Typed>⟧.meaning bytes.now result }
{
    laws::kept::<Foo>();
    from_slice(alloc, bytes)
}

/// What `to_vec` wrote for a note is read as the same one, or memory was wanting.
pub fn note_is_kept(alloc: Global, bytes: &[u8]) -> Result<Note, Error>
    ensures { KeptAs ⟦<Note as Typed>⟧.meaning bytes.now result }
{
    laws::kept::<Note>();
    from_slice(alloc, bytes)
}

/// What `to_vec` wrote for an offer is read as the same one, or memory was wanting.
pub fn offer_is_kept(alloc: Global, bytes: &[u8]) -> Result<Offer, Error>
    ensures { KeptAs ⟦<Offer as Typed>⟧.meaning bytes.now result }
{
    laws::kept::<Offer>();
    from_slice(alloc, bytes)
}

/// What `to_vec` wrote for a colour is read as the same one, or memory was wanting.
pub fn colour_is_kept(alloc: Global, bytes: &[u8]) -> Result<Colour, Error>
    ensures { KeptAs ⟦<Colour as Typed>⟧.meaning bytes.now result }
{
    laws::kept::<Colour>();
    from_slice(alloc, bytes)
}

/// What `to_vec` wrote for a measurement is read as the same one, or memory was wanting.
pub fn measurement_is_kept(alloc: Global, bytes: &[u8]) -> Result<Measurement, Error>
    ensures { KeptAs ⟦<Measurement as Typed>⟧.meaning bytes.now result }
{
    laws::kept::<Measurement>();
    from_slice(alloc, bytes)
}

/// What `to_vec` wrote for labels is read as the same one, or memory was wanting.
pub fn tags_is_kept(alloc: Global, bytes: &[u8]) -> Result<Tags, Error>
    ensures { KeptAs ⟦<Tags as Typed>⟧.meaning bytes.now result }
{
    laws::kept::<Tags>();
    from_slice(alloc, bytes)
}

/// What `to_vec` wrote for a temperature is read as the same one, or memory was wanting.
pub fn celsius_is_kept(alloc: Global, bytes: &[u8]) -> Result<Celsius, Error>
    ensures { KeptAs ⟦<Celsius as Typed>⟧.meaning bytes.now result }
{
    laws::kept::<Celsius>();
    from_slice(alloc, bytes)
}

/// What `to_vec` wrote for a pair is read as the same one, or memory was wanting.
pub fn pair_is_kept(alloc: Global, bytes: &[u8]) -> Result<Pair<u32, String>, Error>
    ensures { KeptAs ⟦<Pair<u32, String> as Typed>⟧.meaning bytes.now result }
{
    laws::kept::<Pair<u32, String>>();
    from_slice(alloc, bytes)
}

/// What `to_vec` wrote for a priority is read as the same one.
pub fn priority_is_kept(alloc: Global, bytes: &[u8]) -> Result<Priority, Error>
    ensures { KeptAs ⟦<Priority as Typed>⟧.meaning bytes.now result }
{
    laws::kept::<Priority>();
    from_slice(alloc, bytes)
}

/// What `to_vec` wrote for a performative is read as the same one, or memory was wanting.
pub fn open_is_kept(alloc: Global, bytes: &[u8]) -> Result<Open, Error>
    ensures { KeptAs ⟦<Open as Typed>⟧.meaning bytes.now result }
{
    laws::kept::<Open>();
    from_slice(alloc, bytes)
}

/// What `to_vec` wrote for the bytes of a message is read as the same ones, or memory was wanting.
pub fn data_is_kept(alloc: Global, bytes: &[u8]) -> Result<Data, Error>
    ensures { KeptAs ⟦<Data as Typed>⟧.meaning bytes.now result }
{
    laws::kept::<Data>();
    from_slice(alloc, bytes)
}

/// What `to_vec` wrote for a selector is read as the same one, or memory was wanting.
pub fn selector_is_kept(alloc: Global, bytes: &[u8]) -> Result<Selector, Error>
    ensures { KeptAs ⟦<Selector as Typed>⟧.meaning bytes.now result }
{
    laws::kept::<Selector>();
    from_slice(alloc, bytes)
}

/// What `to_vec` wrote for a shipment is read as the same one, or memory was wanting.
pub fn shipment_is_kept(alloc: Global, bytes: &[u8]) -> Result<Shipment, Error>
    ensures { KeptAs ⟦<Shipment as Typed>⟧.meaning bytes.now result }
{
    laws::kept::<Shipment>();
    from_slice(alloc, bytes)
}

/// What `to_vec` wrote for a client's choice is read as the same one, whose mechanism and response
/// stand in these bytes, or memory was wanting.
pub fn sasl_init_is_kept<'s>(alloc: Global, bytes: &'s [u8]) -> Result<SaslInit<'s>, Error>
    ensures { KeptAs ⟦<SaslInit<'s> as Typed>⟧.meaning bytes.now result }
{
    laws::kept::<SaslInit<'s>>();
    from_slice(alloc, bytes)
}

/// What `to_vec` wrote for a section is read as the same one, or memory was wanting.
pub fn section_is_kept(alloc: Global, bytes: &[u8]) -> Result<Section, Error>
    ensures { KeptAs ⟦<Section as Typed>⟧.meaning bytes.now result }
{
    laws::kept::<Section>();
    from_slice(alloc, bytes)
}

/// What `to_vec` wrote for the state of a delivery is read as the same one, or memory was wanting.
pub fn delivery_state_is_kept(alloc: Global, bytes: &[u8]) -> Result<DeliveryState, Error>
    ensures { KeptAs ⟦<DeliveryState as Typed>⟧.meaning bytes.now result }
{
    laws::kept::<DeliveryState>();
    from_slice(alloc, bytes)
}

/// What `to_vec` wrote for an enum is read as the same one, or memory was wanting.
pub fn enumeration_is_kept(alloc: Global, bytes: &[u8]) -> Result<Enumeration, Error>
    ensures { KeptAs ⟦<Enumeration as Typed>⟧.meaning bytes.now result }
{
    laws::kept::<Enumeration>();
    from_slice(alloc, bytes)
}

/// What `to_vec` wrote for a switch is read as the same one, or memory was wanting.
pub fn switch_is_kept(alloc: Global, bytes: &[u8]) -> Result<Switch, Error>
    ensures { KeptAs ⟦<Switch as Typed>⟧.meaning bytes.now result }
{
    laws::kept::<Switch>();
    from_slice(alloc, bytes)
}

/// What `to_vec` wrote for a message's properties is read as the same, or memory was wanting.
pub fn properties_are_kept(alloc: Global, bytes: &[u8]) -> Result<Properties, Error>
    ensures { KeptAs ⟦<Properties as Typed>⟧.meaning bytes.now result }
{
    laws::kept::<Properties>();
    from_slice(alloc, bytes)
}
